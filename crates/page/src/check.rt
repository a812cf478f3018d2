// The check of a page.
ghost use Rattle.std.specs.Prelude.{◌≡◌, ◌+◌, ◌*◌};
ghost use Rattle.memory.specs.Refusals.{unless};
ghost use Rattle.page.specs.Pages.{checked, size_causes, RoundTrips};

use memory::refusals::Refusal;
use memory::sizes::Size;

// The number of bytes of a page of this size.
pub fn length_of(size: Size) -> usize
    ensures { result ≡ 8 + 8 * size }
{
    8 + 8 * size.cells()
}

// The size of a page of `count` bytes and `size` cells, unless no ring has the size or it does not go with the bytes.
pub(crate) fn check_size(count: usize, size: usize) -> Result<Size, Refusal>
    ensures { result ≡ unless (size_causes count size) size }
{
    Size::new(size)
        .filter(|size| count == length_of(*size))
        .ok_or(Refusal::PageSize)
}

// The number of cells of a page, or why these bytes are none; and the round trips between a page and its cells.
#[tactic(auto, using(crate::proofs::RoundTrip::round_trips))]
pub fn check_page(bytes: &[u8]) -> Result<usize, Refusal>
    ensures answer { result ≡ checked bytes.now }
    ensures trips { RoundTrips bytes.now }
{
    // A trace has the same fields first, with other refusals in another order, so each head is read by itself. Each byte has its
    // name, since a pattern with a rest in its middle has no proof.
    let head = bytes.first_chunk::<8>().ok_or(Refusal::PageTooShort)?;
    let [
        version,
        length_0,
        length_1,
        length_2,
        length_3,
        size_0,
        size_1,
        last,
    ] = *head;
    if version != 1 {
        return Err(Refusal::PageVersion);
    }
    if u32::from_be_bytes([length_0, length_1, length_2, length_3]) as usize != bytes.len() {
        return Err(Refusal::PageLength);
    }
    let size = u16::from_be_bytes([size_0, size_1]) as usize;
    let size = check_size(bytes.len(), size)?;
    if last != 0 {
        return Err(Refusal::PageSize);
    }
    Ok(size.cells())
}
