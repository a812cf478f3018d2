// Laying out a page.
ghost use Rattle.std.specs.Prelude.{◌≡◌, ◌+◌, ◌*◌, IsTrue, OnOk, length, replicate, is_ok, if◌then◌else◌};
ghost use Rattle.memory.specs.Cells.{fresh};
ghost use Rattle.memory.specs.Sizes.{is_ring_size};
ghost use Rattle.page.specs.Pages.{header, page_of, page_cells, laid_out};

use crate::check::{check_size, length_of};
use memory::refusals::Refusal;
use memory::sizes::Size;

// The head of a page of so many cells.
fn head_of(size: Size) -> [u8; 8]
    ensures head { result ≡ header size }
    ensures sized { IsTrue (is_ring_size size) }
{
    let [length_0, length_1, length_2, length_3] = (length_of(size) as u32).to_be_bytes();
    let [size_0, size_1] = (size.cells() as u16).to_be_bytes();
    [1, length_0, length_1, length_2, length_3, size_0, size_1, 0]
}

// Writes the head and as many cleared cells.
fn write_page(bytes: &mut [u8], size: Size)
    requires { length bytes.old ≡ 8 + 8 * size }
    ensures bytes { bytes.new ≡ page_of (replicate size fresh) }
    ensures cells { page_cells bytes.new ≡ replicate size fresh }
{
    bytes[..8].copy_from_slice(&head_of(size));
    bytes[8..].fill(0);
}

// Makes these bytes a page of so many cleared cells, or says why they cannot be one.
pub fn lay_out(bytes: &mut [u8], size: usize) -> Result<(), Refusal>
    ensures answer { result ≡ laid_out (length bytes.old) size }
    ensures after { bytes.new ≡ (if is_ok result then page_of (replicate size fresh) else bytes.old) }
    ensures cells { OnOk result (page_cells bytes.new ≡ replicate size fresh) }
{
    if bytes.len() < 8 {
        return Err(Refusal::PageTooShort);
    }
    let size = check_size(bytes.len(), size)?;
    write_page(bytes, size);
    Ok(())
}
