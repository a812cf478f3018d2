// The memory that a page of bytes is.
ghost use Rattle.std.specs.Prelude.{◌≡◌, ◌<◌, map, length, slice_set};
ghost use Rattle.memory.specs.Rules.{cleared, lent};
ghost use Rattle.page.specs.Bytes.{cell_from};
ghost use Rattle.page.specs.Pages.{page_cells, other_bytes};

use crate::bytes::CellBytes;
use crate::check::check_page;
use memory::cells::Cell;
use memory::elements::Element;
use memory::parts::clipped;
use memory::rules::{Declined, Memory};

// The bytes of each cell: none where the check refuses the page.
fn cells(bytes: &[u8]) -> &[[u8; 8]]
    ensures cells { map cell_from result.now ≡ page_cells bytes.now }
    ensures len { length result.now ≡ length (page_cells bytes.now) }
{
    match check_page(bytes) {
        Ok(_) => bytes[8..].as_chunks().0,
        Err(_) => &[],
    }
}

// Stores an element in the place of a cell. It goes by an offset: to lend the bytes in chunks was tried, and the proof does not
// close, since the library says nothing of what is then left of the slice.
#[tactic(auto, using(crate::proofs::PageCells::room))]
fn store(bytes: &mut [u8], at: usize, element: CellBytes)
    requires { at < length (page_cells bytes.old) }
    ensures cells { page_cells bytes.new ≡ slice_set (page_cells bytes.old) at (cell_from element.bytes) }
    ensures others { other_bytes bytes.new ≡ other_bytes bytes.old }
{
    let from = 8 + 8 * at;
    bytes[from..from + 8].copy_from_slice(&element.bytes);
}

// Clears the cells from `start` on, `count` of them: eight bytes of 0 each. Indices outside are skipped.
#[tactic(auto, using(crate::proofs::PageCells::room))]
fn wipe(bytes: &mut [u8], start: usize, count: usize)
    ensures cells { page_cells bytes.new ≡ cleared (page_cells bytes.old) start count }
    ensures others { other_bytes bytes.new ≡ other_bytes bytes.old }
{
    let part = clipped(start, count, cells(bytes).len());
    // a page that the check refuses has no cells, and may have no eight bytes
    if part.start < part.end {
        bytes[8 + 8 * part.start..8 + 8 * part.end].fill(0);
    }
}

// A page that the check refuses is a memory with no cells. It is no row of elements: its head is judged at each call, and it has
// bytes that are part of no cell.
#[derive(Drop)]
pub struct Page<'a> {
    bytes: &'a mut [u8],
}

impl<'a> Page<'a> {
    // The memory that these bytes are.
    pub fn over(bytes: &'a mut [u8]) -> Page<'a>
        ensures held { result.bytes.now ≡ bytes.old }
        ensures lender { result.bytes.ghost_name ≡ bytes.entry.ghost_name }
    {
        Page { bytes }
    }
}

impl<'a> Memory for Page<'a> {
    type Element = CellBytes;

    ghost cells = { λ m. page_cells m.bytes.now };

    ghost frame = { λ m. lent m.bytes.ghost_name (other_bytes m.bytes.now) };

    fn size(&self) -> usize {
        cells(self.bytes).len()
    }

    fn look(&self, at: usize) -> Option<Cell> {
        let bytes = *cells(self.bytes).get(at)?;
        Some(CellBytes { bytes }.cell())
    }

    fn exchange(&mut self, at: usize, expected: Cell, new: Cell) -> Result<(), Declined> {
        let element = self.check_exchange(at, expected, new)?;
        store(self.bytes, at, element);
        Ok(())
    }

    fn clear(&mut self, start: usize, count: usize) {
        wipe(self.bytes, start, count);
    }
}
