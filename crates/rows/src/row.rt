// A memory in a lent row.
ghost use Rattle.std.specs.Prelude.{◌≡◌, [], map};
ghost use Rattle.memory.specs.Rules.{lent};

use crate::fill::overwrite;
use memory::cells::Cell;
use memory::elements::Element;
use memory::rules::{Declined, Memory};

// A lent slice whose elements each hold a cell, read and exchanged in place.
#[derive(Drop)]
pub struct Row<'a, E> {
    elements: &'a mut [E],
}

// Paired records: each a 64-bit value and a 32-bit round.
pub type Records<'a> = Row<'a, Cell>;

// Tagged words: each round × 2^48 + value.
pub type Words<'a> = Row<'a, u64>;

impl<'a, E: Element> Row<'a, E> {
    // The memory that this slice is.
    pub fn over(elements: &'a mut [E]) -> Row<'a, E>
        ensures held { result.elements.now ≡ elements.old }
        ensures lender { result.elements.ghost_name ≡ elements.entry.ghost_name }
    {
        Row { elements }
    }
}

impl<'a, E: Element> Memory for Row<'a, E> {
    type Element = E;

    ghost cells = { λ m. map E.cell_of m.elements.now };

    ghost frame = { λ m. lent m.elements.ghost_name [] };

    fn size(&self) -> usize {
        self.elements.len()
    }

    fn look(&self, at: usize) -> Option<Cell> {
        self.elements.get(at).map(|element| element.cell())
    }

    #[tactic(auto, using(crate::proofs::Rows::row_exchanged))]
    fn exchange(&mut self, at: usize, expected: Cell, new: Cell) -> Result<(), Declined> {
        self.elements[at] = self.check_exchange(at, expected, new)?;
        Ok(())
    }

    #[tactic(auto, using(crate::proofs::Rows::row_cleared))]
    fn clear(&mut self, start: usize, count: usize) {
        overwrite(self.elements, start, count, E::CLEAR);
    }
}
