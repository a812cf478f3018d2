// The rules that every memory shows of its own list of cells.
ghost use Rattle.std.specs.Prelude.{◌≡◌, ◌<◌, List, length, IfSome, IfOk, OnOk};
ghost use Rattle.memory.specs.declared.cells.Cell.{Cell};
ghost use Rattle.memory.specs.Cells.{Within};
ghost use Rattle.memory.specs.Rules.{look_at, exchange_checked, exchange_answer, after_exchange, cleared, Frame};

use crate::cells::Cell;
use crate::elements::Element;

// Why a memory does not exchange a cell.
#[derive(Clone, Copy, PartialEq, Eq, Debug)]
pub enum Declined {
    // There is no cell at that index.
    NoCell,
    // The new cell is beyond the memory's limits.
    Unfit,
    // The cell there is not the expected one.
    Differs,
}

// A memory means a list of cells, each held in an element of one form, and so within that form's limits.
pub trait Memory {
    // The form in which the memory holds its cells. Its limits are the memory's.
    type Element: Element;

    // The list of cells that the memory means.
    ghost cells: { Self → List Cell };

    // All that the memory was lent and that is no cell of it: no call changes it.
    ghost frame: { Self → Frame };

    // The number of cells.
    fn size(&self) -> usize
        ensures { result ≡ length (cells self.now) };

    // The cell at an index; none outside the memory.
    fn look(&self, at: usize) -> Option<Cell>
        ensures found { result ≡ look_at (cells self.now) at }
        ensures within { IfSome result (Within Self.Element.LIMITS) };

    // The element that an exchange stores, or why the exchange is not done.
    fn check_exchange(
        &self,
        at: usize,
        expected: Cell,
        new: Cell,
    ) -> Result<Self::Element, Declined>
        ensures answer { result ≡ exchange_checked Self.Element.LIMITS (cells self.now) at expected new (Self.Element.element_of new) }
        ensures holds { IfOk result (λ element. Self.Element.cell_of element ≡ new) }
        ensures inside { OnOk result (at < length (cells self.now)) }
    {
        let found = self.look(at).ok_or(Declined::NoCell)?;
        let element = Self::Element::holding(new).ok_or(Declined::Unfit)?;
        if found != expected {
            return Err(Declined::Differs);
        }
        Ok(element)
    }

    // Puts a new cell in the place of the expected one, or says why not. It takes an index and two cells, as the rule is told:
    // a type for the two cells would be taken apart at once. That the rest stays (`apart`) is a clause, here and wherever a
    // memory is lent on, since it compares before and after, which no field of a type can.
    fn exchange(&mut self, at: usize, expected: Cell, new: Cell) -> Result<(), Declined>
        ensures answer { result ≡ exchange_answer Self.Element.LIMITS (cells self.old) at expected new }
        ensures after { cells self.new ≡ after_exchange Self.Element.LIMITS (cells self.old) at expected new }
        ensures apart { frame self.new ≡ frame self.old };

    // Makes the cells from `start` on, `count` of them, empty at round 0; indices outside are skipped. The two are any
    // numbers, and their sum need not be one, so a range would not say it.
    fn clear(&mut self, start: usize, count: usize)
        ensures after { cells self.new ≡ cleared (cells self.old) start count }
        ensures apart { frame self.new ≡ frame self.old };
}

// Clears the whole of a memory, and answers its size.
pub fn clear_all<M: Memory>(memory: &mut M) -> usize
    ensures size { result ≡ length (M.cells memory.old) }
    ensures after { M.cells memory.new ≡ cleared (M.cells memory.old) 0 (length (M.cells memory.old)) }
    ensures apart { M.frame memory.new ≡ M.frame memory.old }
{
    let size = memory.size();
    memory.clear(0, size);
    size
}
