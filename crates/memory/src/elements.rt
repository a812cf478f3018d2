// The forms in which a memory can hold a cell.
ghost use Rattle.std.specs.Prelude.{◌≡◌, if◌then◌else◌, IfSome, refl};
ghost use Rattle.std.proofs.Common.{lit≤};
ghost use Rattle.memory.specs.declared.cells.Cell.{Cell};
ghost use Rattle.memory.specs.declared.cells.Limits.{Limits};
ghost use Rattle.memory.specs.Cells.{fresh, limited, fits, Proper, Within};

use crate::cells::{Cell, Limits};

// An element holds one cell: a record is the cell itself, a tagged word has it packed in a number. The two ways are methods, and
// no From and TryFrom, since a cell made from a bare number would not say that the number is a word.
pub trait Element: Copy {
    // The largest value and the last round that a cell can have in this form.
    const LIMITS: Limits;
    // The element of an empty cell that has never been emptied.
    const CLEAR: Self;

    // The same two, where a clause speaks of them.
    ghost LIMITS: { Limits };

    ghost CLEAR: { Self };

    // The cell that an element holds, and the element that holds a cell.
    ghost cell_of: { Self → Cell };

    ghost element_of: { Cell → Self };

    // The cell that this element holds.
    fn cell(self) -> Cell
        ensures value { result ≡ cell_of self }
        ensures within { Within LIMITS result };

    // The element that holds a cell; none where the cell is beyond the limits.
    fn holding(cell: Cell) -> Option<Self>
        ensures value { result ≡ (if fits LIMITS cell then Some (element_of cell) else None) }
        ensures back { IfSome result (λ element. cell_of element ≡ cell) };

    // The limits are ones that a memory may have.
    ghost proper: { Proper LIMITS };

    // The cleared element holds a fresh cell.
    ghost cleared: { cell_of CLEAR ≡ fresh };
}

// A record is its own element: every value and every round of its types fits.
impl Element for Cell {
    const LIMITS: Limits = Limits {
        value: u64::MAX,
        round: u32::MAX,
    };

    const CLEAR: Cell = Cell::FRESH;

    ghost LIMITS = { limited 18446744073709551615 4294967295 };

    ghost CLEAR = { fresh };

    ghost cell_of = { λ c. c };

    ghost element_of = { λ c. c };

    fn cell(self) -> Cell {
        self
    }

    fn holding(cell: Cell) -> Option<Cell> {
        Some(cell)
    }

    ghost proper = { (lit≤ tt, lit≤ tt, lit≤ tt) };

    ghost cleared = { refl };
}
