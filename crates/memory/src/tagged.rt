// A cell in one tagged word: the round stands above the 48 bits of the value.
ghost use Rattle.std.specs.Prelude.{◌≡◌, refl};
ghost use Rattle.std.proofs.Common.{lit≤};
ghost use Rattle.memory.specs.Cells.{Within};
ghost use Rattle.memory.specs.Packing.{packed, unpacked, tagged};

use crate::cells::{Cell, Limits};
use crate::elements::Element;

// The largest value and the last round that a tagged word holds. They have a name of their own for other forms of a word: a
// constant that a trait provides cannot be read in the value of another.
pub const LIMITS: Limits = Limits {
    value: 281_474_976_710_655,
    round: 65_535,
};

// What one round counts in a word.
const ROUND_UNIT: u64 = 1 << 48;

impl Element for u64 {
    const LIMITS: Limits = LIMITS;

    const CLEAR: u64 = 0;

    ghost LIMITS = { tagged };

    ghost CLEAR = { 0 };

    ghost cell_of = { unpacked 48 };

    ghost element_of = { packed 48 };

    // Beside what every element promises, the word can be had back from the cell.
    fn cell(self) -> Cell
        ensures value { result ≡ unpacked 48 self }
        ensures within { Within tagged result }
        ensures back { packed 48 result ≡ self }
    {
        Cell {
            value: self % ROUND_UNIT,
            round: (self / ROUND_UNIT) as u32,
        }
    }

    // Under `then` the sum would stand in a closure of its own.
    fn holding(cell: Cell) -> Option<u64> {
        if Self::LIMITS.admit(cell) {
            Some(cell.round as u64 * ROUND_UNIT + cell.value)
        } else {
            None
        }
    }

    ghost proper = { (lit≤ tt, lit≤ tt, lit≤ tt) };

    ghost cleared = { refl };
}
