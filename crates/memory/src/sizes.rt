// The sizes that a ring can have.
ghost use Rattle.std.specs.Prelude.{◌≡◌, ◌↔◌, IsTrue, ℕ, if◌then◌else◌, Some, None};
ghost use Rattle.memory.specs.Sizes.{is_ring_size, RingSize};

use std::marker::Model;

// Whether a ring can have this size: a power of two from 2 to 4,096. It counts the one bits and compares, word for word as the
// size is defined.
#[tactic(auto, using(crate::proofs::Powers::decides_ring_size))]
pub fn is_ring_size(size: usize) -> bool
    ensures value { result ≡ is_ring_size size }
    ensures powers { IsTrue (is_ring_size size) ↔ RingSize size }
{
    size.count_ones() == 1 && (2..=4096).contains(&size)
}

// A size that a ring can have: in contracts, a number.
#[derive(Clone, Copy, PartialEq, Eq, Debug)]
pub struct Size {
    cells: u16,
}

impl Model for Size {
    ghost Value = { ℕ };

    ghost view = { λ s. s.cells };

    ghost invariant = { λ s. IsTrue (is_ring_size s.cells) };

    ghost inverse = { λ n. record { cells = n } };
}

impl Size {
    // The size of so many cells; none that no ring can have. Under `then` the narrowing would stand in a closure of its own.
    pub fn new(cells: usize) -> Option<Size>
        ensures { result ≡ (if is_ring_size cells then Some cells else None) }
    {
        if !is_ring_size(cells) {
            return None;
        }
        Some(Size {
            cells: cells as u16,
        })
    }

    // The number of cells.
    pub fn cells(self) -> usize
        ensures value { result ≡ self }
        ensures sized { IsTrue (is_ring_size result) }
    {
        self.cells as usize
    }
}
