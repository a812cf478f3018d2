// A cell, the order of cells, and the limits of what a cell can hold.
ghost use Rattle.std.specs.Prelude.{◌≡◌};
ghost use Rattle.memory.specs.Cells.{filled, before, fits};

// A value and a round. Value 0 marks an empty cell, any other value a filled one.
// The round counts how often the cell has been emptied.
#[derive(Clone, Copy, PartialEq, Eq, Debug)]
pub struct Cell {
    pub value: u64,
    pub round: u32,
}

impl Cell {
    // An empty cell that has never been emptied: a constant, so that tables and other constants can be made of it.
    pub const FRESH: Cell = Cell { value: 0, round: 0 };

    // Whether the cell holds a value. Value 0 stands for none, as in every form of a cell: an Option would not fit a word.
    pub fn is_filled(self) -> bool
        ensures { result ≡ filled self }
    {
        self.value != 0
    }

    // Whether this cell, at index `at`, is before the other, at index `other_at`.
    pub fn is_before(self, at: usize, other: Cell, other_at: usize) -> bool
        ensures { result ≡ before self at other other_at }
    {
        (self.round, at) < (other.round, other_at)
    }
}

// The largest value and the last round that a cell of a memory can have.
#[derive(Clone, Copy, PartialEq, Eq, Debug)]
pub struct Limits {
    pub value: u64,
    pub round: u32,
}

impl Limits {
    // Whether a cell's value and round are both within these limits.
    pub fn admit(self, cell: Cell) -> bool
        ensures { result ≡ fits self cell }
    {
        cell.value <= self.value && cell.round <= self.round
    }
}
