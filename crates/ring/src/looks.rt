// The look: which way a call goes once it has read a cell and the cell before it.
ghost use Rattle.std.specs.Prelude.{◌≡◌, ◌+◌, ◌-◌, ◌%◌, ◌<◌, ◌≤◌};
ghost use Rattle.memory.specs.Cells.{before};
ghost use Rattle.ring.specs.Looks.{previous, next, expected_round, put_verdict, take_verdict, verdict_of};

use crate::calls::{Outcome, Task};
use memory::cells::{Cell, Limits};

// The indices of a ring of so many cells, round and round.
#[derive(Clone, Copy)]
pub(crate) struct Circle {
    pub(crate) size: u16,
}

impl Circle {
    // The index before this one. In a ring of no cells 0 is before 0, a formality: no dealings reach one.
    #[tactic(auto, using(crate::proofs::Indices::previous_remainder))]
    pub(crate) fn before(self, index: u16) -> u16
        ensures value { result ≡ previous self.size index }
        ensures remainder { index < self.size → result ≡ (index + self.size - 1) % self.size }
    {
        if index == 0 { self.last() } else { index - 1 }
    }

    // The index after this one.
    pub(crate) fn after(self, index: u16) -> u16
        ensures value { result ≡ next self.size index }
        ensures remainder { index < self.size → result ≡ (index + 1) % self.size }
    {
        if index < self.last() { index + 1 } else { 0 }
    }

    // The last index; 0 in a ring of no cells.
    fn last(self) -> u16
        ensures { result ≡ self.size - 1 }
    {
        self.size.saturating_sub(1)
    }
}

// Where a look leads.
#[derive(Clone, Copy)]
pub(crate) enum Verdict {
    // To the exchange of the expected cell for the new one.
    Exchange(Cell, Cell),
    // To a note of the index, and then to the answer.
    Note(Outcome),
    // To the answer at once.
    Answer(Outcome),
    // To a look at the next cell.
    Onward,
}

// What a call has seen at a look: the cell at an index and, read before it, the cell at the previous index. The round of
// `cell` is one that the memory allows.
#[derive(Clone, Copy)]
pub(crate) struct Sight {
    pub(crate) limits: Limits,
    pub(crate) circle: Circle,
    pub(crate) index: u16,
    pub(crate) previous: Cell,
    pub(crate) cell: Cell,
    pub(crate) ghost within: { cell.round ≤ limits.round },
}

impl Sight {
    // Where the call goes. A put and a take go by two rules, and not by one with a value for each.
    pub(crate) fn judge(self, task: Task) -> Verdict
        ensures { result
            ≡ verdict_of self.limits self.circle.size task self.index self.previous self.cell }
    {
        match task {
            Task::Put { value } => self.judge_put(value),
            Task::Take => self.judge_take(),
        }
    }

    // Where a put of this value goes: the earliest line that fits.
    fn judge_put(self, value: u64) -> Verdict
        ensures { result
            ≡ put_verdict self.limits self.circle.size value self.index self.previous self.cell }
    {
        let ordered = self.is_ordered();
        let round = self.expected_round();
        let last = self.limits.round as u64;
        match (self.previous.is_filled(), self.cell.is_filled(), ordered) {
            (true, false, _) | (false, false, false) if round >= last => {
                Verdict::Answer(Outcome::Worn)
            }
            (true, false, _) | (false, false, false) => {
                let round = round as u32;
                Verdict::Exchange(Cell { value: 0, round }, Cell { value, round })
            }
            (true, true, false) => Verdict::Note(Outcome::Full),
            _ => Verdict::Onward,
        }
    }

    // Where a take goes.
    fn judge_take(self) -> Verdict
        ensures { result
            ≡ take_verdict self.limits self.circle.size self.index self.previous self.cell }
    {
        match (self.is_ordered(), self.cell.is_filled()) {
            (true, _) => Verdict::Onward,
            (false, false) => Verdict::Answer(Outcome::Empty),
            (false, true) if self.cell.round == self.limits.round => Verdict::Answer(Outcome::Worn),
            (false, true) => {
                let round = self.cell.round + 1;
                Verdict::Exchange(self.cell, Cell { value: 0, round })
            }
        }
    }

    // Whether the previous cell is before this one.
    fn is_ordered(self) -> bool
        ensures { result
            ≡ before self.previous (previous self.circle.size self.index) self.cell self.index }
    {
        let at = self.circle.before(self.index) as usize;
        self.previous.is_before(at, self.cell, self.index as usize)
    }

    // The round at which a put finds the cell empty, by the cell before it. It may be one more than the largest round of
    // 32 bits.
    fn expected_round(self) -> u64
        ensures { result ≡ expected_round self.previous self.index }
    {
        let round = self.previous.round as u64;
        match (self.previous.is_filled(), self.index == 0) {
            (true, true) => round + 1,
            (true, false) | (false, true) => round,
            (false, false) => round.saturating_sub(1),
        }
    }
}
