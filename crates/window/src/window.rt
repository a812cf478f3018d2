// A window: a part of a memory, which is a memory too.
ghost use Rattle.std.specs.Prelude.{◌≡◌, ◌+◌, ◌^◌, ◌<◌, ◌≤◌, length, is_ok, if◌then◌else◌};
ghost use Rattle.memory.specs.declared.cells.Cell.{Cell};
ghost use Rattle.window.specs.Windows.{windowed, framed, aimed, Reaches, SamePart};

use memory::cells::Cell;
use memory::parts::clipped;
use memory::refusals::Refusal;
use memory::rules::{Declined, Memory};

// The cells of a lent memory from `start` on, `count` of them. No call touches a cell outside.
#[derive(Drop)]
pub struct Window<'a, M: Memory> {
    below: &'a mut M,
    start: usize,
    count: usize,
    // It lies within the memory below, which never changes its size.
    ghost inside: { start + count ≤ length (M.cells below.now) },
    // Its end fits an index, as the size of that memory does.
    ghost end_fits: { start + count < 2 ^ 64 },
}

impl<'a, M: Memory> Window<'a, M> {
    // A window on the whole of a memory.
    pub fn over(below: &'a mut M) -> Window<'a, M>
        ensures held { result.below.now ≡ below.old }
        ensures lender { result.below.ghost_name ≡ below.entry.ghost_name }
        ensures start { result.start ≡ 0 }
        ensures count { result.count ≡ length (M.cells below.old) }
    {
        let count = below.size();
        Window {
            below,
            start: 0,
            count,
        }
    }

    // Aims the window at the cells from `start` on, `count` of them: any two numbers, as in `clear`.
    pub fn aim(&mut self, start: usize, count: usize) -> Result<(), Refusal>
        ensures answer { result ≡ aimed start count (M.cells self.old.below.now) }
        ensures held { self.new.below.now ≡ self.old.below.now }
        ensures lender { self.new.below.ghost_name ≡ self.old.below.ghost_name }
        ensures start { self.new.start ≡ (if is_ok result then start else self.old.start) }
        ensures count { self.new.count ≡ (if is_ok result then count else self.old.count) }
    {
        let size = self.below.size();
        if count == 0 || start > size || count > size - start {
            return Err(Refusal::WindowOutside);
        }
        self.start = start;
        self.count = count;
        Ok(())
    }

    // The index below of an index of the window; none outside. Under `then` the sum would stand in a closure of its own.
    fn reach(&self, at: usize) -> Option<usize>
        ensures { Reaches self.now.start self.now.count (M.cells self.now.below.now) at result }
    {
        if at < self.count {
            Some(self.start + at)
        } else {
            None
        }
    }

    // The start and count below of a start and count of the window, as far as they lie in it. They stay two numbers, as in
    // `clear`: a type around them would be taken apart at once.
    fn cover(&self, start: usize, count: usize) -> (usize, usize)
        ensures { SamePart self.now.start self.now.count (M.cells self.now.below.now) start count result.0 result.1 }
    {
        let part = clipped(start, count, self.count);
        (self.start + part.start, part.end - part.start)
    }
}

impl<'a, M: Memory> Memory for Window<'a, M> {
    type Element = M::Element;

    ghost cells = { λ w. windowed w.start w.count (M.cells w.below.now) };

    ghost frame = { λ w. framed w.below.ghost_name w.start w.count (M.cells w.below.now) (M.frame w.below.now) };

    #[tactic(auto, using(crate::proofs::Parts::length_of_window))]
    fn size(&self) -> usize {
        self.count
    }

    fn look(&self, at: usize) -> Option<Cell> {
        self.below.look(self.reach(at)?)
    }

    fn exchange(&mut self, at: usize, expected: Cell, new: Cell) -> Result<(), Declined> {
        let place = self.reach(at).ok_or(Declined::NoCell)?;
        self.below.exchange(place, expected, new)
    }

    #[tactic(auto, using(crate::proofs::Parts::size_kept))]
    fn clear(&mut self, start: usize, count: usize) {
        let (start, count) = self.cover(start, count);
        self.below.clear(start, count);
    }
}
