// The board of a ring, and the calls of its seats.
ghost use Rattle.std.specs.Prelude.{◌≡◌, ◌<◌, []};
ghost use Rattle.memory.specs.Refusals.{unless};
ghost use Rattle.ring.specs.Rings.{ring_of, new_board, after_method, advanced, run, seat_causes, begin_causes, put_causes, step_causes, run_causes, begin_put, begin_take, step_once, run_alone};

use crate::calls::{Answer, Call, Task};
use crate::looks::Circle;
use crate::seat::{Hints, Seat};
use memory::elements::Element;
use memory::refusals::Refusal;
use memory::rules::Memory;

// What the seats of a ring share besides its cells. It holds no cell: each method is lent the memory.
#[derive(Drop)]
pub struct Board {
    // The number of cells. A board that no ring was made on is as any other, with size 0: it then fits no memory, since one of no
    // cells is never admitted.
    pub(crate) size: u16,
    // Where a put and where a take begins to look.
    pub(crate) hints: Hints,
    // Seat s at place s. The table is fixed, since nothing here allocates.
    pub(crate) seats: [Seat; 16],
}

// Each method is lent the memory beside the board, since a board may meet another memory of its size at any dealing.
impl Board {
    // A board with both hints at 0 and all seats idle.
    pub(crate) fn with_size(size: u16) -> Board
        ensures { result ≡ new_board size }
    {
        Board {
            size,
            hints: Hints::default(),
            seats: [Seat::Idle; 16],
        }
    }

    // A board that no ring was made on. `default` would not say so.
    pub fn unfilled() -> Board
        ensures { result ≡ new_board 0 }
    {
        Board::with_size(0)
    }

    // The place of a seat in the table, if there is such a seat and the memory has the board's size.
    fn admit<M: Memory>(&self, memory: &M, seat: u8) -> Result<usize, Refusal>
        ensures { result
            ≡ unless (seat_causes (ring_of (M.cells memory.now) self.now) seat []) seat }
    {
        if seat > 15 {
            return Err(Refusal::NoSeat { seat });
        }
        let size = memory.size();
        if size == 0 || size != self.size as usize {
            return Err(Refusal::OtherSize { seat });
        }
        Ok(seat as usize)
    }

    // The same of a seat that carries no call.
    fn admit_begin<M: Memory>(&self, memory: &M, seat: u8) -> Result<usize, Refusal>
        ensures { result
            ≡ unless (begin_causes (ring_of (M.cells memory.now) self.now) seat []) seat }
    {
        let at = self.admit(memory, seat)?;
        if !self.seats[at].is_idle() {
            return Err(Refusal::SeatBusy { seat });
        }
        Ok(at)
    }

    // The same, with a value to put.
    fn admit_put<M: Memory>(&self, memory: &M, seat: u8, value: u64) -> Result<usize, Refusal>
        ensures { result
            ≡ unless (put_causes M.Element.LIMITS (ring_of (M.cells memory.now) self.now) seat value) seat }
    {
        let at = self.admit_begin(memory, seat)?;
        if value == 0 || value > M::Element::LIMITS.value {
            return Err(Refusal::ValueOutside { seat });
        }
        Ok(at)
    }

    // The same of a seat that carries one. It asks for the opposite of a begin and refuses with another cause, so it stays a
    // function of its own.
    fn admit_step<M: Memory>(&self, memory: &M, seat: u8) -> Result<usize, Refusal>
        ensures { result
            ≡ unless (step_causes (ring_of (M.cells memory.now) self.now) seat []) seat }
    {
        let at = self.admit(memory, seat)?;
        if self.seats[at].is_idle() {
            return Err(Refusal::SeatIdle { seat });
        }
        Ok(at)
    }

    // The same, for a run alone of so many steps.
    fn admit_run<M: Memory>(&self, memory: &M, seat: u8, count: u16) -> Result<usize, Refusal>
        ensures { result
            ≡ unless (run_causes (ring_of (M.cells memory.now) self.now) seat count) seat }
    {
        let at = self.admit_step(memory, seat)?;
        if count == 0 || count > 8192 {
            return Err(Refusal::CountOutside { seat });
        }
        Ok(at)
    }

    // Begins a put of this value in an idle seat.
    pub fn begin_put<M: Memory>(&mut self, memory: &M, seat: u8, value: u64) -> Result<(), Refusal>
        ensures { after_method (M.cells memory.now) self.new result
            ≡ begin_put M.Element.LIMITS (ring_of (M.cells memory.now) self.old) seat value }
    {
        let at = self.admit_put(memory, seat, value)?;
        self.seats[at] = Seat::Start(Call::begin(Task::Put { value }));
        Ok(())
    }

    // Begins a take in an idle seat. A put asks for a value besides, so the two stay two methods.
    pub fn begin_take<M: Memory>(&mut self, memory: &M, seat: u8) -> Result<(), Refusal>
        ensures { after_method (M.cells memory.now) self.new result
            ≡ begin_take (ring_of (M.cells memory.now) self.old) seat }
    {
        let at = self.admit_begin(memory, seat)?;
        self.seats[at] = Seat::Start(Call::begin(Task::Take));
        Ok(())
    }

    // Lends one seat to a step: one access to one shared thing. None: its call goes on. That the place is in the table is asked
    // here and in `run`, and nowhere else.
    fn advance<M: Memory>(&mut self, memory: &mut M, at: usize) -> Option<Answer>
        requires { at < 16 }
        ensures after { after_method (M.cells memory.new) self.new result
            ≡ advanced M.Element.LIMITS (ring_of (M.cells memory.old) self.old) at }
        ensures apart { M.frame memory.new ≡ M.frame memory.old }
    {
        let circle = Circle { size: self.size };
        self.seats[at].step(memory, circle, &mut self.hints)
    }

    // One step of the call that a seat carries, and its answer. None: the call goes on.
    pub fn step<M: Memory>(&mut self, memory: &mut M, seat: u8) -> Result<Option<Answer>, Refusal>
        ensures after { after_method (M.cells memory.new) self.new result
            ≡ step_once M.Element.LIMITS (ring_of (M.cells memory.old) self.old) seat }
        ensures apart { M.frame memory.new ≡ M.frame memory.old }
    {
        let at = self.admit_step(memory, seat)?;
        Ok(self.advance(memory, at))
    }

    // Steps one seat up to `count` times; an answer ends the run. None: the call goes on. No index is counted; `find_map`
    // over a closure that steps the board was tried, and its proof does not close.
    #[tactic(auto, using(crate::proofs::Running::run_steps))]
    fn run<M: Memory>(&mut self, memory: &mut M, at: usize, count: u16) -> Option<Answer>
        requires { at < 16 }
        ensures after { after_method (M.cells memory.new) self.new result
            ≡ run M.Element.LIMITS count (ring_of (M.cells memory.old) self.old) at }
        ensures apart { M.frame memory.new ≡ M.frame memory.old }
    {
        for _ in 0..count {
            if let Some(answer) = self.advance(memory, at) {
                return Some(answer);
            }
        }
        None
    }

    // Steps the call of one seat up to `count` times, at most 8,192; an answer ends the run. None: the call goes on.
    pub fn run_alone<M: Memory>(
        &mut self,
        memory: &mut M,
        seat: u8,
        count: u16,
    ) -> Result<Option<Answer>, Refusal>
        ensures after { after_method (M.cells memory.new) self.new result
            ≡ run_alone M.Element.LIMITS (ring_of (M.cells memory.old) self.old) seat count }
        ensures apart { M.frame memory.new ≡ M.frame memory.old }
    {
        let at = self.admit_run(memory, seat, count)?;
        Ok(self.run(memory, at, count))
    }
}
