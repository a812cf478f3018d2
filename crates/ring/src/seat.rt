// A seat, and the steps of the call that it carries.
ghost use Rattle.std.specs.Prelude.{◌≡◌, Some};
ghost use Rattle.memory.specs.Cells.{Within};
ghost use Rattle.ring.specs.declared.seat.Seat.TheVariants.{Idle};
ghost use Rattle.ring.specs.Looks.{cell_at, verdict_of};
ghost use Rattle.ring.specs.Rings.{is_idle};
ghost use Rattle.ring.specs.Seats.{hint_of, hinted, step_seat};

use crate::calls::{Answer, Call, Outcome, Task};
use crate::looks::{Circle, Sight, Verdict};
use memory::cells::Cell;
use memory::elements::Element;
use memory::rules::Memory;

// Where a put and where a take begins to look.
#[derive(Clone, Copy, Default)]
pub struct Hints {
    pub put: u16,
    pub take: u16,
}

impl Hints {
    // The hint of a put or of a take: two, so a match says more than a table.
    fn of(&self, task: Task) -> u16
        ensures { result ≡ hint_of self.now task }
    {
        match task {
            Task::Put { .. } => self.put,
            Task::Take => self.take,
        }
    }

    // Moves the hint of a put or of a take to this index: two, so a match says more than a table.
    fn write(&mut self, task: Task, index: u16)
        ensures { self.new ≡ hinted self.old task index }
    {
        match task {
            Task::Put { .. } => self.put = index,
            Task::Take => self.take = index,
        }
    }
}

// The cell at an index. That a look outside the memory, which finds no cell, reads as a fresh one is a formality: no dealings
// with a ring lead outside. A match takes the look's Option apart, so that both cases can be read.
fn read<M: Memory>(memory: &M, index: u16) -> Cell
    ensures value { result ≡ cell_at (M.cells memory.now) index }
    ensures within { Within M.Element.LIMITS result }
{
    match memory.look(index as usize) {
        Some(cell) => cell,
        None => Cell::FRESH,
    }
}

// Reads the cell at an index, and judges it by the previous cell, which was read earlier.
fn look<M: Memory>(
    memory: &M,
    circle: Circle,
    task: Task,
    index: u16,
    previous: Cell,
) -> (Cell, Verdict)
    ensures cell { result.0 ≡ cell_at (M.cells memory.now) index }
    ensures verdict { result.1
        ≡ verdict_of M.Element.LIMITS circle.size task index previous (cell_at (M.cells memory.now) index) }
{
    let cell = read(memory, index);
    let sight = Sight {
        limits: M::Element::LIMITS,
        circle,
        index,
        previous,
        cell,
    };
    (cell, sight.judge(task))
}

// A seat is idle, or carries a call. Each case but the first is where the call stands: what its next step does, with all
// that it has to know for that.
#[derive(Clone, Copy)]
pub enum Seat {
    // Carries no call. A step of such a seat is refused before it comes here.
    Idle,
    // Reads the hint.
    Start(Call),
    // Reads the previous cell, at the index before this one. It is read first, and each cell that is read then is carried on as
    // the next previous one: in the other order the cell could be gone by the time that the previous one is read, and a line of
    // one number could be called full.
    First(Call, u16),
    // Reads the cell at this index, and goes by it and by the previous cell.
    Look(Call, u16, Cell),
    // Exchanges at this index the expected cell for the new one.
    Exchange(Call, u16, Cell, Cell),
    // Writes this index to the hint, and answers this outcome.
    Note(Call, u16, Outcome),
}

impl Seat {
    pub(crate) fn is_idle(&self) -> bool
        ensures { result ≡ is_idle self.now }
    {
        matches!(self, Seat::Idle)
    }

    // One step of the call that the seat carries: one access to a cell or to a hint. None: the call goes on. The cases are few
    // and closed, and each holds what its step needs: a table of functions would have to take that apart again.
    pub(crate) fn step<M: Memory>(
        &mut self,
        memory: &mut M,
        circle: Circle,
        hints: &mut Hints,
    ) -> Option<Answer>
        ensures after { record { cells = M.cells memory.new; hints = hints.new; seat = self.new; answer = result }
            ≡ step_seat M.Element.LIMITS circle.size (M.cells memory.old) hints.old self.old }
        ensures apart { M.frame memory.new ≡ M.frame memory.old }
    {
        *self = match *self {
            Seat::Idle => Seat::Idle,
            Seat::Start(call) => Seat::First(call.stepped(), hints.of(call.task)),
            Seat::First(call, index) => {
                Seat::Look(call.stepped(), index, read(memory, circle.before(index)))
            }
            Seat::Look(call, index, previous) => {
                let (cell, verdict) = look(memory, circle, call.task, index, previous);
                let call = call.stepped();
                match verdict {
                    Verdict::Exchange(expected, new) => Seat::Exchange(call, index, expected, new),
                    Verdict::Note(outcome) => Seat::Note(call, index, outcome),
                    Verdict::Answer(outcome) => return self.end(call, outcome),
                    Verdict::Onward => Seat::Look(call, circle.after(index), cell),
                }
            }
            Seat::Exchange(call, index, expected, new) => {
                let call = call.stepped();
                match memory.exchange(index as usize, expected, new) {
                    Ok(()) => Seat::Note(call, circle.after(index), call.task.outcome(expected)),
                    Err(_) => Seat::Start(call.missed()),
                }
            }
            Seat::Note(call, index, outcome) => {
                hints.write(call.task, index);
                return self.end(call.stepped(), outcome);
            }
        };
        None
    }

    // Answers the call, and leaves the seat idle.
    fn end(&mut self, call: Call, outcome: Outcome) -> Option<Answer>
        ensures idle { self.new ≡ Idle }
        ensures answer { result ≡ Some (record { outcome = outcome; counts = call.counts }) }
    {
        *self = Seat::Idle;
        Some(Answer {
            outcome,
            counts: call.counts,
        })
    }
}
