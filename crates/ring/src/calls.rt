// A call: a put or a take, from its begin to its answer.
ghost use Rattle.std.specs.Prelude.{◌≡◌};
ghost use Rattle.ring.specs.Looks.{outcome_of, beginning, one_step, one_failure};

use memory::cells::Cell;

// What a call is to do. Both are named: an Option of a value would not say that its lack is a take.
#[derive(Clone, Copy)]
pub enum Task {
    Put { value: u64 },
    Take,
}

impl Task {
    // How a call ends whose exchange of this cell is done. There are two tasks, so a match says more than a table.
    pub(crate) fn outcome(self, expected: Cell) -> Outcome
        ensures { result ≡ outcome_of self expected }
    {
        match self {
            Task::Put { .. } => Outcome::Placed,
            Task::Take => Outcome::Taken {
                value: expected.value,
            },
        }
    }
}

// How a call ends.
#[derive(Clone, Copy, PartialEq, Eq, Debug)]
pub enum Outcome {
    // The value of a put now waits.
    Placed,
    // 'none': no number waited for a take.
    Empty,
    // A put found every cell filled.
    Full,
    // The number that a take removed.
    Taken { value: u64 },
    // The rounds of the memory are used up.
    Worn,
}

// The steps of a call and its failed exchanges; both stop at 4,294,967,295.
#[derive(Clone, Copy, Default, PartialEq, Eq, Debug)]
pub struct Counts {
    pub steps: u32,
    pub failed: u32,
}

// A call that a seat carries: a put or a take that is begun and not answered.
#[derive(Clone, Copy)]
pub struct Call {
    pub task: Task,
    pub counts: Counts,
}

impl Call {
    // A call that has just begun.
    pub(crate) fn begin(task: Task) -> Call
        ensures { result ≡ beginning task }
    {
        Call {
            task,
            counts: Counts::default(),
        }
    }

    // The call with one step more.
    pub(crate) fn stepped(mut self) -> Call
        ensures { result ≡ one_step self }
    {
        self.counts.steps = self.counts.steps.saturating_add(1);
        self
    }

    // The call with one failed exchange more. It counts in another field than `stepped`: a function over a field is no plainer.
    pub(crate) fn missed(mut self) -> Call
        ensures { result ≡ one_failure self }
    {
        self.counts.failed = self.counts.failed.saturating_add(1);
        self
    }
}

// The end of a call, with what it took.
#[derive(Clone, Copy, PartialEq, Eq, Debug)]
pub struct Answer {
    pub outcome: Outcome,
    pub counts: Counts,
}
