// Dealings with a ring, as data.
ghost use Rattle.std.specs.Prelude.{◌≡◌, None};
ghost use Rattle.ring.specs.Dealings.{deal};
ghost use Rattle.ring.specs.Rings.{ring_of, after_method};

use crate::board::Board;
use crate::calls::Answer;
use memory::refusals::Refusal;
use memory::rules::Memory;

// One dealing with a ring that is made.
#[derive(Clone, Copy)]
pub enum Dealing {
    // A put of this value begins in a seat.
    BeginPut { seat: u8, value: u64 },
    // A take begins in a seat.
    BeginTake { seat: u8 },
    // One step of the call that a seat carries.
    Step { seat: u8 },
    // So many steps of the call that a seat carries, or fewer if it is answered.
    RunAlone { seat: u8, count: u16 },
}

// What an accepted dealing returns.
#[derive(Clone, Copy, PartialEq, Eq, Debug)]
pub enum Reply {
    // A call has begun.
    Begun,
    // The answer of the call; none where it goes on. An Option of an Option would not say which of the two is none.
    Stepped(Option<Answer>),
}

// A dealing and, once it was carried out, what came of it.
#[derive(Clone, Copy)]
pub struct Entry {
    pub dealing: Dealing,
    pub reply: Option<Result<Reply, Refusal>>,
}

impl Entry {
    // A dealing that is not carried out yet.
    pub fn new(dealing: Dealing) -> Entry
        ensures { result ≡ record { dealing = dealing; reply = None } }
    {
        Entry {
            dealing,
            reply: None,
        }
    }
}

impl Board {
    // Carries out one dealing. Dealings are data and a closed set, so a match says more than a table of functions.
    pub fn deal<M: Memory>(&mut self, memory: &mut M, dealing: Dealing) -> Result<Reply, Refusal>
        ensures after { after_method (M.cells memory.new) self.new result
            ≡ deal M.Element.LIMITS (ring_of (M.cells memory.old) self.old) dealing }
        ensures apart { M.frame memory.new ≡ M.frame memory.old }
    {
        match dealing {
            Dealing::BeginPut { seat, value } => {
                self.begin_put(memory, seat, value).map(|()| Reply::Begun)
            }
            Dealing::BeginTake { seat } => self.begin_take(memory, seat).map(|()| Reply::Begun),
            Dealing::Step { seat } => self.step(memory, seat).map(Reply::Stepped),
            Dealing::RunAlone { seat, count } => {
                self.run_alone(memory, seat, count).map(Reply::Stepped)
            }
        }
    }
}
