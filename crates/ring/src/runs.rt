// Whole runs of a ring: the methods that bear the law of whole runs.
ghost use Rattle.std.specs.Prelude.{◌≡◌, length, Ok, IsTrue};
ghost use Rattle.memory.specs.Sizes.{is_ring_size};
ghost use Rattle.ring.specs.Dealings.{ring_after, logged, dealings_of, carried_out, log_after};
ghost use Rattle.ring.specs.Law.{RunsLawfully, LawfulThroughout, ToldLawfully};
ghost use Rattle.ring.specs.Rings.{ring_of, new_ring, after_method, make_ring};

use crate::board::Board;
use crate::dealings::Entry;
use memory::refusals::Refusal;
use memory::rules::{Memory, clear_all};
use memory::sizes::is_ring_size;

impl Board {
    // Clears all of a memory and fills the board, for a ring on which all dealings to come are lawful.
    #[tactic(auto, using(memory::proofs::Overwriting::overwritten_whole, crate::proofs::Theorem::sized_runs_lawfully))]
    fn fill<M: Memory>(&mut self, memory: &mut M)
        requires { IsTrue (is_ring_size (length (M.cells memory.old))) }
        ensures after { ring_of (M.cells memory.new) self.new
            ≡ new_ring (length (M.cells memory.old)) }
        ensures law { RunsLawfully (length (M.cells memory.old)) M.Element.LIMITS (ring_of (M.cells memory.new) self.new) }
        ensures apart { M.frame memory.new ≡ M.frame memory.old }
    {
        let size = clear_all(memory);
        *self = Board::with_size(size as u16);
    }

    // Makes a ring of all of a memory: clears the memory and fills the board. All dealings to come with this board and this memory,
    // if nothing else changes them, are lawful.
    pub fn make<M: Memory>(&mut self, memory: &mut M) -> Result<(), Refusal>
        ensures after { after_method (M.cells memory.new) self.new result
            ≡ make_ring (ring_of (M.cells memory.old) self.old) }
        ensures law { result ≡ Ok tt
            → RunsLawfully (length (M.cells memory.old)) M.Element.LIMITS (ring_of (M.cells memory.new) self.new) }
        ensures apart { M.frame memory.new ≡ M.frame memory.old }
    {
        if !is_ring_size(memory.size()) {
            return Err(Refusal::RingSize);
        }
        self.fill(memory);
        Ok(())
    }

    // Carries out every dealing of a log, and writes beside it what came of it.
    #[tactic(auto, using(crate::proofs::Logs::log_steps))]
    fn deal_each<M: Memory>(&mut self, memory: &mut M, log: &mut [Entry])
        ensures ring { ring_of (M.cells memory.new) self.new
            ≡ ring_after M.Element.LIMITS (ring_of (M.cells memory.old) self.old) (dealings_of log.old) }
        ensures replies { log.new
            ≡ logged M.Element.LIMITS (ring_of (M.cells memory.old) self.old) log.old }
        ensures apart { M.frame memory.new ≡ M.frame memory.old }
    {
        for entry in log.iter_mut() {
            entry.reply = Some(self.deal(memory, entry.dealing));
        }
    }

    // Makes a ring of all of a memory and carries out every dealing of a log with it, each meeting the ring as the one before
    // left it. What comes of a dealing, refused ones included, is written beside it. The whole run is lawful, and so
    // is what the log tells of it.
    #[tactic(auto, using(crate::proofs::Logs::told_lawfully))]
    pub fn carry_out<M: Memory>(&mut self, memory: &mut M, log: &mut [Entry]) -> Result<(), Refusal>
        ensures after { after_method (M.cells memory.new) self.new result
            ≡ carried_out M.Element.LIMITS (ring_of (M.cells memory.old) self.old) log.old }
        ensures replies { log.new
            ≡ log_after M.Element.LIMITS (ring_of (M.cells memory.old) self.old) log.old }
        ensures law { result ≡ Ok tt
            → LawfulThroughout (length (M.cells memory.old)) M.Element.LIMITS
            (new_ring (length (M.cells memory.old))) (dealings_of log.old) }
        ensures told { result ≡ Ok tt
            → ToldLawfully (length (M.cells memory.old)) M.Element.LIMITS
            (new_ring (length (M.cells memory.old))) log.new }
        ensures apart { M.frame memory.new ≡ M.frame memory.old }
    {
        self.make(memory)?;
        self.deal_each(memory, log);
        Ok(())
    }
}
