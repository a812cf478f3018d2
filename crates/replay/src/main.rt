// Replays a trace from standard input: judges its head, makes the memory that it asks for, and prints the first line.
#![tactic(auto)]

ghost use Rattle.std.specs.Prelude.{◌≡◌, IfOk, Err, MatchResult};
ghost use Rattle.replay.specs.declared.Stop.TheVariants.{Refused, OutOfMemory};
ghost use Rattle.replay.specs.Stops.{RefusedWith};
ghost use Rattle.trace.specs.Heads.{head_of};
ghost use Rattle.trace.specs.Lines.{text_of, line_of_trace, opening_line};

use memory::cells::Cell;
use memory::elements::Element;
use memory::refusals::Refusal;
use memory::rules::clear_all;
use memory::sizes::Size;
use page::check::length_of;
use page::layout::lay_out;
use page::page::Page;
use rows::row::Row;
use std::alloc::{AllocError, Global};
use std::io::{self, Read};
use trace::head::{Head, Kind, MAX_LENGTH, read_head};
use trace::lines::Line;

// Why a trace is not replayed.
#[derive(Drop)]
enum Stop {
    Refused(Refusal),
    OutOfMemory(AllocError),
}

// Both conversions are written out, since the contracts below read which error each gives.
impl From<Refusal> for Stop {
    ghost from_gives = { λ refusal stop. stop ≡ Refused refusal };

    fn from(refusal: Refusal) -> Stop {
        Stop::Refused(refusal)
    }
}

impl From<AllocError> for Stop {
    ghost from_gives = { λ error stop. stop ≡ OutOfMemory error };

    fn from(error: AllocError) -> Stop {
        Stop::OutOfMemory(error)
    }
}

// Makes a row of so many cells in one form, cleared, and answers its number of cells.
fn make_row<E: Element>(heap: Global, size: Size) -> Result<usize, AllocError>
    ensures { IfOk result (λ n. n ≡ size) }
{
    let mut elements = vec![in heap; E::CLEAR; size.cells()]?;
    Ok(clear_all(&mut Row::over(elements.as_mut_slice())))
}

// Makes a page of so many cells, cleared, and answers its number of cells. Only want of memory stops it.
fn make_page(heap: Global, size: Size) -> Result<usize, Stop>
    ensures { MatchResult result (λ n. n ≡ size) (RefusedWith (λ _. ⊥)) }
{
    let mut bytes = vec![in heap; 0u8; length_of(size)]?;
    let page = bytes.as_mut_slice();
    lay_out(page, size.cells())?;
    Ok(clear_all(&mut Page::over(page)))
}

// Makes the memory that a head asks for, cleared, and answers its number of cells. Only want of memory stops it. The kinds are
// a closed set of numbers in a head, so a match says more than a table of functions.
fn make_memory(heap: Global, head: &Head) -> Result<usize, Stop>
    ensures { MatchResult result (λ n. n ≡ head.now.size) (RefusedWith (λ _. ⊥)) }
{
    match head.kind {
        Kind::Records => Ok(make_row::<Cell>(heap, head.size)?),
        Kind::Words => Ok(make_row::<u64>(heap, head.size)?),
        Kind::Page => make_page(heap, head.size),
    }
}

// The first line of a trace, or why it has none.
fn opening(heap: Global, trace: &[u8]) -> Result<Line, Stop>
    ensures { MatchResult result (λ line. line ≡ line_of_trace trace.now) (RefusedWith (λ e. head_of trace.now ≡ Err e)) }
{
    let head = read_head(trace)?;
    let size = make_memory(heap, &head)?;
    Ok(Line::Ring {
        size,
        kind: head.kind,
    })
}

// The line that is printed for a trace.
fn printed(heap: Global, trace: &[u8]) -> Result<Line, AllocError>
    ensures line { IfOk result (λ line. line ≡ line_of_trace trace.now) }
    ensures text { IfOk result (λ line. text_of line ≡ opening_line trace.now) }
{
    match opening(heap, trace) {
        Ok(line) => Ok(line),
        Err(Stop::Refused(refusal)) => Ok(Line::from(refusal)),
        Err(Stop::OutOfMemory(error)) => Err(error),
    }
}

fn main(rt: HostRuntime) -> io::Result<()> {
    let heap = rt.alloc();
    let mut trace = Vec::new(heap);
    // one byte more than a trace can have is enough to see that it is too long
    rt.stdin()
        .take(MAX_LENGTH as u64 + 1)
        .read_to_end(&mut trace)?;
    let line = printed(heap, trace.as_slice())?;
    println!(rt; "{line}")
}
