// The lines that are printed of a trace, each without its line end.
use crate::head::Kind;
use memory::refusals::Refusal;
use std::fmt;

// A line that is printed of a trace. It is no Result, since it is the answer either way, and it is what is printed.
#[derive(Clone, Copy, PartialEq, Eq, Debug)]
pub enum Line {
    // The first line: the number of cells and the make of the memory.
    Ring { size: usize, kind: Kind },
    // The line of a trace that is refused: the number and the place of the refusal. They are numbers, since
    // with a `Refusal` in their place fewer lines could be printed.
    Fault { number: u8, place: usize },
}

impl fmt::Display for Line {
    ghost use Rattle.std.specs.Prelude.{Some};
    ghost use Rattle.trace.specs.Lines.{text_of};

    ghost output = { λ line. Some (text_of line) };

    fn fmt<W: fmt::Write>(&self, f: &mut fmt::Formatter<W>) -> fmt::Result {
        match self {
            Line::Ring { size, kind } => write!(f, "ring {size} kind {kind}"),
            Line::Fault { number, place } => write!(f, "fault {number} {place}"),
        }
    }
}

// A trace that is refused has the line of its refusal.
impl From<Refusal> for Line {
    ghost use Rattle.std.specs.Prelude.{◌≡◌};
    ghost use Rattle.trace.specs.Lines.{line_of_refusal};

    ghost from_gives = { λ refusal line. line ≡ line_of_refusal refusal };

    fn from(refusal: Refusal) -> Line {
        Line::Fault {
            number: refusal.number(),
            place: refusal.place(),
        }
    }
}
