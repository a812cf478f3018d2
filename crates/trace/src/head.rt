// The head of a trace: the make of the memory and its number of cells.
ghost use Rattle.std.specs.Prelude.{◌≡◌, Some, decimal, ok_or};
ghost use Rattle.memory.specs.declared.refusals.Refusal.TheVariants.{TraceHead};
ghost use Rattle.memory.specs.Refusals.{unless};
ghost use Rattle.page.specs.Bytes.{field};
ghost use Rattle.trace.specs.Heads.{kind_number, kind_of, length_causes, head_with, head_of};

use memory::refusals::Refusal;
use memory::sizes::Size;
use std::fmt;

// The largest number of bytes of a trace.
pub const MAX_LENGTH: usize = 65_536;

// The make of a memory, and the number that stands for it in a trace.
#[derive(Clone, Copy, PartialEq, Eq, Debug)]
pub enum Kind {
    Records = 1,
    Words = 2,
    Page = 3,
}

impl From<Kind> for u8 {
    ghost from_gives = { λ kind number. number ≡ kind_number kind };

    fn from(kind: Kind) -> u8 {
        kind as u8
    }
}

// A number that stands for no kind is a wrong field of the head.
impl TryFrom<u8> for Kind {
    type Error = Refusal;

    ghost try_from_gives = { λ number result. result ≡ ok_or (kind_of number) TraceHead };

    fn try_from(number: u8) -> Result<Kind, Refusal> {
        match number {
            1 => Ok(Kind::Records),
            2 => Ok(Kind::Words),
            3 => Ok(Kind::Page),
            _ => Err(Refusal::TraceHead),
        }
    }
}

// A kind is printed as its number.
impl fmt::Display for Kind {
    ghost output = { λ kind. Some (decimal (kind_number kind)) };

    fn fmt<W: fmt::Write>(&self, f: &mut fmt::Formatter<W>) -> fmt::Result {
        write!(f, "{}", u8::from(*self))
    }
}

// The memory that a trace asks for.
#[derive(Clone, Copy, PartialEq, Eq, Debug)]
pub struct Head {
    pub kind: Kind,
    // The number of cells; at most 256 in a head that was read.
    pub size: Size,
}

impl Head {
    // The head of these two fields: a number of a kind, and a size that is a power of two from 2 to 256.
    fn from_fields(kind: u8, size: u16) -> Result<Head, Refusal>
        ensures { result ≡ head_with kind size }
    {
        let kind = Kind::try_from(kind)?;
        let size = Size::new(size as usize)
            .filter(|size| size.cells() <= 256)
            .ok_or(Refusal::TraceHead)?;
        Ok(Head { kind, size })
    }
}

// The number of a kind and the size, as they stand in the head of a trace whose version and length are right. A type for the
// two would be taken apart at once.
fn memory_fields(bytes: &[u8]) -> Result<(u8, u16), Refusal>
    ensures { result ≡ unless (length_causes bytes.now) (field 5 1 bytes.now, field 6 2 bytes.now) }
{
    // each byte by its name: a pattern with a rest in its middle has no proof
    let [
        version,
        length_0,
        length_1,
        length_2,
        length_3,
        kind,
        size_0,
        size_1,
        ..
    ] = *bytes
    else {
        return Err(Refusal::TraceHead);
    };
    let length = u32::from_be_bytes([length_0, length_1, length_2, length_3]) as usize;
    if bytes.len() > MAX_LENGTH || version != 1 || length != bytes.len() {
        return Err(Refusal::TraceHead);
    }
    Ok((kind, u16::from_be_bytes([size_0, size_1])))
}

// The head of a trace, from the bytes of the whole trace.
pub fn read_head(bytes: &[u8]) -> Result<Head, Refusal>
    ensures { result ≡ head_of bytes.now }
{
    let (kind, size) = memory_fields(bytes)?;
    Head::from_fields(kind, size)
}
