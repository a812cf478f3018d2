// Why a call is refused: one case for each cause, over all layers.
ghost use Rattle.std.specs.Prelude.{◌≡◌};
ghost use Rattle.memory.specs.Refusals.{number_of, place_of, layer_of};

// The part of the line whose rule a refused call breaks.
#[derive(Clone, Copy, PartialEq, Eq, Debug)]
pub enum Layer {
    // The ring and its seats.
    Ring,
    // The memories and windows on them.
    Memory,
    // The trace that is replayed.
    Trace,
}

// A refused call leaves all that it was given as it was. Where several causes apply, the one of the smallest number is returned.
#[derive(Clone, Copy, PartialEq, Eq, Debug)]
pub enum Refusal {
    // A ring over a memory whose size is no power of two from 2 to 4,096.
    RingSize,
    // A seat above 15.
    NoSeat { seat: u8 },
    // A memory of no cells, or one whose size is not the board's.
    OtherSize { seat: u8 },
    // A begin on a seat that carries a call.
    SeatBusy { seat: u8 },
    // A step or a run alone of a seat that carries none.
    SeatIdle { seat: u8 },
    // A value of 0, or one above the memory's largest.
    ValueOutside { seat: u8 },
    // A run alone of no steps, or of more than 8,192.
    CountOutside { seat: u8 },
    // A window of no cells, or one that ends past the memory below.
    WindowOutside,
    // Fewer bytes than the head of a page.
    PageTooShort,
    // A page whose version is not 1.
    PageVersion,
    // A page whose length field is not the number of bytes.
    PageLength,
    // A page whose size no ring has, whose length does not follow from its size, or whose byte 7 is not 0.
    PageSize,
    // A trace that is too short or too long, or that has a wrong field in its head.
    TraceHead,
}

impl Refusal {
    // The number that is printed for this cause. The cases have fields, so none can have its number as a discriminant.
    pub fn number(self) -> u8
        ensures { result ≡ number_of self }
    {
        match self {
            Refusal::RingSize => 1,
            Refusal::NoSeat { .. } => 2,
            Refusal::OtherSize { .. } => 3,
            Refusal::SeatBusy { .. } => 4,
            Refusal::SeatIdle { .. } => 5,
            Refusal::ValueOutside { .. } => 6,
            Refusal::CountOutside { .. } => 7,
            Refusal::WindowOutside => 9,
            Refusal::PageTooShort => 10,
            Refusal::PageVersion => 11,
            Refusal::PageLength => 12,
            Refusal::PageSize => 13,
            Refusal::TraceHead => 14,
        }
    }

    // Where the cause lies in what the call was given: the seat as given, an offset, or 0.
    pub fn place(self) -> usize
        ensures { result ≡ place_of self }
    {
        match self {
            Refusal::NoSeat { seat }
            | Refusal::OtherSize { seat }
            | Refusal::SeatBusy { seat }
            | Refusal::SeatIdle { seat }
            | Refusal::ValueOutside { seat }
            | Refusal::CountOutside { seat } => seat as usize,
            Refusal::PageLength => 1,
            Refusal::PageSize => 5,
            Refusal::RingSize
            | Refusal::WindowOutside
            | Refusal::PageTooShort
            | Refusal::PageVersion
            | Refusal::TraceHead => 0,
        }
    }

    // The layers are ranges of numbers, so a new cause has its layer by its number.
    pub fn layer(self) -> Layer
        ensures { result ≡ layer_of self }
    {
        match self.number() {
            0..=8 => Layer::Ring,
            9..=13 => Layer::Memory,
            _ => Layer::Trace,
        }
    }
}
