// A cell in eight bytes.
ghost use Rattle.std.specs.Prelude.{replicate, refl};
ghost use Rattle.std.proofs.Common.{lit≤};
ghost use Rattle.memory.specs.Packing.{tagged};
ghost use Rattle.page.specs.Bytes.{cell_from, cell_bytes};

use memory::cells::{Cell, Limits};
use memory::elements::Element;
use memory::tagged::LIMITS;

// A cell in the eight bytes of its tagged word, high byte first. An array of bytes itself cannot be an element here: both it and
// the trait are of other crates.
#[derive(Clone, Copy)]
pub struct CellBytes {
    pub bytes: [u8; 8],
}

impl Element for CellBytes {
    const LIMITS: Limits = LIMITS;

    const CLEAR: CellBytes = CellBytes { bytes: [0; 8] };

    ghost LIMITS = { tagged };

    ghost CLEAR = { record { bytes = replicate 8 0 } };

    ghost cell_of = { λ e. cell_from e.bytes };

    ghost element_of = { λ c. record { bytes = cell_bytes c } };

    fn cell(self) -> Cell {
        u64::from_be_bytes(self.bytes).cell()
    }

    fn holding(cell: Cell) -> Option<CellBytes> {
        u64::holding(cell).map(|word| CellBytes {
            bytes: word.to_be_bytes(),
        })
    }

    ghost proper = { (lit≤ tt, lit≤ tt, lit≤ tt) };

    ghost cleared = { refl };
}
