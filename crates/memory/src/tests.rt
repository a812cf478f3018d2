// Examples of cells, of the sizes of a ring, and of a tagged word.
use crate::cells::Cell;
use crate::elements::Element;
use crate::sizes::is_ring_size;

#[test]
fn cells_are_ordered_by_round_and_then_by_index(rt: HostRuntime) {
    let first = Cell { value: 0, round: 0 };
    let second = Cell { value: 0, round: 1 };
    assert!(rt; !second.is_before(0, first, 1));
    assert!(rt; first.is_before(1, second, 0));
    assert!(rt; first.is_before(0, first, 1));
    assert!(rt; !first.is_before(1, first, 1));
}

#[test]
fn a_ring_has_a_power_of_two_of_cells(rt: HostRuntime) {
    assert!(rt; is_ring_size(2) && is_ring_size(4096));
    assert!(rt; !is_ring_size(0) && !is_ring_size(1) && !is_ring_size(6) && !is_ring_size(8192));
}

#[test]
fn a_word_has_the_round_above_the_value(rt: HostRuntime) {
    let reading = Cell {
        value: 258,
        round: 3,
    };
    assert_eq!(rt; u64::holding(reading), Some(0x0003_0000_0000_0102));
    assert_eq!(rt; 0x0003_0000_0000_0102u64.cell(), reading);
    assert_eq!(rt;
        u64::holding(Cell {
            value: 0,
            round: 65_536,
        }),
        None
    );
}
