// Examples of an exchange, and of what the lender of a row knows afterwards.
ghost use Rattle.std.specs.Prelude.{◌≡◌};
ghost use Rattle.memory.specs.Packing.{word_cells};
ghost use Rattle.memory.specs.Rules.{cleared};

use crate::row::{Records, Words};
use memory::cells::Cell;
use memory::rules::{Declined, Memory};

#[test]
fn an_exchange_needs_a_cell_then_room_then_the_expected_cell(rt: HostRuntime) {
    let mut row = [0u64; 2];
    let mut words = Words::over(&mut row);
    let reading = Cell {
        value: 258,
        round: 3,
    };
    let too_large = Cell {
        value: 281_474_976_710_656,
        round: 0,
    };
    assert_eq!(rt;
        words.exchange(2, reading, too_large),
        Err(Declined::NoCell)
    );
    assert_eq!(rt; words.exchange(1, reading, too_large), Err(Declined::Unfit));
    assert_eq!(rt; words.exchange(1, reading, reading), Err(Declined::Differs));
    assert_eq!(rt; words.exchange(1, Cell::FRESH, reading), Ok(()));
    assert_eq!(rt; words.look(1), Some(reading));
    assert_eq!(rt; row[1], 0x0003_0000_0000_0102);
}

#[test]
fn records_hold_the_largest_numbers(rt: HostRuntime) {
    let mut row = [Cell::FRESH; 2];
    let mut records = Records::over(&mut row);
    let largest = Cell {
        value: u64::MAX,
        round: u32::MAX,
    };
    assert_eq!(rt; records.exchange(0, Cell::FRESH, largest), Ok(()));
    records.clear(1, usize::MAX);
    assert_eq!(rt; &row, &[largest, Cell::FRESH]);
}

// Whoever lends a row knows what it holds once the memory has ended.
fn clear_row(words: &mut [u64], start: usize, count: usize)
    ensures { word_cells words.new ≡ cleared (word_cells words.old) start count }
{
    let mut memory = Words::over(words);
    memory.clear(start, count);
}

// The same of records, which are the cells themselves.
#[tactic(auto, using(crate::proofs::Rows::records_are_cells))]
fn clear_records(records: &mut [Cell], start: usize, count: usize)
    ensures { records.new ≡ cleared records.old start count }
{
    let mut memory = Records::over(records);
    memory.clear(start, count);
}

#[test]
fn a_lender_of_records_knows_what_was_cleared(rt: HostRuntime) {
    let old = Cell { value: 7, round: 7 };
    let mut row = [old; 3];
    clear_records(&mut row, 1, 1);
    assert_eq!(rt; &row, &[old, Cell::FRESH, old]);
}

#[test]
fn a_lender_knows_what_was_cleared(rt: HostRuntime) {
    let mut row = [7u64; 4];
    clear_row(&mut row, 3, 9);
    assert_eq!(rt; &row, &[7, 7, 7, 0]);
}
