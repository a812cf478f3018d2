// Examples of a page: a cell in its bytes, the check after each kind of damage, and what a lender knows afterwards.
ghost use Rattle.std.specs.Prelude.{◌≡◌};
ghost use Rattle.memory.specs.Rules.{cleared};
ghost use Rattle.page.specs.Pages.{page_cells, rewritten};

use crate::check::check_page;
use crate::layout::lay_out;
use crate::page::Page;
use memory::cells::Cell;
use memory::refusals::Refusal;
use memory::rules::Memory;
use std::test::Fail;

#[test]
fn a_reading_stands_high_byte_first(rt: HostRuntime) -> Result<(), Fail> {
    let mut bytes = [9u8; 24];
    lay_out(&mut bytes, 2)?;
    assert_eq!(rt; &bytes[0..8], [1, 0, 0, 0, 24, 0, 2, 0].as_slice());
    let mut page = Page::over(&mut bytes);
    let reading = Cell {
        value: 258,
        round: 3,
    };
    assert_eq!(rt; page.exchange(1, Cell::FRESH, reading), Ok(()));
    assert_eq!(rt; page.look(1), Some(reading));
    assert_eq!(rt;
        &bytes[8..24],
        [0, 0, 0, 0, 0, 0, 0, 0, 0, 3, 0, 0, 0, 0, 1, 2].as_slice()
    );
    Ok(())
}

// What the check says of a page of two cells whose byte `at` is `byte`.
fn damaged(at: usize, byte: u8) -> Result<usize, Refusal> {
    let mut bytes = [0u8; 24];
    lay_out(&mut bytes, 2)?;
    if let Some(place) = bytes.get_mut(at) {
        *place = byte;
    }
    check_page(&bytes)
}

#[test]
fn each_damage_has_its_refusal(rt: HostRuntime) {
    assert_eq!(rt; damaged(23, 255), Ok(2));
    assert_eq!(rt; damaged(0, 2), Err(Refusal::PageVersion));
    assert_eq!(rt; damaged(3, 24), Err(Refusal::PageLength));
    assert_eq!(rt; damaged(6, 3), Err(Refusal::PageSize));
    assert_eq!(rt; damaged(6, 4), Err(Refusal::PageSize));
    assert_eq!(rt; damaged(7, 1), Err(Refusal::PageSize));
    assert_eq!(rt; check_page(&[1; 7]), Err(Refusal::PageTooShort));
}

#[test]
fn a_page_is_laid_out_only_at_its_own_length(rt: HostRuntime) {
    let mut bytes = [9u8; 24];
    assert_eq!(rt; lay_out(&mut bytes, 1), Err(Refusal::PageSize));
    assert_eq!(rt; lay_out(&mut bytes, 4), Err(Refusal::PageSize));
    assert_eq!(rt; lay_out(&mut bytes[0..7], 2), Err(Refusal::PageTooShort));
    assert_eq!(rt; &bytes, &[9; 24]);
    assert_eq!(rt; Page::over(&mut bytes).size(), 0);
}

// Whoever lends a page knows every byte of it once the memory has ended.
fn clear_cells(bytes: &mut [u8], start: usize, count: usize)
    ensures { bytes.new ≡ rewritten bytes.old (cleared (page_cells bytes.old) start count) }
{
    let _ = check_page(bytes);
    let mut page = Page::over(bytes);
    page.clear(start, count);
    let _ = check_page(bytes);
}

#[test]
fn a_lender_knows_every_byte(rt: HostRuntime) {
    let mut bytes = [
        1, 0, 0, 0, 24, 0, 2, 0, 0, 3, 0, 0, 0, 0, 1, 2, 0, 3, 0, 0, 0, 0, 1, 2,
    ];
    clear_cells(&mut bytes, 1, 1);
    assert_eq!(rt;
        &bytes,
        &[
            1, 0, 0, 0, 24, 0, 2, 0, 0, 3, 0, 0, 0, 0, 1, 2, 0, 0, 0, 0, 0, 0, 0, 0,
        ]
    );
    bytes[0] = 2;
    clear_cells(&mut bytes, 0, 2);
    assert_eq!(rt; bytes[15], 2);
}
