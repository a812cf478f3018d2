// Examples of a window's edges, of the constants that it passes on, and of what the lender of a memory knows afterwards.
ghost use Rattle.std.specs.Prelude.{◌≡◌, is_ok, if◌then◌else◌};
ghost use Rattle.memory.specs.Rules.{cleared};

use crate::window::Window;
use memory::cells::{Cell, Limits};
use memory::elements::Element;
use memory::refusals::Refusal;
use memory::rules::{Memory, clear_all};
use rows::row::{Records, Words};
use std::test::Fail;

#[test]
fn a_window_ends_where_it_is_aimed(rt: HostRuntime) {
    let old = Cell { value: 7, round: 7 };
    let mut row = [old; 4];
    let mut records = Records::over(&mut row);
    let mut window = Window::over(&mut records);
    assert_eq!(rt; window.size(), 4);
    assert_eq!(rt; window.aim(1, 0), Err(Refusal::WindowOutside));
    assert_eq!(rt; window.aim(3, 2), Err(Refusal::WindowOutside));
    assert_eq!(rt; window.aim(1, 3), Ok(()));
    let mut inner = Window::over(&mut window);
    assert_eq!(rt; inner.aim(0, 2), Ok(()));
    assert_eq!(rt; inner.look(2), None);
    inner.clear(1, usize::MAX);
    assert_eq!(rt; &row, &[old, old, Cell::FRESH, old]);
}

// What code that is generic in the memory sees of its constants.
fn constants<M: Memory>(_memory: &M) -> Limits
    ensures { result ≡ M.Element.LIMITS }
{
    M::Element::LIMITS
}

#[test]
fn a_window_passes_the_constants_on(rt: HostRuntime) {
    let mut row = [0u64; 2];
    let mut words = Words::over(&mut row);
    assert_eq!(rt; constants(&words), u64::LIMITS);
    let mut window = Window::over(&mut words);
    assert_eq!(rt; constants(&window), u64::LIMITS);
    assert_eq!(rt;
        constants(&Window::over(&mut window)),
        Limits {
            value: 281_474_976_710_655,
            round: 65_535,
        }
    );
}

// Whoever lends a memory to a window knows what it holds once the window has ended.
fn clear_part<M: Memory>(memory: &mut M, start: usize, count: usize) -> Result<(), Refusal>
    ensures cells { M.cells memory.new ≡ (if is_ok result then cleared (M.cells memory.old) start count else M.cells memory.old) }
    ensures apart { M.frame memory.new ≡ M.frame memory.old }
{
    let mut window = Window::over(memory);
    window.aim(start, count)?;
    clear_all(&mut window);
    Ok(())
}

#[test]
fn a_lender_knows_what_was_cleared(rt: HostRuntime) -> Result<(), Fail> {
    let mut row = [7u64; 4];
    clear_part(&mut Words::over(&mut row), 1, 1)?;
    assert_eq!(rt; &row, &[7, 0, 7, 7]);
    Ok(())
}
