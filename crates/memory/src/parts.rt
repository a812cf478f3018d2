// A part of a list, by a start and a count.
ghost use Rattle.std.specs.Prelude.{◌≡◌, ◌+◌, min};

use std::ops::Range;

// The indices from `start` on, `count` of them, as far as they lie in a list of this length.
pub fn clipped(start: usize, count: usize, length: usize) -> Range<usize>
    ensures start { result.start ≡ min start length }
    ensures end { result.end ≡ min (result.start + count) length }
{
    let start = start.min(length);
    start..start.saturating_add(count).min(length)
}
