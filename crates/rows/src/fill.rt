// Overwriting a part of a row.
ghost use Rattle.std.specs.Prelude.{◌≡◌};
ghost use Rattle.memory.specs.Lists.{overwritten};

use memory::parts::clipped;

// Overwrites the elements from `start` on, `count` of them; places past the end are skipped. The slice's own
// `fill` was tried: it asks that no clone can fail, which `Copy` does not tell the check of every type.
pub(crate) fn overwrite<T: Copy>(row: &mut [T], start: usize, count: usize, with: T)
    ensures { row.new ≡ overwritten with row.old start count }
{
    let part = clipped(start, count, row.len());
    for element in row[part.start..part.end].iter_mut() {
        *element = with;
    }
}
