//! Moving the rows from a place on up by one, or down by one: loops, and not `copy_within`, which
//! makes the search before it slower (docs/DECISIONS.md).
ghost use Rattle.std.specs.Prelude.{◌≡◌, ◌+◌, ◌<◌, ◌≤◌, length};
ghost use Rattle.std.specs.List.{copy_within};

pub(crate) fn move_up<R: Copy>(rows: &mut [R], place: usize, count: usize)
    requires { (place ≤ count) × (count < length rows.old) }
    ensures { rows.new ≡ copy_within rows.old place count (place + 1) }
{
    for i in (place..count).rev() {
        rows[i + 1] = rows[i];
    }
}

pub(crate) fn move_down<R: Copy>(rows: &mut [R], place: usize, count: usize)
    requires { (place < count) × (count ≤ length rows.old) }
    ensures { rows.new ≡ copy_within rows.old (place + 1) count place }
{
    for i in place..count - 1 {
        rows[i] = rows[i + 1];
    }
}
