// The row of a party by its number, from 1.
ghost use Rattle.std.specs.Prelude.{◌≡◌, ◌-◌, ◌≤◌, length, slice_index_or};

pub(crate) fn row<T: Copy>(rows: &[T], number: u64) -> T
    requires { (1 ≤ number) × (number ≤ length rows.now) }
    ensures { (d : T) → result ≡ slice_index_or rows.now (number - 1) d }
{
    rows[number as usize - 1]
}
