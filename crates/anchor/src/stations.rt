// How many stations there are: 1 to 8. A count, read as the `u8` that stations are numbered by, and so no number of milliseconds.
ghost use Rattle.std.specs.Prelude.{◌≤◌};

#[derive(Clone, Copy)]
pub struct Stations {
    count: u8,
    ghost least: { 1 ≤ count },
    ghost most: { count ≤ 8 },
}

mod reading;
