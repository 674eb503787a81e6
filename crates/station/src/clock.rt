// The notice clock: a notice is due a whole number of periods after the last restart.
ghost use Rattle.std.specs.Prelude.{◌≡◌, ◌-◌, ◌%◌, ◌<◌};

use timing::Period;

mod notices;

// A clock as it stands in a station's row, sound or not.
#[derive(Clone, Copy, Default)]
pub struct ClockRow {
    // the time of the last restart
    pub start: u64,
    // when the next notice is due
    pub due: u64,
}

#[derive(Clone, Copy)]
pub struct Clock {
    start: u64,
    due: u64,
    period: Period,
    ghost later: { start < due },
    ghost grid: { (due - start) % period.ms ≡ 0 },
}
