// Making a clock from a row, restarting it, and its step when it is read.
ghost use Rattle.std.specs.Prelude.{◌≡◌, ◌+◌, ◌-◌, ◌%◌, ◌<◌, true, false, MatchOption, nat_le};
ghost use Rattle.station.specs.Clocks.{sound, next_due, per_day, due_after_reading, FirstAfter};

use super::{Clock, ClockRow};
use timing::{Period, Time};

impl Clock {
    // The clock of a row; none where the row's due time is not a whole number of periods, at least one, after its start.
    // A period is needed besides the row, so this is no TryFrom.
    pub fn from_row(row: ClockRow, period: Period) -> Option<Clock>
        ensures { MatchOption result (sound row.start period.ms row.due ≡ false) (λ c. (c.start ≡ row.start) × (c.due ≡ row.due) × (c.period ≡ period)) }
    {
        let start = row.start;
        let due = row.due;
        if due <= start || (due - start) % period.ms() != 0 {
            return None;
        }
        Some(Clock { start, due, period })
    }

    // When the next notice is due.
    pub fn due(&self) -> u64
        ensures { result ≡ self.now.due }
    {
        self.due
    }

    // How many notices a day has.
    pub fn per_day(&self) -> u64
        ensures { result ≡ per_day self.now.period.ms }
    {
        86_400_000 / self.period.ms()
    }

    // How far the due time is from the grid: 0, for every clock there is.
    pub fn distance(&self) -> u64
        ensures { result ≡ 0 }
    {
        (self.due - self.start) % self.period.ms()
    }

    // A clock that starts at `time`, with its first notice due one period later.
    pub fn started(time: Time, period: Period) -> Clock
        ensures { (result.start ≡ time.ms) × (result.due ≡ time.ms + period.ms) × (result.period ≡ period) }
    {
        Clock {
            start: time.ms(),
            due: time.ms() + period.ms(),
            period,
        }
    }

    // Reads the clock: whether a notice is due. If so, the next one is due at the first time of the grid after `time`.
    pub fn read(&mut self, time: Time) -> bool
        ensures due { result ≡ nat_le self.old.due time.ms }
        ensures next { self.new.due ≡ due_after_reading self.old.start self.old.period.ms self.old.due time.ms }
        ensures first { result ≡ true → FirstAfter self.old.start self.old.period.ms time.ms self.new.due }
        ensures kept { (self.new.start ≡ self.old.start) × (self.new.period ≡ self.old.period) }
    {
        if time.ms() < self.due {
            return false;
        }
        self.due = self.due_after(time);
        true
    }

    // The first time of the grid after `time`.
    #[tactic(auto, using(crate::proofs::Clocks::next_on_grid))]
    fn due_after(&self, time: Time) -> u64
        requires { self.now.start < time.ms }
        ensures is { result ≡ next_due self.now.start self.now.period.ms time.ms }
        ensures later { self.now.start < result }
        ensures grid { (result - self.now.start) % self.now.period.ms ≡ 0 }
    {
        let ms = time.ms();
        ms + (self.period.ms() - (ms - self.start) % self.period.ms())
    }
}

// A clock's numbers, to be put back into its row.
impl From<Clock> for ClockRow {
    ghost from_gives = { λ clock row. (row.start ≡ clock.start) × (row.due ≡ clock.due) };

    fn from(clock: Clock) -> ClockRow {
        ClockRow {
            start: clock.start,
            due: clock.due,
        }
    }
}
