// A number of milliseconds between two limits, both included. A value of this type is always in range.
ghost use Rattle.std.specs.Prelude.{◌≤◌};

#[derive(Clone, Copy)]
pub struct Millis<const LEAST: u64, const MOST: u64> {
    ms: u64,
    ghost least: { LEAST ≤ ms },
    ghost most: { ms ≤ MOST },
}

// A time of a call: 0 to 2^40.
pub type Time = Millis<0, 1_099_511_627_776>;

// The notice period: 20 to 400.
pub type Period = Millis<20, 400>;

// T3128, T3130 or the link time: 100 to 60,000.
pub type Timer = Millis<100, 60_000>;

mod reading;
