// Times, periods and timers within their limits, in whole milliseconds.
#![tactic(auto)]

mod millis;

pub use millis::{Millis, Period, Time, Timer};
