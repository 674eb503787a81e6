// A long run of one station's notices, each read of the clock a few milliseconds late.
#![tactic(auto)]

mod late;
mod run;

pub use late::Lateness;
pub use run::{Report, run_days};
