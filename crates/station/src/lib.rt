// A base station: its notice clock, and its machine.
#![tactic(auto)]

mod air;
mod clock;
mod parts;
mod row;
mod theorems;
mod timer;
mod wire;

pub use clock::{Clock, ClockRow};
pub use row::{
    Pending, Phase, Station, StationMoment, StationOutcome, StationRefusal, StationStep,
    StationTimers,
};
pub use theorems::laws_hold;
