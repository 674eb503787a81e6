// A mobile of the group call: its row, and its steps when its user asks or ends, when it hears a message and when its timer is read.
#![tactic(auto)]

mod ask;
mod hear;
mod last;
mod parts;
mod row;
#[cfg(test)]
mod tests;
mod timer;

pub use last::most_attempts;
pub use row::{
    Attempt, Mobile, MobileMoment, MobileOutcome, MobileRefusal, MobileStep, MobileTimers,
    Rejection, State, TalkRequest, Uplink,
};
