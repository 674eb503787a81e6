// A session: a group call on a new Ether and a new Queue, where every answer is determined.
#![tactic(auto)]

mod error;
mod holding;
mod sessions;

pub use error::SessionError;
pub use holding::hold;
pub use sessions::{SessionPlan, play_session};
