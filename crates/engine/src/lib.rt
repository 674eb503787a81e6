// What a host uses: the opening of a group call, its ten calls and lists of calls while it goes on, and the call that opens and plays.
#![tactic(auto)]

mod calls;
mod conducts;
mod enter;
mod list;
mod opening;

pub use calls::OngoingCall;
pub use conducts::conduct;
pub use opening::{check_opening, open};
