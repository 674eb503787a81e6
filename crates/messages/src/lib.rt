// The messages of a group call, their addresses, and the outbox: what a party says in one step.
#![tactic(auto)]

mod address;
mod message;
mod outbox;
mod step;

pub use address::{anchor_address, cell_address, mobile_listener, station_address};
pub use message::{AnchorKind, Cause, DownlinkKind, Kind, Message, StationKind, UplinkKind};
pub use outbox::{Outbox, Post};
pub use step::Step;
