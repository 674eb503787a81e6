// The Ether, the carrier of the air.
#![tactic(auto)]

mod ether;
mod listener;
mod slot;

pub use ether::Ether;
