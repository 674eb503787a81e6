// The anchor: it hears the stations, keeps the grant book, and tells every station what stands.
#![tactic(auto)]

mod book;
mod confirm;
mod entry;
mod hearing;
mod indicate;
mod lawful;
mod request;
mod says;
mod stations;
mod step;

pub use entry::{End, Entry, Mark};
pub use hearing::{hear, is_free, release};
pub use lawful::laws_hold;
pub use stations::Stations;
pub use step::{AnchorOutcome, AnchorRefusal, AnchorStep};

#[cfg(test)]
mod tests;
