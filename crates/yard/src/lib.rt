// An example of a host: a yard that owns its tables and has two carriers of its own.
#![tactic(auto)]

mod line;
mod yard;

pub use line::Line;
pub use yard::Yard;
