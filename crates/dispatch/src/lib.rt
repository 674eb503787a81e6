// One call of a group call carried out on the whole: what is checked before it, what it hears, the step of its party, and what it says.
#![tactic(auto)]

mod checks;
mod deliver;
mod listen;
mod making;
mod rows;
mod step;
mod steps;
mod tables;

pub use making::make;
pub use tables::LentTables;
