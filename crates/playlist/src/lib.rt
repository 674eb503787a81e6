// A playlist: a text whose lines are settings, roles, mobiles and calls, read into its records or its first fault.
#![tactic(auto)]

mod bytes;
mod checking;
mod collecting;
mod fault;
mod kind;
mod letters;
mod line;
mod line_fault;
mod numbers;
mod order;
mod parsed;
mod place;
mod read_error;
mod reader;
mod reading;
mod records;
mod standing;
mod theorems;

pub use checking::check;
pub use collecting::read;
pub use fault::Fault;
pub use line::Line;
pub use read_error::ReadError;
pub use reader::Reader;
pub use records::Playlist;
pub use theorems::{faults_are_first, renderings_read_back};
