// Rank schemes: how many ranks there are, and which is above which.
#![tactic(auto)]

mod priorities;
mod role;
mod role_book;
mod scheme;

pub use priorities::Priorities;
pub use role::Role;
pub use role_book::{BookFault, RoleBook};
pub use scheme::{RankScheme, longest_spell};
