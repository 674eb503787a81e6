// The Script, a carrier for tests.
#![tactic(auto)]

mod script;

pub use script::Script;
