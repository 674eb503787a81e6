// The types of a group call: its settings, its record, the calls of a list, and their answers.
#![tactic(auto)]

mod answer;
mod calls;
mod numbers;
mod opening;
mod record;
mod settings;
mod theorems;

pub use answer::{Answer, Outcome, Refusal};
pub use calls::Call;
pub use opening::{CallSetup, SettingNumbers, Subscriber};
pub use record::GroupCall;
pub use settings::Settings;
pub use theorems::guarantee_holds;
