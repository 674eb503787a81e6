// Carriers: what messages are said to and heard from. The trait with its laws, the Queue, and the Fade over any carrier.
#![tactic(auto)]

mod carrier;
mod fade;
mod queue;

pub use carrier::Carrier;
pub use fade::Fade;
pub use queue::Queue;
