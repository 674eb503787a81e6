// What a step of a mobile or of a station gives.
use super::outbox::Outbox;

#[derive(Clone, Copy)]
pub struct Step<O> {
    pub outcome: O,
    // what it says, in order
    pub outbox: Outbox,
}
