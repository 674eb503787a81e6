// The Ether, a carrier that keeps the last 32 messages said. A listener hears each message to its address once, oldest first.
ghost use Rattle.std.specs.Prelude.{◌≤◌};
ghost use Rattle.std.specs.VecDeque.{deque_len, deque_capacity};

use super::slot::Slot;
use std::collections::VecDeque;

mod listeners;

#[derive(Drop)]
pub struct Ether {
    // the oldest in front
    slots: VecDeque<Slot>,
    ghost few: { deque_len slots ≤ 32 },
    ghost room: { 32 ≤ deque_capacity slots },
}
