// The Queue, a carrier that holds 64 messages and loses one said to it when it is full. Hear takes out the oldest with the address.
ghost use Rattle.std.specs.Prelude.{◌≤◌, vec_len, vec_capacity};

use messages::Message;

mod lane;

#[derive(Drop)]
pub struct Queue {
    waiting: Vec<Message>,
    ghost few: { vec_len waiting ≤ 64 },
    ghost room: { 64 ≤ vec_capacity waiting },
}
