// The outbox of one step: up to ten messages in order, each for the air or for the wire. It is a plain array with how many are used, since a
// step allocates nothing and is copied, which neither a Vec nor an ArrayVec is.
ghost use Rattle.std.specs.Prelude.{◌≡◌, ◌≤◌, length};

use super::message::Message;

mod posts;

#[derive(Clone, Copy)]
pub enum Post {
    Air(Message),
    Wire(Message),
}

#[derive(Clone, Copy)]
pub struct Outbox {
    places: [Post; 10],
    used: usize,
    ghost room: { length places ≡ 10 },
    ghost few: { used ≤ 10 },
}
