// A message that an Ether keeps, with who has heard it.
ghost use Rattle.std.specs.Prelude.{◌≡◌};
ghost use Rattle.ether.specs.Ethers.{fresh, unheard, marked};

use super::listener::Listener;
use messages::Message;

#[derive(Clone, Copy)]
pub struct Slot {
    pub message: Message,
    // by listener, 0 to 208
    pub heard: [bool; 209],
}

impl Slot {
    // A message that nobody has heard yet.
    pub(crate) fn fresh(message: Message) -> Slot
        ensures { result ≡ fresh message }
    {
        Slot {
            message,
            heard: [false; 209],
        }
    }

    // Whether it has the address, and the listener has not heard it.
    pub(crate) fn is_unheard(&self, address: u16, listener: Listener) -> bool
        ensures { result ≡ unheard address listener.number self.now }
    {
        self.message.address == address && !self.heard[listener.number as usize]
    }

    // The listener has heard it.
    pub(crate) fn mark(&mut self, listener: Listener)
        ensures { self.new ≡ marked listener.number self.old }
    {
        self.heard[listener.number as usize] = true;
    }
}
