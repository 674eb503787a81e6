// What a carrier is.
ghost use Rattle.std.specs.Prelude.{◌≡◌, ℕ, Bool, true, false, List, Option as Heard};
ghost use Rattle.messages.specs.declared.message.Message.{Message as Sent};
ghost use Rattle.carriers.specs.Meaning.{Joined, Picked, empty};

use messages::Message;

// A carrier means `pending`, the messages that may still be heard. `says` and `hears` are its own steps; the laws tie them to it.
pub trait Carrier {
    ghost pending: { Self → List Sent };

    // before, the message, whether it was kept, after
    ghost says: { Self → Sent → Bool → Self → Type 0 };

    // before, address, listener, the answer, after
    ghost hears: { Self → ℕ → ℕ → Heard Sent → Self → Type 0 };

    // Whether the message was kept.
    fn say(&mut self, message: Message) -> bool
        ensures { says self.old message result self.new };

    fn hear(&mut self, address: u16, listener: u16) -> Option<Message>
        ensures { hears self.old address listener result self.new };

    // Whether nothing may be heard any more.
    fn quiet(&self) -> bool
        ensures { result ≡ empty (pending self.now) };

    // A kept message is on the list, and everything else on it was there before.
    ghost kept: { (c : Self) (m : Sent) (d : Self) → says c m true d → Joined m (pending c) (pending d) };

    // After a lost message the list is as before.
    ghost lost: { (c : Self) (m : Sent) (d : Self) → says c m false d → pending d ≡ pending c };

    // What is heard was on the list with that address, and nothing on the list afterwards is new.
    ghost heard: { (c : Self) (a l : ℕ) (o : Heard Sent) (d : Self) → hears c a l o d → Picked a o (pending c) (pending d) };
}
