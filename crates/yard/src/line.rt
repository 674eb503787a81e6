// A line that holds one message. To be a carrier it gives its list of messages and its own steps, and owes the three laws.
ghost use Rattle.std.specs.Prelude.{◌≡◌, None};
ghost use Rattle.yard.specs.Lines.{held, nothing_waits, after_saying, heard_at, after_hearing};
ghost use Rattle.std.proofs.Common.{rules};

use carriers::Carrier;
use messages::Message;

#[derive(Clone, Copy)]
pub struct Line {
    waiting: Option<Message>,
}

impl Line {
    pub fn new() -> Line
        ensures { result.waiting ≡ None }
    {
        Line { waiting: None }
    }
}

impl Carrier for Line {
    ghost pending = { λ c. held c.waiting };

    ghost says = { λ c m kept d. (kept ≡ nothing_waits c.waiting) × (d.waiting ≡ after_saying m c.waiting) };

    ghost hears = { λ c a l o d. (o ≡ heard_at a c.waiting) × (d.waiting ≡ after_hearing a c.waiting) };

    ghost kept = { Prim.search rules };

    ghost lost = { Prim.search rules };

    ghost heard = { Prim.search rules };

    fn say(&mut self, message: Message) -> bool {
        if self.waiting.is_some() {
            return false;
        }
        self.waiting = Some(message);
        true
    }

    fn hear(&mut self, address: u16, _listener: u16) -> Option<Message> {
        let message = self.waiting.filter(|message| message.address == address)?;
        self.waiting = None;
        Some(message)
    }

    fn quiet(&self) -> bool {
        self.waiting.is_none()
    }
}
