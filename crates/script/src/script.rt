// The Script, a carrier for tests: it keeps everything, and each hearing answers the message that its script picks, or none.
ghost use Rattle.std.specs.Prelude.{◌≡◌, [], vec_items};
ghost use Rattle.std.proofs.Common.{sym, subst, ap, rules};
ghost use Rattle.script.specs.Scripts.{with_said, picked, answered, next_pick};
ghost use Rattle.carriers.specs.Meaning.{Joined, Within, FromList};
ghost use Rattle.carriers.specs.Lists.{joined_push};
ghost use Rattle.script.specs.ScriptCarrierLemmas.{answered_from};

use carriers::Carrier;
use messages::Message;
use std::alloc::Global;

#[derive(Drop)]
pub struct Script {
    said: Vec<Message>,
    picks: Vec<usize>,
    // how many were taken; a number and no iterator, since the carrier's steps are stated by it
    next: usize,
}

impl Script {
    // Nothing said yet. Each hearing takes the next of the picks: the place, from 0, of a message among all that were said.
    pub fn new(heap: Global, picks: Vec<usize>) -> Script
        ensures { (result.said.items ≡ []) × (result.picks ≡ picks) × (result.next ≡ 0) }
    {
        Script {
            said: Vec::new(heap),
            picks,
            next: 0,
        }
    }

    // The message at a place, if it has the address.
    fn pick(&self, address: u16, place: usize) -> Option<Message>
        ensures { result ≡ picked address place self.now.said.items }
    {
        self.said
            .get(place)
            .copied()
            .filter(|message| message.address == address)
    }
}

impl Carrier for Script {
    ghost pending = { λ s. s.said.items };

    ghost says = { λ s m kept d. (d.said.items ≡ with_said m kept s.said.items) × (d.picks ≡ s.picks) × (d.next ≡ s.next) };

    ghost hears = { λ s a l o d. (o ≡ answered a s.picks.items s.next s.said.items) × (d.said ≡ s.said) × (d.picks ≡ s.picks) × (d.next ≡ next_pick s.picks.items s.next) };

    ghost kept = { λ c m d h. subst (Joined m c.said.items) (sym h.0) (joined_push c.said.items m) };

    ghost lost = { Prim.search rules };

    ghost heard = { λ c a l o d h.
        let said = c.said.items in
        record {
          from = subst (λ q. FromList a q said) (sym h.0) (answered_from a c.picks.items c.next said);
          only = subst (Within said) (sym (ap vec_items h.1)) (λ m o. o);
        } };

    // A message that finds no memory is lost.
    fn say(&mut self, message: Message) -> bool {
        self.said.push(message).is_ok()
    }

    fn hear(&mut self, address: u16, _listener: u16) -> Option<Message> {
        let place = *self.picks.get(self.next)?;
        self.next += 1;
        self.pick(address, place)
    }

    fn quiet(&self) -> bool {
        self.said.is_empty()
    }
}
