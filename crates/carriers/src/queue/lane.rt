// The Queue's steps.
ghost use Rattle.std.specs.Prelude.{◌≡◌, [], IfOk, MatchOption};
ghost use Rattle.std.specs.List.{find};
ghost use Rattle.std.proofs.Common.{sym, subst, ◌∙◌, rules};
ghost use Rattle.carriers.specs.Firsts.{Nowhere, FirstAt};
ghost use Rattle.carriers.specs.Queues.{has_room, enqueued, goes_to, oldest, without_oldest};
ghost use Rattle.std.proofs.lemmas.Bool.{cond-true};
ghost use Rattle.carriers.specs.Meaning.{Joined, Within, FromList};
ghost use Rattle.carriers.specs.Lists.{joined_push, within_without_first, found_on};
ghost use Rattle.carriers.specs.QueueCarrierLemmas.{oldest_from};

use super::super::carrier::Carrier;
use super::Queue;
use messages::Message;
use std::alloc::{AllocError, Global};

impl Queue {
    // An empty queue, with room for all that it can hold.
    pub fn new(heap: Global) -> Result<Queue, AllocError>
        ensures { IfOk result (λ q. q.waiting.items ≡ []) }
    {
        Ok(Queue {
            waiting: Vec::with_capacity(heap, 64)?,
        })
    }
}

// The place of the oldest message with the address, if one waits.
fn place(waiting: &[Message], address: u16) -> Option<usize>
    ensures { MatchOption result (Nowhere (goes_to address) waiting.now) (λ i. FirstAt (goes_to address) waiting.now i) }
{
    waiting
        .iter()
        .position(|message| message.address == address)
}

impl Carrier for Queue {
    ghost pending = { λ q. q.waiting.items };

    ghost says = { λ q m kept d. (kept ≡ has_room q.waiting.items) × (d.waiting.items ≡ enqueued m q.waiting.items) };

    ghost hears = { λ q a l o d. (o ≡ oldest a q.waiting.items) × (d.waiting.items ≡ without_oldest a q.waiting.items) };

    ghost kept = { λ c m d h.
        let waiting = c.waiting.items in
        subst (Joined m waiting) (sym (h.1 ∙ cond-true (has_room waiting) _ _ (sym h.0))) (joined_push waiting m) };

    ghost lost = { Prim.search rules };

    ghost heard = { λ c a l o d h.
        let waiting = c.waiting.items in
        record {
          from = subst (λ q. FromList a q waiting) (sym h.0) (oldest_from a waiting (find (goes_to a) waiting) (found_on (λ m. m) (goes_to a) waiting));
          only = subst (Within waiting) (sym h.1) (within_without_first (goes_to a) waiting);
        } };

    fn say(&mut self, message: Message) -> bool {
        if self.waiting.len() >= 64 {
            return false;
        }
        self.waiting.push_reserved(message);
        true
    }

    fn hear(&mut self, address: u16, _listener: u16) -> Option<Message> {
        let place = place(&self.waiting, address)?;
        Some(self.waiting.remove(place))
    }

    fn quiet(&self) -> bool {
        self.waiting.is_empty()
    }
}
