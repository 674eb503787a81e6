// The Ether's steps.
ghost use Rattle.std.specs.Prelude.{◌≡◌, true, [], map, IfOk, MatchOption};
ghost use Rattle.std.specs.List.{position};
ghost use Rattle.std.proofs.Common.{sym, subst, rules};
ghost use Rattle.ether.specs.Ethers.{slots_of, message_in, with_newest, unheard, next_heard, after_hearing};
ghost use Rattle.carriers.specs.Firsts.{Nowhere, FirstAt};
ghost use Rattle.carriers.specs.Meaning.{Joined, Picked};
ghost use Rattle.ether.specs.EtherCarrierLemmas.{joined_newest, picked};

use super::super::listener::Listener;
use super::super::slot::Slot;
use super::Ether;
use carriers::Carrier;
use messages::Message;
use std::alloc::{AllocError, Global};
use std::collections::VecDeque;

impl Ether {
    // An ether to which nothing has been said, with room for all that it keeps.
    pub fn new(heap: Global) -> Result<Ether, AllocError>
        ensures { IfOk result (λ e. slots_of e ≡ []) }
    {
        Ok(Ether {
            slots: VecDeque::with_capacity(heap, 32)?,
        })
    }

    // The place of the oldest message with the address that the listener has not heard.
    fn place(&self, address: u16, listener: Listener) -> Option<usize>
        ensures { MatchOption result (Nowhere (unheard address listener.number) (slots_of self.now)) (λ i. FirstAt (unheard address listener.number) (slots_of self.now) i) }
    {
        let (older, newer) = self.slots.as_slices();
        if let Some(i) = find(older, address, listener) {
            return Some(i);
        }
        let i = find(newer, address, listener)?;
        Some(older.len() + i)
    }
}

// The place of the first slot with the address that the listener has not heard. Such a loop over each part takes about half the time of
// `position` over the deque.
fn find(slots: &[Slot], address: u16, listener: Listener) -> Option<usize>
    ensures { result ≡ position (unheard address listener.number) slots.now }
{
    for (i, slot) in slots.iter().enumerate() {
        if slot.is_unheard(address, listener) {
            return Some(i);
        }
    }
    None
}

impl Carrier for Ether {
    ghost pending = { λ e. map message_in (slots_of e) };

    ghost says = { λ e m kept d. (kept ≡ true) × (slots_of d ≡ with_newest m (slots_of e)) };

    ghost hears = { λ e a l o d. (o ≡ next_heard a l (slots_of e)) × (slots_of d ≡ after_hearing a l (slots_of e)) };

    ghost kept = { λ c m d h. subst (λ after. Joined m (map message_in (slots_of c)) (map message_in after)) (sym h.1) (joined_newest m (slots_of c)) };

    ghost lost = { Prim.search rules };

    ghost heard = { λ c a l o d h.
        subst (λ q. Picked a q (map message_in (slots_of c)) (map message_in (slots_of d))) (sym h.0)
        (subst (λ after. Picked a (next_heard a l (slots_of c)) (map message_in (slots_of c)) (map message_in after)) (sym h.1) (picked a l (slots_of c))) };

    fn say(&mut self, message: Message) -> bool {
        if self.slots.len() >= 32 {
            self.slots.pop_front();
        }
        self.slots.push_back_reserved(Slot::fresh(message));
        true
    }

    #[tactic(auto, using(crate::proofs::Hearing::heard_there, crate::proofs::Hearing::marked_there))]
    fn hear(&mut self, address: u16, listener: u16) -> Option<Message> {
        let listener = Listener::new(listener)?;
        let place = self.place(address, listener)?;
        let slot = &mut self.slots[place];
        slot.mark(listener);
        Some(slot.message)
    }

    fn quiet(&self) -> bool {
        self.slots.is_empty()
    }
}
