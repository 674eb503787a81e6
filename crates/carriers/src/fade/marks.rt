// The Fade's steps.
ghost use Rattle.std.specs.Prelude.{◌≡◌, slice_index};
ghost use Rattle.carriers.specs.Fades.{FadeSays, FadeHears};
ghost use Rattle.carriers.specs.FadesLemmas.{mark_kept, mark_lost};

use super::super::carrier::Carrier;
use super::Fade;
use super::mark::Mark;
use messages::Message;

impl<C: Carrier> Fade<C> {
    pub fn new(under: C, marks: [u8; 64]) -> Fade<C>
        ensures { (result.under ≡ under) × (result.marks ≡ marks) × (result.next ≡ 0) }
    {
        Fade {
            under,
            marks,
            next: 0,
        }
    }
}

impl<C: Carrier> Carrier for Fade<C> {
    ghost pending = { λ f. C.Carrier.pending f.under };

    ghost says = { λ f m kept d. FadeSays C.Carrier.says f.under f.marks f.next m kept d.under d.marks d.next };

    ghost hears = { λ f a l o d. FadeHears C.Carrier.hears f.under f.marks f.next a l o d.under d.marks d.next };

    ghost kept = { λ c m d h.
        mark_kept C.Carrier.pending C.Carrier.says C.Carrier.kept C.Carrier.lost (slice_index c.marks c.next) c.under m d.under h.0 };

    ghost lost = { λ c m d h.
        mark_lost C.Carrier.pending C.Carrier.says C.Carrier.kept C.Carrier.lost (slice_index c.marks c.next) c.under m d.under h.0 };

    ghost heard = { λ c a l o d h. C.Carrier.heard c.under a l o d.under h.0 };

    fn say(&mut self, message: Message) -> bool {
        let mark = Mark::from(self.marks[self.next]);
        self.next = (self.next + 1) % 64;
        match mark {
            Mark::Loses => false,
            Mark::Repeats => {
                let first = self.under.say(message);
                let second = self.under.say(message);
                first || second
            }
            Mark::Passes => self.under.say(message),
        }
    }

    fn hear(&mut self, address: u16, listener: u16) -> Option<Message> {
        self.under.hear(address, listener)
    }

    fn quiet(&self) -> bool {
        self.under.quiet()
    }
}
