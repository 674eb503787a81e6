// Parts of a station's steps: what is read from its row, and what a step says.
ghost use Rattle.std.specs.Prelude.{◌≡◌, true, false, [], ◌∷◌, ◌++◌, MatchResult};
ghost use Rattle.messages.specs.Posts.{posts};
ghost use Rattle.station.specs.Stations.{leaving, pending_is, sound_clock};
ghost use Rattle.station.specs.declared.row.StationOutcome.TheVariants.{Ignored, Acted};
ghost use Rattle.station.specs.declared.row.StationRefusal.TheVariants.{BrokenClock};

use super::clock::Clock;
use super::row::{Phase, Station, StationOutcome, StationRefusal, StationStep};
use messages::{Message, Outbox, Post, Step};
use timing::Period;

// A step that met no rule.
pub(crate) fn ignored() -> StationStep
    ensures { (posts result.outbox ≡ []) × (result.outcome ≡ Ignored) }
{
    Step {
        outcome: StationOutcome::Ignored,
        outbox: Outbox::new(),
    }
}

// A step that says this.
pub(crate) fn acted(outbox: Outbox) -> StationStep
    ensures { (result.outbox ≡ outbox) × (result.outcome ≡ Acted) }
{
    Step {
        outcome: StationOutcome::Acted,
        outbox,
    }
}

impl Station {
    // Whether the clock is sound, or not looked at as in Shut.
    pub fn has_sound_clock(&self, period: Period) -> bool
        ensures { result ≡ sound_clock period.ms self.now.phase self.now.clock }
    {
        matches!(self.phase, Phase::Shut) || Clock::from_row(self.clock, period).is_some()
    }

    // The refusal of a step, where the clock is broken.
    pub(crate) fn check_clock(&self, period: Period) -> Result<(), StationRefusal>
        ensures { MatchResult result (λ _. sound_clock period.ms self.now.phase self.now.clock ≡ true) (λ refusal. (refusal ≡ BrokenClock) × (sound_clock period.ms self.now.phase self.now.clock ≡ false)) }
    {
        if self.has_sound_clock(period) {
            Ok(())
        } else {
            Err(StationRefusal::BrokenClock)
        }
    }

    // Whether this pair is pending.
    pub(crate) fn is_pending(&self, reference: u16, rank: u8) -> bool
        ensures { result ≡ pending_is self.now.pending reference rank }
    {
        self.pending
            .is_some_and(|pair| pair.reference == reference && pair.rank == rank)
    }

    // A post, after the RELEASE that leaving Granted or Held says. Both are put in at once: where RELEASE alone was given and the post pushed
    // after it, hearing SEIZED took twice the time.
    pub(crate) fn leaving_then(&self, number: u8, post: Post) -> Outbox
        ensures { posts result ≡ leaving number self.now.phase self.now.top ++ post ∷ [] }
    {
        match self.phase {
            Phase::Granted { .. } | Phase::Held { .. } => Outbox::two(
                Post::Air(Message::release(number, self.top)),
                post,
            ),
            _ => Outbox::one(post),
        }
    }

    // The same with two posts.
    pub(crate) fn leaving_then_two(&self, number: u8, first: Post, second: Post) -> Outbox
        ensures { posts result ≡ leaving number self.now.phase self.now.top ++ first ∷ second ∷ [] }
    {
        match self.phase {
            Phase::Granted { .. } | Phase::Held { .. } => Outbox::three(
                Post::Air(Message::release(number, self.top)),
                first,
                second,
            ),
            _ => Outbox::two(first, second),
        }
    }
}
