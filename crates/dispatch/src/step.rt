// What a step of the engine gives, and how it comes of a step of a mobile, a station or the anchor.
ghost use Rattle.std.specs.Prelude.{◌≡◌};
ghost use Rattle.call.specs.Effects.{mobile_outcome, station_outcome, anchor_outcome};
ghost use Rattle.messages.specs.Posts.{posts};

use anchor::{AnchorOutcome, AnchorStep};
use call::Outcome;
use messages::Outbox;
use mobile::{MobileOutcome, MobileStep};
use station::{StationOutcome, StationStep};

#[derive(Clone, Copy)]
pub(crate) struct Step {
    pub(crate) outcome: Outcome,
    // what the party says, in order
    pub(crate) outbox: Outbox,
}

impl From<MobileStep> for Step {
    ghost from_gives = { λ step made. (posts made.outbox ≡ posts step.outbox) × (made.outcome ≡ mobile_outcome step.outcome) };

    fn from(step: MobileStep) -> Step {
        let outcome = match step.outcome {
            MobileOutcome::Idle => Outcome::Idle,
            MobileOutcome::Ignored => Outcome::Ignored,
            MobileOutcome::Applied => Outcome::Applied,
            MobileOutcome::Waits => Outcome::Waits,
            MobileOutcome::Attempt(attempt) => Outcome::Attempt(attempt),
            MobileOutcome::TalkBegun(grant) => Outcome::TalkBegun(grant),
            MobileOutcome::Rejected(why) => Outcome::Rejected(why),
            MobileOutcome::TalkEnded(grant) => Outcome::TalkEnded(grant),
        };
        Step {
            outcome,
            outbox: step.outbox,
        }
    }
}

// The value is the station's top after the step, which the step alone does not say; so no From.
pub(crate) fn station_step(step: StationStep, top: u32) -> Step
    ensures { (posts result.outbox ≡ posts step.outbox) × (result.outcome ≡ station_outcome step.outcome top) }
{
    let outcome = match step.outcome {
        StationOutcome::Idle => Outcome::Idle,
        StationOutcome::Ignored => Outcome::Ignored,
        StationOutcome::Acted => Outcome::Acted(top),
    };
    Step {
        outcome,
        outbox: step.outbox,
    }
}

impl From<AnchorStep> for Step {
    ghost from_gives = { λ step made. (posts made.outbox ≡ posts step.outbox) × (made.outcome ≡ anchor_outcome step.outcome step.last) };

    fn from(step: AnchorStep) -> Step {
        let outcome = match step.outcome {
            AnchorOutcome::Ignored => Outcome::Ignored,
            AnchorOutcome::Acted => Outcome::Acted(step.last),
            AnchorOutcome::Full => Outcome::BookFull,
        };
        Step {
            outcome,
            outbox: step.outbox,
        }
    }
}
