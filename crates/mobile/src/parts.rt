// What steps are made of: an attempt, a rejection, and a step that leaves the row as it is.
ghost use Rattle.std.specs.Prelude.{◌≡◌, [], ◌∷◌};
ghost use Rattle.messages.specs.Posts.{posts};
ghost use Rattle.mobile.specs.Rows.{open_to};
ghost use Rattle.mobile.specs.Steps.{MobileDid, rejected, attempts};

use super::row::{
    Attempt, Mobile, MobileMoment, MobileOutcome, MobileStep, Rejection, State, TalkRequest, Uplink,
};
use messages::{Message, Outbox, Post, Step};
use schemes::RankScheme;
use timing::Time;

// A step that says nothing.
pub(super) fn quiet(outcome: MobileOutcome) -> MobileStep
    ensures { (result.outcome ≡ outcome) × (posts result.outbox ≡ []) }
{
    Step {
        outcome,
        outbox: Outbox::new(),
    }
}

// A step that says one message.
pub(super) fn saying(outcome: MobileOutcome, post: Post) -> MobileStep
    ensures { (result.outcome ≡ outcome) × (posts result.outbox ≡ post ∷ []) }
{
    Step {
        outcome,
        outbox: Outbox::one(post),
    }
}

impl Mobile {
    // Whether the uplink is open to a rank, for what the mobile knows of it.
    pub fn open_to<S: RankScheme>(&self, rank: u8, time: Time, scheme: &S) -> bool
        ensures { result ≡ open_to (S.RankScheme.above scheme.now) rank time.ms self.now.uplink }
    {
        match self.uplink {
            Uplink::Unknown => false,
            Uplink::Free { since } => time.ms().saturating_sub(since) < 480,
            Uplink::Busy { rank: talker } => scheme.is_above(rank, talker),
        }
    }

    pub(super) fn reject(&mut self, why: Rejection) -> MobileStep
        ensures { MobileDid (rejected why self.old) self.new result }
    {
        self.state = State::Listens;
        quiet(MobileOutcome::Rejected(why))
    }

    pub(super) fn attempt(
        &mut self,
        attempt: Attempt,
        request: TalkRequest,
        at: MobileMoment,
    ) -> MobileStep
        ensures { MobileDid (attempts attempt request.reference request.rank at.time.ms at.timers self.old) self.new result }
    {
        let TalkRequest { reference, rank } = request;
        self.state = State::Asks {
            attempt,
            reference,
            rank,
            deadline: at.time.ms() + at.timers.t3130.ms(),
        };
        saying(
            MobileOutcome::Attempt(attempt),
            Post::Air(Message::access(self.station, reference, rank)),
        )
    }
}
