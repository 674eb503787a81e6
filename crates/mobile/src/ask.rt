// What the user of a mobile asks for: a talk, and the end of it.
ghost use Rattle.std.specs.Prelude.{◌≡◌, true, false, MatchResult};
ghost use Rattle.mobile.specs.Steps.{MobileDid, mobile_listens, mobile_talks, asked, finished, starts, waits};

use super::parts::{quiet, saying};
use super::row::{
    Attempt, Mobile, MobileMoment, MobileOutcome, MobileRefusal, MobileStep, State, TalkRequest,
};
use messages::{Message, Post};
use schemes::RankScheme;

impl Mobile {
    // Starts the first attempt where the uplink is open, and else waits for it. Refused unless the mobile listens.
    pub fn ask<S: RankScheme>(
        &mut self,
        request: TalkRequest,
        at: MobileMoment,
        scheme: &S,
    ) -> Result<MobileStep, MobileRefusal>
        ensures row { self.new ≡ (asked (S.RankScheme.above scheme.now) request.reference request.rank at.time.ms at.timers self.old).row }
        ensures answer { MatchResult result (λ step. (mobile_listens self.old ≡ true) × MobileDid (asked (S.RankScheme.above scheme.now) request.reference request.rank at.time.ms at.timers self.old) self.new step) (λ why. (mobile_listens self.old ≡ false) × (self.new ≡ self.old) × (why ≡ MobileRefusal.NotListening)) }
    {
        match self.state {
            State::Listens => Ok(self.start(request, at, scheme)),
            State::Waits { .. } | State::Asks { .. } | State::Links { .. } | State::Talks { .. } =>
                { Err(MobileRefusal::NotListening) }
        }
    }

    fn start<S: RankScheme>(
        &mut self,
        request: TalkRequest,
        at: MobileMoment,
        scheme: &S,
    ) -> MobileStep
        ensures { MobileDid (starts (S.RankScheme.above scheme.now) request.reference request.rank at.time.ms at.timers self.old) self.new result }
    {
        if self.open_to(request.rank, at.time, scheme) {
            self.attempt(Attempt::First, request, at)
        } else {
            self.wait(request, at)
        }
    }

    fn wait(&mut self, request: TalkRequest, at: MobileMoment) -> MobileStep
        ensures { MobileDid (waits request.reference request.rank at.time.ms at.timers self.old) self.new result }
    {
        let TalkRequest { reference, rank } = request;
        self.state = State::Waits {
            reference,
            rank,
            deadline: at.time.ms() + at.timers.t3128.ms(),
        };
        quiet(MobileOutcome::Waits)
    }

    // Ends the talk, and says END with its grant. Refused unless the mobile talks.
    pub fn finish(&mut self) -> Result<MobileStep, MobileRefusal>
        ensures row { self.new ≡ (finished self.old).row }
        ensures answer { MatchResult result (λ step. (mobile_talks self.old ≡ true) × MobileDid (finished self.old) self.new step) (λ why. (mobile_talks self.old ≡ false) × (self.new ≡ self.old) × (why ≡ MobileRefusal.NotTalking)) }
    {
        match self.state {
            State::Talks { grant } => {
                self.state = State::Listens;
                Ok(saying(
                    MobileOutcome::TalkEnded(grant),
                    Post::Air(Message::end(self.station, grant)),
                ))
            }
            State::Listens | State::Waits { .. } | State::Asks { .. } | State::Links { .. } => {
                Err(MobileRefusal::NotTalking)
            }
        }
    }
}
