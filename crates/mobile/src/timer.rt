// A mobile's step when its timer is read. A deadline is reached at equality.
ghost use Rattle.std.specs.Prelude.{◌≡◌, nat_le};
ghost use Rattle.mobile.specs.Steps.{MobileDid, timed, again, unanswered};

use super::parts::quiet;
use super::row::{
    Attempt, Mobile, MobileMoment, MobileOutcome, MobileStep, Rejection, State, TalkRequest,
};
use schemes::RankScheme;
use timing::Time;

fn reached(deadline: u64, time: Time) -> bool
    ensures { result ≡ nat_le deadline time.ms }
{
    deadline <= time.ms()
}

impl Mobile {
    pub fn timer<S: RankScheme>(&mut self, at: MobileMoment, scheme: &S) -> MobileStep
        ensures { MobileDid (timed (S.RankScheme.above scheme.now) at.time.ms at.timers self.old) self.new result }
    {
        match self.state {
            State::Waits { deadline, .. } if reached(deadline, at.time) => {
                self.reject(Rejection::WaitExpired)
            }
            State::Asks {
                attempt,
                reference,
                rank,
                deadline,
            } if reached(deadline, at.time) => {
                self.unanswered(attempt, TalkRequest { reference, rank }, at, scheme)
            }
            State::Links { deadline, .. } if reached(deadline, at.time) => {
                self.reject(Rejection::LinkFailed)
            }
            State::Listens
            | State::Waits { .. }
            | State::Asks { .. }
            | State::Links { .. }
            | State::Talks { .. } => quiet(MobileOutcome::Idle),
        }
    }

    // No answer came to an attempt.
    fn unanswered<S: RankScheme>(
        &mut self,
        attempt: Attempt,
        request: TalkRequest,
        at: MobileMoment,
        scheme: &S,
    ) -> MobileStep
        ensures { MobileDid (unanswered attempt (S.RankScheme.above scheme.now) request.reference request.rank at.time.ms at.timers self.old) self.new result }
    {
        match attempt {
            Attempt::First => self.again(Attempt::Second, request, at, scheme),
            Attempt::Second => self.again(Attempt::Third, request, at, scheme),
            Attempt::Third => self.reject(Rejection::NoAnswer),
        }
    }

    fn again<S: RankScheme>(
        &mut self,
        attempt: Attempt,
        request: TalkRequest,
        at: MobileMoment,
        scheme: &S,
    ) -> MobileStep
        ensures { MobileDid (again attempt (S.RankScheme.above scheme.now) request.reference request.rank at.time.ms at.timers self.old) self.new result }
    {
        if self.open_to(request.rank, at.time, scheme) {
            self.attempt(attempt, request, at)
        } else {
            self.reject(Rejection::UplinkBusy)
        }
    }
}
