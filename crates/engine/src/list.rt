// A list of calls, each on what the one before left.
ghost use Rattle.std.specs.Prelude.{◌≡◌, ◌<◌, ◌≤◌, length, MatchResult};
ghost use Rattle.call.specs.declared.answer.Refusal.TheVariants.{FewPlaces};
ghost use Rattle.engine.specs.Ongoing.{PlayedNext, PlayedOn, SameBorrows, SameWorldOn};

use super::calls::OngoingCall;
use call::{Answer, Call, Refusal};
use carriers::Carrier;
use schemes::RankScheme;

impl<S: RankScheme, A: Carrier, W: Carrier> OngoingCall<'_, '_, '_, S, A, W> {
    // Plays the calls in order, with an answer for each; answer places past the list are left as found. Refused, with nothing played, where
    // there are fewer places than calls.
    pub fn play(&mut self, calls: &[Call], answers: &mut [Answer]) -> Result<(), Refusal>
        ensures played { MatchResult result (λ _. PlayedOn A.Carrier.says W.Carrier.says A.Carrier.hears W.Carrier.hears S.RankScheme.above S.RankScheme.count self.old calls.now answers.old answers.new self.new) (λ refusal. (refusal ≡ FewPlaces) × (length answers.old < length calls.now) × (answers.new ≡ answers.old) × SameWorldOn self.old self.new) }
        ensures same { SameBorrows self.old self.new }
    {
        if answers.len() < calls.len() {
            return Err(Refusal::FewPlaces);
        }
        self.play_all(calls, answers);
        Ok(())
    }

    pub(crate) fn play_all(&mut self, calls: &[Call], answers: &mut [Answer])
        requires { length calls.now ≤ length answers.old }
        ensures played { PlayedOn A.Carrier.says W.Carrier.says A.Carrier.hears W.Carrier.hears S.RankScheme.above S.RankScheme.count self.old calls.now answers.old answers.new self.new }
        ensures same { SameBorrows self.old self.new }
    {
        // a zip with the places: tried, and the proof did not close
        for (next, call) in calls.iter().enumerate() {
            self.play_next(call, answers, next);
        }
    }

    // Makes a call, and puts its answer at its place.
    fn play_next(&mut self, call: &Call, answers: &mut [Answer], next: usize)
        requires { next < length answers.old }
        ensures played { PlayedNext A.Carrier.says W.Carrier.says A.Carrier.hears W.Carrier.hears S.RankScheme.above S.RankScheme.count self.old call.now next answers.old answers.new self.new }
        ensures same { SameBorrows self.old self.new }
    {
        answers[next] = self.make(call);
    }
}
