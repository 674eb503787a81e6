// The numbers of answers, as they are printed.
ghost use Rattle.std.specs.Prelude.{◌≡◌};
ghost use Rattle.call.specs.Numbers.{refusal_number, told};

use super::answer::{Outcome, Refusal};

impl Refusal {
    pub fn number(self) -> u8
        ensures { result ≡ refusal_number self }
    {
        self as u8 + 1
    }
}

// Some outcomes hold a value, so their numbers cannot be those of the variants.
impl Outcome {
    pub fn number(self) -> u8
        ensures { result ≡ (told self).number }
    {
        match self {
            Outcome::Refused(refusal) => refusal.number(),
            Outcome::Idle => 20,
            Outcome::Ignored => 21,
            Outcome::Applied => 22,
            Outcome::Waits => 23,
            Outcome::Attempt(_) => 24,
            Outcome::TalkBegun(_) => 25,
            Outcome::Rejected(_) => 26,
            Outcome::TalkEnded(_) => 27,
            Outcome::Acted(_) => 28,
            Outcome::BookFull => 29,
        }
    }

    pub fn value(self) -> u32
        ensures { result ≡ (told self).value }
    {
        match self {
            Outcome::Attempt(attempt) => u32::from(attempt.number()),
            Outcome::TalkBegun(grant) => grant,
            Outcome::Rejected(why) => u32::from(why.cause()),
            Outcome::TalkEnded(grant) => grant,
            Outcome::Acted(number) => number,
            Outcome::Refused(_)
            | Outcome::Idle
            | Outcome::Ignored
            | Outcome::Applied
            | Outcome::Waits
            | Outcome::BookFull => 0,
        }
    }
}
