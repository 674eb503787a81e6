// What a call answers.
ghost use Rattle.std.specs.Prelude.{◌≡◌};
ghost use Rattle.call.specs.declared.answer.Outcome.TheVariants.{Refused};

use mobile::{Attempt, Rejection};

// Why a call is refused. A refused call changes nothing.
#[derive(Clone, Copy, PartialEq, Eq, Debug)]
pub enum Refusal {
    // outside its limits, or after the opening of another length or with a broken notice clock
    Table,
    // an identity out of range or twice, or a mobile's station does not exist
    Identity,
    // a period, timer, level or district outside its limits
    Setting,
    // a carrier is not quiet at the opening
    NotQuiet,
    // no such mobile or station
    NoParty,
    // above 2^40, or before that of the last accepted call
    Time,
    // not below the count of ranks, or not allowed to the mobile
    Rank,
    // ask when not listening, finish when not talking, radio loss when not Held, release when not free
    State,
    // fewer answer places than calls
    FewPlaces,
    // a playlist that breaks its form
    Form,
}

#[derive(Clone, Copy, PartialEq, Eq, Debug, Default)]
pub enum Outcome {
    Refused(Refusal),
    // nothing heard or due
    #[default]
    Idle,
    // heard and met by no rule
    Ignored,
    // a mobile's rule applied otherwise than below
    Applied,
    Waits,
    Attempt(Attempt),
    // the grant
    TalkBegun(u32),
    Rejected(Rejection),
    // the grant
    TalkEnded(u32),
    // opened, or a station or the anchor acted: top or the last number
    Acted(u32),
    // rejected for a full book
    BookFull,
}

#[derive(Clone, Copy, Default)]
pub struct Answer {
    pub outcome: Outcome,
    // messages that the carriers kept, and lost
    pub kept: u32,
    pub lost: u32,
}

impl Answer {
    // Of a call that said nothing.
    pub fn silent(outcome: Outcome) -> Answer
        ensures { result ≡ record { outcome = outcome; kept = 0; lost = 0 } }
    {
        Answer {
            outcome,
            kept: 0,
            lost: 0,
        }
    }
}

// Of a call that is refused, which says nothing.
impl From<Refusal> for Answer {
    ghost from_gives = { λ refusal answer. answer ≡ record { outcome = Refused refusal; kept = 0; lost = 0 } };

    fn from(refusal: Refusal) -> Answer {
        Answer::silent(Outcome::Refused(refusal))
    }
}
