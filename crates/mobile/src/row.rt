// The row of a mobile, and what a step of it answers. Times are in milliseconds.
ghost use Rattle.std.specs.Prelude.{◌≡◌};
ghost use Rattle.mobile.specs.Rows.{attempt_number, rejection_cause, may_ask};

use messages::Step;
use timing::{Time, Timer};

#[derive(Clone, Copy, Default)]
pub struct Mobile {
    pub identity: u32,
    // the station in whose cell it is
    pub station: u8,
    // the sum of 2^code over the ranks that it may ask for, the number by which a mobile is entered
    pub allowed: u64,
    pub state: State,
    pub uplink: Uplink,
}

#[derive(Clone, Copy, Default)]
pub enum State {
    #[default]
    Listens,
    // for an uplink that is open to its rank, until the deadline
    Waits {
        reference: u16,
        rank: u8,
        deadline: u64,
    },
    // ACCESS is said, and no answer is heard yet
    Asks {
        attempt: Attempt,
        reference: u16,
        rank: u8,
        deadline: u64,
    },
    // it has the grant, and waits for its link
    Links {
        grant: u32,
        deadline: u64,
    },
    Talks {
        grant: u32,
    },
}

#[derive(Clone, Copy, PartialEq, Eq, Debug)]
pub enum Attempt {
    First,
    Second,
    Third,
}

// What the mobile knows of the uplink.
#[derive(Clone, Copy, Default)]
pub enum Uplink {
    #[default]
    Unknown,
    // the time at which FREE was heard last
    Free { since: u64 },
    Busy { rank: u8 },
}

// Why the mobile gave up what its user asked for.
#[derive(Clone, Copy, PartialEq, Eq, Debug)]
pub enum Rejection {
    WaitExpired,
    UplinkBusy,
    // after the third attempt
    NoAnswer,
    GrantedToOther,
    LinkFailed,
}

#[derive(Clone, Copy, PartialEq, Eq, Debug)]
pub enum MobileOutcome {
    // no deadline is reached
    Idle,
    // the message is not for the state that it is in
    Ignored,
    Applied,
    Waits,
    Attempt(Attempt),
    // with the talk's grant
    TalkBegun(u32),
    Rejected(Rejection),
    // with the talk's grant
    TalkEnded(u32),
}

#[derive(Clone, Copy)]
pub struct MobileTimers {
    // how long it waits for the uplink
    pub t3128: Timer,
    // how long it waits for an answer to ACCESS
    pub t3130: Timer,
    // how long it waits for its link
    pub link: Timer,
}

// When a mobile takes a step: the time, and its timers.
#[derive(Clone, Copy)]
pub struct MobileMoment {
    pub time: Time,
    pub timers: MobileTimers,
}

// What its user asks for: a talk with this reference and rank. A state keeps the two apart, since the definitions of the steps name them so.
#[derive(Clone, Copy)]
pub struct TalkRequest {
    pub reference: u16,
    pub rank: u8,
}

pub type MobileStep = Step<MobileOutcome>;

// Why a step that its user asks for is not taken.
#[derive(Clone, Copy, PartialEq, Eq, Debug)]
pub enum MobileRefusal {
    NotListening,
    NotTalking,
}

impl Attempt {
    pub fn number(self) -> u8
        ensures { result ≡ attempt_number self }
    {
        let before = self as u8;
        before + 1
    }
}

impl Rejection {
    pub fn cause(self) -> u8
        ensures { result ≡ rejection_cause self }
    {
        self as u8 + 1
    }
}

impl Mobile {
    // Whether it may ask for this rank.
    pub fn may_ask(&self, rank: u8) -> bool
        ensures { result ≡ may_ask rank self.now }
    {
        rank < 64 && self.allowed / (1 << rank) % 2 == 1
    }
}
