// A station's row, and what its steps give.
use super::clock::ClockRow;
use messages::{Cause, Step};
use timing::{Period, Time, Timer};

// Free, Seized, Granted, Held and Closing concern the grant `top`; the last four have that grant's rank.
#[derive(Clone, Copy, Default)]
pub enum Phase {
    // no word from the anchor yet
    #[default]
    Shut,
    Free,
    // another station has the uplink
    Seized { rank: u8 },
    // granted here, and no talker indication before the deadline yet
    Granted { rank: u8, deadline: u64 },
    // a talker is heard here
    Held { rank: u8, identity: u32 },
    // given up here, until the anchor says what follows
    Closing { rank: u8, cause: Cause },
}

// An access that the anchor has been asked for.
#[derive(Clone, Copy)]
pub struct Pending {
    pub reference: u16,
    pub rank: u8,
    pub deadline: u64,
}

#[derive(Clone, Copy, Default)]
pub struct Station {
    pub phase: Phase,
    // the highest grant number obeyed; 0 before the first, which every grant is above, so no Option
    pub top: u32,
    pub pending: Option<Pending>,
    pub clock: ClockRow,
}

#[derive(Clone, Copy)]
pub struct StationTimers {
    pub link: Timer,
    pub period: Period,
}

// When a station takes a step: which station it is, the time, and its timers.
#[derive(Clone, Copy)]
pub struct StationMoment {
    pub number: u8,
    pub time: Time,
    pub timers: StationTimers,
}

#[derive(Clone, Copy, PartialEq, Eq, Debug)]
pub enum StationOutcome {
    // nothing was due
    Idle,
    Ignored,
    Acted,
}

pub type StationStep = Step<StationOutcome>;

#[derive(Clone, Copy, PartialEq, Eq, Debug)]
pub enum StationRefusal {
    BrokenClock,
    // radio loss of a station that holds no talker
    NotHeld,
}
