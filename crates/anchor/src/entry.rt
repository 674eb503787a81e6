// One grant in the grant book.
ghost use Rattle.std.specs.Prelude.{◌≡◌};
ghost use Rattle.anchor.specs.Entries.{mark_number, end_number};

use messages::Cause;

// How the floor was when the grant was given.
#[derive(Clone, Copy, PartialEq, Eq, Debug, Default)]
pub enum Mark {
    #[default]
    Preempts = 0,
    UplinkWasFree = 1,
}

// How a grant ended, if it did.
#[derive(Clone, Copy, PartialEq, Eq, Debug, Default)]
pub enum End {
    #[default]
    Stands,
    Ended(Cause),
    Preempted,
}

#[derive(Clone, Copy, Default)]
pub struct Entry {
    pub station: u8,
    pub reference: u16,
    pub rank: u8,
    pub mark: Mark,
    // 0 while the talker is unconfirmed; no Option, since a CONFIRMATION of identity 0 leaves it unconfirmed
    pub identity: u32,
    pub end: End,
}

impl Mark {
    // 0 pre-empts, 1 the uplink was free.
    pub fn number(self) -> u8
        ensures { result ≡ mark_number self }
    {
        self as u8
    }
}

impl End {
    // 0 stands, 1 to 3 the cause's number, 4 pre-empted. Ended holds a cause, so these are no numbers of the variants.
    pub fn number(self) -> u8
        ensures { result ≡ end_number self }
    {
        match self {
            End::Stands => 0,
            End::Ended(cause) => cause.number(),
            End::Preempted => 4,
        }
    }
}
