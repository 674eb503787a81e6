// The message record, with one constructor for each kind. A field that a kind does not name is 0, and its cause is none.
ghost use Rattle.std.specs.Prelude.{◌≡◌, None};
ghost use Rattle.messages.specs.Messages.{FREE, BUSY, GRANT, UA, RELEASE, ACCESS, TALKER_INDICATION, END, REQUEST, CONFIRMATION, RELEASE_INDICATION, ACKNOWLEDGE, REJECT, SEIZED, RELEASE_COMMAND, cause_number};

use super::address::{anchor_address, cell_address, station_address};

// On the air to a cell.
#[derive(Clone, Copy, PartialEq, Eq, Debug)]
pub enum DownlinkKind {
    Free,
    Busy,
    Grant,
    Ua,
    Release,
}

// On the air to a station.
#[derive(Clone, Copy, PartialEq, Eq, Debug)]
pub enum UplinkKind {
    Access,
    TalkerIndication,
    End,
}

// On the wire to the anchor.
#[derive(Clone, Copy, PartialEq, Eq, Debug)]
pub enum AnchorKind {
    Request,
    Confirmation,
    ReleaseIndication,
}

// On the wire to a station.
#[derive(Clone, Copy, PartialEq, Eq, Debug)]
pub enum StationKind {
    Acknowledge,
    Reject,
    Seized,
    ReleaseCommand,
}

#[derive(Clone, Copy, PartialEq, Eq, Debug)]
pub enum Kind {
    Downlink(DownlinkKind),
    Uplink(UplinkKind),
    Anchor(AnchorKind),
    Station(StationKind),
}

// Why a station gives up a grant.
#[derive(Clone, Copy, PartialEq, Eq, Debug)]
pub enum Cause {
    CallControl,
    RadioMessageFailure,
    RadioFailure,
}

// One record for all kinds, since every rule reads its fields the same way whatever the kind; with fields in the kinds, each rule would take them
// out of the kind again.
#[derive(Clone, Copy)]
pub struct Message {
    pub address: u16,
    pub kind: Kind,
    // the sending station, on the wire to the anchor
    pub station: u8,
    pub reference: u16,
    pub rank: u8,
    pub grant: u32,
    pub identity: u32,
    pub cause: Option<Cause>,
}

impl Cause {
    // 1 call control, 2 radio message failure, 3 radio failure.
    pub fn number(self) -> u8
        ensures { result ≡ cause_number self }
    {
        self as u8 + 1
    }
}

impl Message {
    // Of this kind to this address, with no other field named.
    fn bare(address: u16, kind: Kind) -> Message
        ensures { result ≡ record { address = address; kind = kind; station = 0; reference = 0; rank = 0; grant = 0; identity = 0; cause = None } }
    {
        Message {
            address,
            kind,
            station: 0,
            reference: 0,
            rank: 0,
            grant: 0,
            identity: 0,
            cause: None,
        }
    }

    // On the air, to the cell of a station.

    pub fn free(station: u8) -> Message
        ensures { result ≡ FREE station }
    {
        Message::bare(cell_address(station), Kind::Downlink(DownlinkKind::Free))
    }

    pub fn busy(station: u8, rank: u8) -> Message
        ensures { result ≡ BUSY station rank }
    {
        let bare = Message::bare(cell_address(station), Kind::Downlink(DownlinkKind::Busy));
        Message { rank, ..bare }
    }

    pub fn grant(station: u8, reference: u16, rank: u8, grant: u32) -> Message
        ensures { result ≡ GRANT station reference rank grant }
    {
        let bare = Message::bare(cell_address(station), Kind::Downlink(DownlinkKind::Grant));
        Message {
            reference,
            rank,
            grant,
            ..bare
        }
    }

    pub fn ua(station: u8, grant: u32, identity: u32) -> Message
        ensures { result ≡ UA station grant identity }
    {
        let bare = Message::bare(cell_address(station), Kind::Downlink(DownlinkKind::Ua));
        Message {
            grant,
            identity,
            ..bare
        }
    }

    pub fn release(station: u8, grant: u32) -> Message
        ensures { result ≡ RELEASE station grant }
    {
        let bare = Message::bare(cell_address(station), Kind::Downlink(DownlinkKind::Release));
        Message { grant, ..bare }
    }

    // On the air, to a station.

    pub fn access(station: u8, reference: u16, rank: u8) -> Message
        ensures { result ≡ ACCESS station reference rank }
    {
        let bare = Message::bare(station_address(station), Kind::Uplink(UplinkKind::Access));
        Message {
            reference,
            rank,
            ..bare
        }
    }

    pub fn talker_indication(station: u8, grant: u32, identity: u32) -> Message
        ensures { result ≡ TALKER_INDICATION station grant identity }
    {
        let kind = Kind::Uplink(UplinkKind::TalkerIndication);
        let bare = Message::bare(station_address(station), kind);
        Message {
            grant,
            identity,
            ..bare
        }
    }

    pub fn end(station: u8, grant: u32) -> Message
        ensures { result ≡ END station grant }
    {
        let bare = Message::bare(station_address(station), Kind::Uplink(UplinkKind::End));
        Message { grant, ..bare }
    }

    // On the wire to the anchor, from a station.

    pub fn request(station: u8, reference: u16, rank: u8) -> Message
        ensures { result ≡ REQUEST station reference rank }
    {
        let bare = Message::bare(anchor_address(), Kind::Anchor(AnchorKind::Request));
        Message {
            station,
            reference,
            rank,
            ..bare
        }
    }

    pub fn confirmation(station: u8, grant: u32, identity: u32) -> Message
        ensures { result ≡ CONFIRMATION station grant identity }
    {
        let bare = Message::bare(anchor_address(), Kind::Anchor(AnchorKind::Confirmation));
        Message {
            station,
            grant,
            identity,
            ..bare
        }
    }

    pub fn release_indication(station: u8, grant: u32, cause: Cause) -> Message
        ensures { result ≡ RELEASE_INDICATION station grant cause }
    {
        let bare = Message::bare(
            anchor_address(),
            Kind::Anchor(AnchorKind::ReleaseIndication),
        );
        Message {
            station,
            grant,
            cause: Some(cause),
            ..bare
        }
    }

    // On the wire, to a station.

    pub fn acknowledge(station: u8, reference: u16, rank: u8, grant: u32) -> Message
        ensures { result ≡ ACKNOWLEDGE station reference rank grant }
    {
        let bare = Message::bare(
            station_address(station),
            Kind::Station(StationKind::Acknowledge),
        );
        Message {
            reference,
            rank,
            grant,
            ..bare
        }
    }

    pub fn reject(station: u8, reference: u16, rank: u8) -> Message
        ensures { result ≡ REJECT station reference rank }
    {
        let bare = Message::bare(station_address(station), Kind::Station(StationKind::Reject));
        Message {
            reference,
            rank,
            ..bare
        }
    }

    pub fn seized(station: u8, rank: u8, grant: u32) -> Message
        ensures { result ≡ SEIZED station rank grant }
    {
        let bare = Message::bare(station_address(station), Kind::Station(StationKind::Seized));
        Message {
            rank,
            grant,
            ..bare
        }
    }

    pub fn release_command(station: u8, grant: u32) -> Message
        ensures { result ≡ RELEASE_COMMAND station grant }
    {
        let bare = Message::bare(
            station_address(station),
            Kind::Station(StationKind::ReleaseCommand),
        );
        Message { grant, ..bare }
    }
}
