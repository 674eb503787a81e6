// The ten calls of a group call that goes on. Each takes a time and its own numbers, and gives its answer. A refused call changes nothing.
// What they share is `make`; each says the relation of its own call.
ghost use Rattle.call.specs.declared.calls.Call.TheVariants.{Ask, Finish, MobileHears, MobileTimer, StationHearsAir, StationHearsWire, StationTimer, RadioLoss, AnchorHears, Release};
ghost use Rattle.engine.specs.Ongoing.{MadeOn, SameBorrows};

use anchor::Entry;
use call::{Answer, Call, GroupCall};
use carriers::Carrier;
use dispatch::{LentTables, make};
use mobile::Mobile;
use schemes::RankScheme;
use station::Station;

// A group call that goes on: its record, the lent tables, the rank scheme and the two carriers.
// The tables in a LentTables, and one lifetime for all: tried, and the proof of a host did not close.
#[derive(Drop)]
pub struct OngoingCall<'t, 'a, 'w, S, A, W> {
    pub group: &'t mut GroupCall,
    pub mobiles: &'t mut [Mobile],
    pub stations: &'t mut [Station],
    // the grant book
    pub book: &'t mut [Entry],
    pub scheme: &'t S,
    pub air: &'a mut A,
    pub wire: &'w mut W,
}

impl<S: RankScheme, A: Carrier, W: Carrier> OngoingCall<'_, '_, '_, S, A, W> {
    // A user asks for the floor, with a reference and a rank.
    pub fn ask(&mut self, time: u64, mobile: u64, reference: u16, rank: u64) -> Answer
        ensures made { MadeOn A.Carrier.says W.Carrier.says A.Carrier.hears W.Carrier.hears S.RankScheme.above S.RankScheme.count self.old (Ask time mobile reference rank) result self.new }
        ensures same { SameBorrows self.old self.new }
    {
        self.make(&Call::Ask {
            time,
            mobile,
            reference,
            rank,
        })
    }

    // A user ends the talk.
    pub fn finish(&mut self, time: u64, mobile: u64) -> Answer
        ensures made { MadeOn A.Carrier.says W.Carrier.says A.Carrier.hears W.Carrier.hears S.RankScheme.above S.RankScheme.count self.old (Finish time mobile) result self.new }
        ensures same { SameBorrows self.old self.new }
    {
        self.make(&Call::Finish { time, mobile })
    }

    // A mobile hears the next message of its cell.
    pub fn mobile_hears(&mut self, time: u64, mobile: u64) -> Answer
        ensures made { MadeOn A.Carrier.says W.Carrier.says A.Carrier.hears W.Carrier.hears S.RankScheme.above S.RankScheme.count self.old (MobileHears time mobile) result self.new }
        ensures same { SameBorrows self.old self.new }
    {
        self.make(&Call::MobileHears { time, mobile })
    }

    // A mobile looks at its deadline.
    pub fn mobile_timer(&mut self, time: u64, mobile: u64) -> Answer
        ensures made { MadeOn A.Carrier.says W.Carrier.says A.Carrier.hears W.Carrier.hears S.RankScheme.above S.RankScheme.count self.old (MobileTimer time mobile) result self.new }
        ensures same { SameBorrows self.old self.new }
    {
        self.make(&Call::MobileTimer { time, mobile })
    }

    // A station hears the next message of a mobile.
    pub fn station_hears_air(&mut self, time: u64, station: u64) -> Answer
        ensures made { MadeOn A.Carrier.says W.Carrier.says A.Carrier.hears W.Carrier.hears S.RankScheme.above S.RankScheme.count self.old (StationHearsAir time station) result self.new }
        ensures same { SameBorrows self.old self.new }
    {
        self.make(&Call::StationHearsAir { time, station })
    }

    // A station hears the next message of the anchor.
    pub fn station_hears_wire(&mut self, time: u64, station: u64) -> Answer
        ensures made { MadeOn A.Carrier.says W.Carrier.says A.Carrier.hears W.Carrier.hears S.RankScheme.above S.RankScheme.count self.old (StationHearsWire time station) result self.new }
        ensures same { SameBorrows self.old self.new }
    {
        self.make(&Call::StationHearsWire { time, station })
    }

    // A station looks at its deadlines and its notice clock.
    pub fn station_timer(&mut self, time: u64, station: u64) -> Answer
        ensures made { MadeOn A.Carrier.says W.Carrier.says A.Carrier.hears W.Carrier.hears S.RankScheme.above S.RankScheme.count self.old (StationTimer time station) result self.new }
        ensures same { SameBorrows self.old self.new }
    {
        self.make(&Call::StationTimer { time, station })
    }

    // A station loses the radio of its talker.
    pub fn radio_loss(&mut self, time: u64, station: u64) -> Answer
        ensures made { MadeOn A.Carrier.says W.Carrier.says A.Carrier.hears W.Carrier.hears S.RankScheme.above S.RankScheme.count self.old (RadioLoss time station) result self.new }
        ensures same { SameBorrows self.old self.new }
    {
        self.make(&Call::RadioLoss { time, station })
    }

    // The anchor hears the next message of a station.
    pub fn anchor_hears(&mut self, time: u64) -> Answer
        ensures made { MadeOn A.Carrier.says W.Carrier.says A.Carrier.hears W.Carrier.hears S.RankScheme.above S.RankScheme.count self.old (AnchorHears time) result self.new }
        ensures same { SameBorrows self.old self.new }
    {
        self.make(&Call::AnchorHears { time })
    }

    // The anchor tells every station that the floor is free.
    pub fn release(&mut self, time: u64) -> Answer
        ensures made { MadeOn A.Carrier.says W.Carrier.says A.Carrier.hears W.Carrier.hears S.RankScheme.above S.RankScheme.count self.old (Release time) result self.new }
        ensures same { SameBorrows self.old self.new }
    {
        self.make(&Call::Release { time })
    }

    // One call, whichever it is.
    pub(crate) fn make(&mut self, call: &Call) -> Answer
        ensures made { MadeOn A.Carrier.says W.Carrier.says A.Carrier.hears W.Carrier.hears S.RankScheme.above S.RankScheme.count self.old call.now result self.new }
        ensures same { SameBorrows self.old self.new }
    {
        let mut tables = LentTables {
            mobiles: self.mobiles,
            stations: self.stations,
            book: self.book,
        };
        make(
            self.group,
            &mut tables,
            self.scheme,
            self.air,
            self.wire,
            call,
        )
    }
}
