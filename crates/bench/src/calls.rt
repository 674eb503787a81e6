// A function for each kind of call: the time, then the party's number. Each variant's fields have names; by these functions a list of thirty
// calls takes a line for each.
use call::Call;

pub(crate) fn ask(time: u64, mobile: u64, reference: u16, rank: u64) -> Call {
    Call::Ask {
        time,
        mobile,
        reference,
        rank,
    }
}

pub(crate) fn finish(time: u64, mobile: u64) -> Call {
    Call::Finish { time, mobile }
}

pub(crate) fn mobile_hears(time: u64, mobile: u64) -> Call {
    Call::MobileHears { time, mobile }
}

pub(crate) fn mobile_timer(time: u64, mobile: u64) -> Call {
    Call::MobileTimer { time, mobile }
}

pub(crate) fn station_hears_air(time: u64, station: u64) -> Call {
    Call::StationHearsAir { time, station }
}

pub(crate) fn station_hears_wire(time: u64, station: u64) -> Call {
    Call::StationHearsWire { time, station }
}

pub(crate) fn station_timer(time: u64, station: u64) -> Call {
    Call::StationTimer { time, station }
}

pub(crate) fn radio_loss(time: u64, station: u64) -> Call {
    Call::RadioLoss { time, station }
}

pub(crate) fn anchor_hears(time: u64) -> Call {
    Call::AnchorHears { time }
}

pub(crate) fn release(time: u64) -> Call {
    Call::Release { time }
}
