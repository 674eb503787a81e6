// The calls of a list, with their numbers as a caller brings them.
#[derive(Clone, Copy)]
pub enum Call {
    Ask {
        time: u64,
        mobile: u64,
        reference: u16,
        rank: u64,
    },
    Finish {
        time: u64,
        mobile: u64,
    },
    MobileHears {
        time: u64,
        mobile: u64,
    },
    MobileTimer {
        time: u64,
        mobile: u64,
    },
    StationHearsAir {
        time: u64,
        station: u64,
    },
    StationHearsWire {
        time: u64,
        station: u64,
    },
    StationTimer {
        time: u64,
        station: u64,
    },
    RadioLoss {
        time: u64,
        station: u64,
    },
    AnchorHears {
        time: u64,
    },
    Release {
        time: u64,
    },
}
