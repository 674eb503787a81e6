// What an opening is given: the settings and the subscribers.
use call::{SettingNumbers, Subscriber};

// Period 200, T3128 1000, T3130 1000, link time 500.
pub(crate) fn settings() -> SettingNumbers {
    SettingNumbers {
        period: 200,
        t3128: 1000,
        t3130: 1000,
        link: 500,
    }
}

// A mobile that may ask for every talker priority.
pub(crate) fn subscriber(identity: u64, station: u64) -> Subscriber {
    Subscriber {
        identity,
        station,
        allowed: 7,
    }
}

// Mobile 1 is 7001 in cell 1, mobile 2 is 7002 in this station's cell.
pub(crate) fn pair(station: u64) -> [Subscriber; 2] {
    [subscriber(7001, 1), subscriber(7002, station)]
}
