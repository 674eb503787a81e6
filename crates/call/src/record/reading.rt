// Making and reading the record of a group call.
ghost use Rattle.std.specs.Prelude.{◌≡◌, ◌≤◌, false, ◌&&◌, MatchOption};
ghost use Rattle.timing.specs.Limits.{within};
ghost use Rattle.call.specs.Records.{frame_of};

use super::super::settings::Settings;
use super::GroupCall;
use anchor::Stations;
use timing::Time;

impl GroupCall {
    // Nothing where there are no mobiles or more than 200, or no places in the book or more than 4,096.
    pub fn new(
        settings: Settings,
        mobiles: usize,
        stations: Stations,
        places: usize,
    ) -> Option<GroupCall>
        ensures { MatchOption result ((within 1 200 mobiles && within 1 4096 places) ≡ false) (λ c. (frame_of c ≡ record { settings = settings; mobile_count = mobiles; station_count = stations.count; places = places }) × (c.last ≡ 0) × (c.time.ms ≡ 0)) }
    {
        if mobiles < 1 || mobiles > 200 || places < 1 || places > 4096 {
            return None;
        }
        Some(GroupCall {
            settings,
            mobiles,
            stations,
            places,
            last: 0,
            time: Time::new(0).unwrap(),
        })
    }

    pub fn settings(&self) -> Settings
        ensures { result ≡ self.now.settings }
    {
        self.settings
    }

    pub fn mobiles(&self) -> usize
        ensures { (result ≡ self.now.mobiles) × (1 ≤ result) × (result ≤ 200) }
    {
        self.mobiles
    }

    pub fn stations(&self) -> Stations
        ensures { result ≡ self.now.stations }
    {
        self.stations
    }

    pub fn places(&self) -> usize
        ensures { (result ≡ self.now.places) × (1 ≤ result) × (result ≤ 4096) }
    {
        self.places
    }

    pub fn last(&self) -> u32
        ensures { (result ≡ self.now.last) × (result ≤ self.now.places) }
    {
        self.last
    }

    pub fn time(&self) -> Time
        ensures { result ≡ self.now.time }
    {
        self.time
    }
}
