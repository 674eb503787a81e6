// Making and reading the count of stations.
ghost use Rattle.std.specs.Prelude.{◌≡◌, ◌≤◌, false, MatchOption};
ghost use Rattle.anchor.specs.Limits.{stations_in_limits};

use super::Stations;

impl Stations {
    // Nothing below 1 or above 8.
    pub fn new(count: u64) -> Option<Stations>
        ensures { MatchOption result (stations_in_limits count ≡ false) (λ s. s.count ≡ count) }
    {
        if count < 1 || count > 8 {
            return None;
        }
        Some(Stations { count: count as u8 })
    }

    pub fn count(self) -> u8
        ensures { (result ≡ self.count) × (1 ≤ result) × (result ≤ 8) }
    {
        self.count
    }
}
