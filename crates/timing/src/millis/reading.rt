// Making and reading a number of milliseconds.
ghost use Rattle.std.specs.Prelude.{◌≡◌, ◌≤◌, false, MatchOption};
ghost use Rattle.timing.specs.Limits.{within};

use super::Millis;

impl<const LEAST: u64, const MOST: u64> Millis<LEAST, MOST> {
    // Nothing outside the limits.
    pub fn new(ms: u64) -> Option<Self>
        ensures { MatchOption result (within LEAST MOST ms ≡ false) (λ m. m.ms ≡ ms) }
    {
        if ms < LEAST || ms > MOST {
            return None;
        }
        Some(Millis { ms })
    }

    pub fn ms(self) -> u64
        ensures { (result ≡ self.entry.ms) × (LEAST ≤ result) × (result ≤ MOST) }
    {
        self.ms
    }
}
