// A fixed pseudo-random pattern of how late a clock is read: 0 to 7 ms.
ghost use Rattle.std.specs.Prelude.{◌≡◌, ◌≤◌};
ghost use Rattle.drift.specs.Lates.{next_state, late};

#[derive(Clone, Copy)]
pub struct Lateness {
    state: u32,
}

impl Lateness {
    pub fn new(seed: u32) -> Lateness
        ensures { result.state ≡ seed }
    {
        Lateness { state: seed }
    }

    // How many milliseconds late the next read is.
    pub fn draw(&mut self) -> u64
        ensures value { (result ≡ late (next_state self.old.state)) × (result ≤ 7) }
        ensures after { self.new.state ≡ next_state self.old.state }
    {
        self.state = self
            .state
            .wrapping_mul(1_664_525)
            .wrapping_add(1_013_904_223);
        u64::from(self.state / 536_870_912)
    }
}
