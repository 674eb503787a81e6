// The laws of a station, proved of the definitions that its steps are held to.
ghost use Rattle.std.specs.Prelude.{◌≡◌, ℕ, Bool, true};
ghost use Rattle.station.specs.Laws.{StationLaws};

fn every_law()
    ensures { (above : ℕ → ℕ → Bool) (b link period : ℕ) → StationLaws above b link period }
{}

// The laws hold of every step, for every rank scheme, station number, link time and notice period.
pub fn laws_hold() -> bool
    ensures answer { result ≡ true }
    ensures laws { (above : ℕ → ℕ → Bool) (b link period : ℕ) → StationLaws above b link period }
{
    every_law();
    true
}
