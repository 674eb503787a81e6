// Reads a notice clock at each due time, a little late, and tells what took place.
ghost use Rattle.std.specs.Prelude.{◌≡◌, ◌+◌, ◌^◌, ◌<◌, ◌≤◌, MatchOption};
ghost use Rattle.drift.specs.Lates.{next_state, late, total_late};
ghost use Rattle.drift.specs.Runs.{notices_over, Passed};

use super::late::Lateness;
use station::Clock;
use timing::Time;

#[derive(Clone, Copy)]
pub struct Report {
    // how many notices were said
    pub said: u64,
    // the worst distance of a due time from the grid, in milliseconds
    pub worst: u64,
    // how late a clock would be by now whose timer restarts when its work is finished
    pub crept: u64,
}

// Says the notices of so many days, fewer only where a time would pass 2^40.
pub fn run_days(clock: &mut Clock, lateness: &mut Lateness, days: u8) -> Report
    ensures passed { Passed clock.old.start clock.old.period.ms clock.old.due result.said clock.new.due }
    ensures worst { result.worst ≡ 0 }
    ensures crept { result.crept ≡ total_late result.said lateness.old.state }
    ensures all { (result.said ≤ notices_over days clock.old.period.ms) × (result.said < notices_over days clock.old.period.ms → 2 ^ 40 < clock.new.due + 7) }
    ensures kept { (clock.new.start ≡ clock.old.start) × (clock.new.period ≡ clock.old.period) }
{
    let notices = u64::from(days) * clock.per_day();
    let mut worst = 0;
    let mut crept = 0;
    for said in 0..notices {
        worst = clock.distance().max(worst);
        let Some(late) = say_notice(clock, lateness) else {
            return Report { said, worst, crept };
        };
        crept += late;
    }
    Report {
        said: notices,
        worst,
        crept,
    }
}

// Reads the clock once, as late as the pattern says: a notice is said, and the next is due one period later. Answers how late
// that was, or none where the time would pass 2^40.
fn say_notice(clock: &mut Clock, lateness: &mut Lateness) -> Option<u64>
    ensures said { MatchOption result ((2 ^ 40 < clock.old.due + 7) × (clock.new.due ≡ clock.old.due)) (λ ms. (clock.new.due ≡ clock.old.due + clock.old.period.ms) × (ms ≡ late (next_state lateness.old.state)) × (ms ≤ 7) × (lateness.new.state ≡ next_state lateness.old.state)) }
    ensures kept { (clock.new.start ≡ clock.old.start) × (clock.new.period ≡ clock.old.period) }
{
    let due = clock.due();
    if due > 1 << 40 {
        return None;
    }
    let late = lateness.draw();
    let time = Time::new(due + late)?;
    clock.read(time);
    Some(late)
}
