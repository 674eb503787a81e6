// What the steps of the parties are made of.
ghost use Rattle.std.specs.Prelude.{◌≡◌, ◌≤◌, true};
ghost use Rattle.call.specs.Effects.{idle};
ghost use Rattle.dispatch.specs.Lent.{lent};
ghost use Rattle.dispatch.specs.Steps.{SteppedTo};

use super::super::step::Step;
use super::super::tables::LentTables;
use call::{GroupCall, Outcome};
use messages::Outbox;
use mobile::MobileMoment;
use station::StationMoment;
use timing::Time;

// A mobile at the time of an admitted call, with the timers of the settings.
pub(super) fn mobile_moment(group: &GroupCall, time: Time) -> MobileMoment
    ensures time { result.time ≡ time }
    ensures timers { (result.timers.t3128 ≡ group.now.settings.t3128) × (result.timers.t3130 ≡ group.now.settings.t3130) × (result.timers.link ≡ group.now.settings.link) }
{
    MobileMoment {
        time,
        timers: group.settings().mobile_timers(),
    }
}

// A station at the time of an admitted call, with the timers of the settings.
pub(super) fn station_moment(group: &GroupCall, time: Time, station: u64) -> StationMoment
    requires { station ≤ 8 }
    ensures time { result.time ≡ time }
    ensures number { result.number ≡ station }
    ensures timers { (result.timers.link ≡ group.now.settings.link) × (result.timers.period ≡ group.now.settings.period) }
{
    StationMoment {
        number: station as u8,
        time,
        timers: group.settings().station_timers(),
    }
}

// Nothing is heard or due.
pub(super) fn stay_idle(group: &mut GroupCall, time: Time) -> Step
    ensures { (t : LentTables) → SteppedTo (idle time.ms (lent group.old t)) group.old t group.new t result }
{
    group.accept(time);
    Step {
        outcome: Outcome::Idle,
        outbox: Outbox::new(),
    }
}
