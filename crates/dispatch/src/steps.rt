// The step of the party that a call names, once the call has heard what it hears. A call is an enum with numbers of its own, so each arm has
// other arguments, and no closure stands for them.
ghost use Rattle.std.specs.Prelude.{◌≡◌};
ghost use Rattle.call.specs.Effects.{effect_alone, effect_heard, effect};
ghost use Rattle.call.specs.Records.{frame_of};
ghost use Rattle.call.specs.World.{time_of};
ghost use Rattle.dispatch.specs.Checks.{Admitted};
ghost use Rattle.dispatch.specs.Lent.{lent};
ghost use Rattle.dispatch.specs.Steps.{SteppedTo};

use super::step::Step;
use super::tables::LentTables;
use call::{Call, GroupCall};
use messages::Message;
use schemes::RankScheme;
use timing::Time;

mod anchors;
mod mobiles;
mod parts;
mod stations;

// The step of an admitted call, with what it heard.
pub(crate) fn step<S: RankScheme>(
    group: &mut GroupCall,
    tables: &mut LentTables<'_>,
    scheme: &S,
    time: Time,
    call: &Call,
    heard: Option<Message>,
) -> Step
    requires admitted { Admitted group.old S.RankScheme.count tables.old call.now }
    requires time { time.ms ≡ time_of call.now }
    ensures { SteppedTo (effect (S.RankScheme.above scheme.now) (frame_of group.old) call.now (lent group.old tables.old) heard) group.old tables.old group.new tables.new result }
{
    match heard {
        None => step_alone(group, tables, scheme, time, call),
        Some(message) => step_hearing(group, tables, scheme, time, call, message),
    }
}

// Nothing is heard: a call that listens stays idle.
fn step_alone<S: RankScheme>(
    group: &mut GroupCall,
    tables: &mut LentTables<'_>,
    scheme: &S,
    time: Time,
    call: &Call,
) -> Step
    requires admitted { Admitted group.old S.RankScheme.count tables.old call.now }
    requires time { time.ms ≡ time_of call.now }
    ensures { SteppedTo (effect_alone (S.RankScheme.above scheme.now) (frame_of group.old) call.now (lent group.old tables.old)) group.old tables.old group.new tables.new result }
{
    match *call {
        Call::Ask {
            mobile,
            reference,
            rank,
            ..
        } => mobiles::ask(group, tables, scheme, time, mobile, reference, rank),
        Call::Finish { mobile, .. } => mobiles::finish(group, tables, time, mobile),
        Call::MobileTimer { mobile, .. } => mobiles::timer(group, tables, scheme, time, mobile),
        Call::StationTimer { station, .. } => stations::tick(group, tables, time, station),
        Call::RadioLoss { station, .. } => stations::lose_radio(group, tables, time, station),
        Call::Release { .. } => anchors::release(group, tables, time),
        Call::MobileHears { .. }
        | Call::StationHearsAir { .. }
        | Call::StationHearsWire { .. }
        | Call::AnchorHears { .. } => parts::stay_idle(group, time),
    }
}

// A message is heard: a call that does not listen stays idle.
fn step_hearing<S: RankScheme>(
    group: &mut GroupCall,
    tables: &mut LentTables<'_>,
    scheme: &S,
    time: Time,
    call: &Call,
    message: Message,
) -> Step
    requires admitted { Admitted group.old S.RankScheme.count tables.old call.now }
    requires time { time.ms ≡ time_of call.now }
    ensures { SteppedTo (effect_heard (S.RankScheme.above scheme.now) (frame_of group.old) call.now (lent group.old tables.old) message) group.old tables.old group.new tables.new result }
{
    match *call {
        Call::MobileHears { mobile, .. } => {
            mobiles::hear(group, tables, scheme, time, mobile, message)
        }
        Call::StationHearsAir { station, .. } => {
            stations::hear_air(group, tables, scheme, time, station, message)
        }
        Call::StationHearsWire { station, .. } => {
            stations::hear_wire(group, tables, time, station, message)
        }
        Call::AnchorHears { .. } => anchors::hear(group, tables, scheme, time, message),
        Call::Ask { .. }
        | Call::Finish { .. }
        | Call::MobileTimer { .. }
        | Call::StationTimer { .. }
        | Call::RadioLoss { .. }
        | Call::Release { .. } => parts::stay_idle(group, time),
    }
}
