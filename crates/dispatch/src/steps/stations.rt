// The steps of stations. Each has a contract of its own; what they share is in `take_step`. Each requires `Numbered` and `tables_good`,
// since no type holds the number, the record and the tables together: the number comes with the call, and the tables are borrowed from their
// owner.
ghost use Rattle.std.specs.Prelude.{◌≡◌, true, length};
ghost use Rattle.call.specs.Effects.{by_station, effect_heard};
ghost use Rattle.call.specs.Records.{frame_of};
ghost use Rattle.call.specs.World.{station_number, tables_good};
ghost use Rattle.station.specs.Stations.{is_held, wire_heard, radio_lost, timed};
ghost use Rattle.dispatch.specs.Checks.{Numbered};
ghost use Rattle.dispatch.specs.Lent.{lent};
ghost use Rattle.dispatch.specs.Steps.{SteppedTo, NeverRefused, StationTook};

use super::super::step::{Step, station_step};
use super::super::tables::LentTables;
use super::parts::station_moment;
use call::{Call, GroupCall};
use messages::Message;
use schemes::RankScheme;
use station::{Station, StationMoment, StationRefusal, StationStep};
use timing::Time;

// Hears a mobile.
pub(super) fn hear_air<S: RankScheme>(
    group: &mut GroupCall,
    tables: &mut LentTables<'_>,
    scheme: &S,
    time: Time,
    station: u64,
    message: Message,
) -> Step
    requires party { Numbered station (length tables.old.stations.now) 8 }
    requires good { tables_good (frame_of group.old) (lent group.old tables.old) ≡ true }
    ensures { SteppedTo (effect_heard (S.RankScheme.above scheme.now) (frame_of group.old) (Call.StationHearsAir time.ms station) (lent group.old tables.old) message) group.old tables.old group.new tables.new result }
{
    take_step(
        group,
        tables,
        time,
        station,
        |row, at| row.hear_air(scheme, message, at),
    )
}

// Hears the anchor.
pub(super) fn hear_wire(
    group: &mut GroupCall,
    tables: &mut LentTables<'_>,
    time: Time,
    station: u64,
    message: Message,
) -> Step
    requires party { Numbered station (length tables.old.stations.now) 8 }
    requires good { tables_good (frame_of group.old) (lent group.old tables.old) ≡ true }
    ensures { SteppedTo (by_station time.ms station (lent group.old tables.old) (wire_heard station time.ms group.old.settings.link.ms group.old.settings.period.ms message (station_number (lent group.old tables.old) station))) group.old tables.old group.new tables.new result }
{
    take_step(
        group,
        tables,
        time,
        station,
        |row, at| row.hear_wire(message, at),
    )
}

pub(super) fn tick(
    group: &mut GroupCall,
    tables: &mut LentTables<'_>,
    time: Time,
    station: u64,
) -> Step
    requires party { Numbered station (length tables.old.stations.now) 8 }
    requires good { tables_good (frame_of group.old) (lent group.old tables.old) ≡ true }
    ensures { SteppedTo (by_station time.ms station (lent group.old tables.old) (timed station time.ms group.old.settings.period.ms (station_number (lent group.old tables.old) station))) group.old tables.old group.new tables.new result }
{
    take_step(group, tables, time, station, |row, at| row.tick(at))
}

// The radio of the talker that is held is lost.
pub(super) fn lose_radio(
    group: &mut GroupCall,
    tables: &mut LentTables<'_>,
    time: Time,
    station: u64,
) -> Step
    requires party { Numbered station (length tables.old.stations.now) 8 }
    requires good { tables_good (frame_of group.old) (lent group.old tables.old) ≡ true }
    requires state { is_held (station_number (lent group.old tables.old) station).phase ≡ true }
    ensures { SteppedTo (by_station time.ms station (lent group.old tables.old) (radio_lost station (station_number (lent group.old tables.old) station))) group.old tables.old group.new tables.new result }
{
    take_step(
        group,
        tables,
        time,
        station,
        |row, at| row.lose_radio(at.number, at.timers),
    )
}

// A step that the station takes at its row and moment, and does not refuse there; the value is its top after the step.
fn take_step<F>(
    group: &mut GroupCall,
    tables: &mut LentTables<'_>,
    time: Time,
    station: u64,
    step: F,
) -> Step
where
    F: FnOnce(&mut Station, StationMoment) -> Result<StationStep, StationRefusal>,
    requires party { Numbered station (length tables.old.stations.now) 8 }
    requires callable { F.IsAlwaysCallable step }
    requires refuses_nothing { NeverRefused (F.post step) group.old tables.old time station }
    ensures { StationTook (F.post step) group.old tables.old time station group.new tables.new result }
{
    let at = station_moment(group, time, station);
    let row = &mut tables.stations[station as usize - 1];
    let answer = step(row, at);
    let top = row.top;
    group.accept(at.time);
    station_step(answer.unwrap(), top)
}
