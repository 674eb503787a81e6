// What is checked before a call is carried out, in the order of the refusals' numbers.
ghost use Rattle.std.specs.Prelude.{◌≡◌, true, false, [], Some, None, MatchOption, MatchResult};
ghost use Rattle.call.specs.Records.{frame_of, tables_of};
ghost use Rattle.call.specs.World.{every_clock_sound, tables_good, is_there, party_there, time_of, time_good, rank_good, state_good, refusal_of};
ghost use Rattle.mobile.specs.Steps.{mobile_listens, mobile_talks};
ghost use Rattle.dispatch.specs.Checks.{PartyIn, Admitted};
ghost use Rattle.dispatch.specs.Lent.{lent};

use super::rows::row;
use super::tables::LentTables;
use anchor::is_free;
use call::{Call, GroupCall, Refusal};
use mobile::{Mobile, State};
use station::Station;
use timing::{Period, Time};

// The time of the call, or the refusal of the first check that fails.
pub(crate) fn admit(
    group: &GroupCall,
    tables: &LentTables<'_>,
    ranks: u8,
    call: &Call,
) -> Result<Time, Refusal>
    ensures { MatchResult result (λ time. (time.ms ≡ time_of call.now) × (refusal_of (frame_of group.now) ranks (lent group.now tables.now) call.now ≡ None) × Admitted group.now ranks tables.now call.now) (λ refusal. refusal_of (frame_of group.now) ranks (lent group.now tables.now) call.now ≡ Some refusal) }
{
    if !tables_good(group, tables) {
        return Err(Refusal::Table);
    }
    if !party_there(group, call) {
        return Err(Refusal::NoParty);
    }
    let time = admitted_time(group, call).ok_or(Refusal::Time)?;
    if !rank_good(tables, ranks, call) {
        return Err(Refusal::Rank);
    }
    if !state_good(group, tables, call) {
        return Err(Refusal::State);
    }
    Ok(time)
}

fn tables_good(group: &GroupCall, tables: &LentTables<'_>) -> bool
    ensures { result ≡ tables_good (frame_of group.now) (lent group.now tables.now) }
{
    tables.mobiles.len() == group.mobiles()
        && tables.stations.len() == usize::from(group.stations().count())
        && tables.book.len() == group.places()
        && clocks_sound(group.settings().period, tables.stations)
}

fn clocks_sound(period: Period, stations: &[Station]) -> bool
    ensures { result ≡ every_clock_sound period.ms stations.now }
{
    stations
        .iter()
        .all(|station| station.has_sound_clock(period))
}

fn party_there(group: &GroupCall, call: &Call) -> bool
    ensures { result ≡ party_there (frame_of group.now) call.now }
{
    match *call {
        Call::Ask { mobile, .. }
        | Call::Finish { mobile, .. }
        | Call::MobileHears { mobile, .. }
        | Call::MobileTimer { mobile, .. } => is_there(mobile, group.mobiles() as u64),
        Call::StationHearsAir { station, .. }
        | Call::StationHearsWire { station, .. }
        | Call::StationTimer { station, .. }
        | Call::RadioLoss { station, .. } => {
            is_there(station, u64::from(group.stations().count()))
        }
        Call::AnchorHears { .. } | Call::Release { .. } => true,
    }
}

fn is_there(number: u64, count: u64) -> bool
    ensures { result ≡ is_there number count }
{
    1 <= number && number <= count
}

// The time of the call, where it is within its limits and not before that of the last accepted call.
// `time_good` reads only the time of the tables that it is given, so the clauses give it no rows.
fn admitted_time(group: &GroupCall, call: &Call) -> Option<Time>
    ensures { MatchOption result (time_good (tables_of group.now [] [] []) call.now ≡ false) (λ time. (time.ms ≡ time_of call.now) × (time_good (tables_of group.now [] [] []) call.now ≡ true)) }
{
    Time::new(time_of(call)).filter(|time| group.time().ms() <= time.ms())
}

fn time_of(call: &Call) -> u64
    ensures { result ≡ time_of call.now }
{
    match *call {
        Call::Ask { time, .. }
        | Call::Finish { time, .. }
        | Call::MobileHears { time, .. }
        | Call::MobileTimer { time, .. }
        | Call::StationHearsAir { time, .. }
        | Call::StationHearsWire { time, .. }
        | Call::StationTimer { time, .. }
        | Call::RadioLoss { time, .. }
        | Call::AnchorHears { time }
        | Call::Release { time } => time,
    }
}

fn rank_good(tables: &LentTables<'_>, ranks: u8, call: &Call) -> bool
    requires { PartyIn tables.now call.now }
    ensures { (c : GroupCall) → result ≡ rank_good ranks (lent c tables.now) call.now }
{
    match *call {
        Call::Ask { mobile, rank, .. } => {
            rank < u64::from(ranks) && row(tables.mobiles, mobile).may_ask(rank as u8)
        }
        Call::Finish { .. }
        | Call::MobileHears { .. }
        | Call::MobileTimer { .. }
        | Call::StationHearsAir { .. }
        | Call::StationHearsWire { .. }
        | Call::StationTimer { .. }
        | Call::RadioLoss { .. }
        | Call::AnchorHears { .. }
        | Call::Release { .. } => true,
    }
}

fn state_good(group: &GroupCall, tables: &LentTables<'_>, call: &Call) -> bool
    requires { PartyIn tables.now call.now }
    ensures { result ≡ state_good (lent group.now tables.now) call.now }
{
    match *call {
        Call::Ask { mobile, .. } => listens(&row(tables.mobiles, mobile)),
        Call::Finish { mobile, .. } => talks(&row(tables.mobiles, mobile)),
        Call::RadioLoss { station, .. } => row(tables.stations, station).is_held(),
        Call::Release { .. } => is_free(tables.book, group.last()),
        Call::MobileHears { .. }
        | Call::MobileTimer { .. }
        | Call::StationHearsAir { .. }
        | Call::StationHearsWire { .. }
        | Call::StationTimer { .. }
        | Call::AnchorHears { .. } => true,
    }
}

fn listens(mobile: &Mobile) -> bool
    ensures { result ≡ mobile_listens mobile.now }
{
    matches!(mobile.state, State::Listens)
}

fn talks(mobile: &Mobile) -> bool
    ensures { result ≡ mobile_talks mobile.now }
{
    matches!(mobile.state, State::Talks { .. })
}
