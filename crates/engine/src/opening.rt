// The opening of a group call.
ghost use Rattle.std.specs.Prelude.{◌≡◌, true, ◌&&◌, length, Some, None, MatchResult};
ghost use Rattle.call.specs.Openings.{Opening, identity_in_limits, opened, opening_check, good_subscribers, refusal_at_opening, unused};
ghost use Rattle.call.specs.Records.{frame_of};
ghost use Rattle.call.specs.World.{is_there};
ghost use Rattle.carriers.specs.Meaning.{empty};
ghost use Rattle.dispatch.specs.Lent.{SameTables, lent};
ghost use Rattle.engine.specs.Openings.{given_of, OpeningRefused, AllWritable, FirstRecord};

use super::enter::{enter_mobiles, shut_stations};
use anchor::Stations;
use call::{CallSetup, GroupCall, Refusal, Settings, Subscriber};
use carriers::Carrier;
use dispatch::LentTables;

// Sets up the rows, and gives the record; the book stays as it is found. A refused opening writes nothing.
pub fn open<A: Carrier, W: Carrier>(
    setup: &CallSetup<'_>,
    tables: &mut LentTables<'_>,
    air: &A,
    wire: &W,
) -> Result<GroupCall, Refusal>
    ensures opening { MatchResult result (λ group. Opening A.Carrier.pending W.Carrier.pending (given_of setup.now.settings setup.now.subscribers.now tables.entry.now) air.now wire.now opened (frame_of group) (record { tables = lent group tables.exit.now; air = air.now; wire = wire.now })) (λ refusal. OpeningRefused (given_of setup.now.settings setup.now.subscribers.now tables.entry.now) (empty (A.Carrier.pending air.now) && empty (W.Carrier.pending wire.now)) tables.entry.now refusal tables.exit.now) }
    ensures book { tables.new.book.now ≡ tables.old.book.now }
    ensures same { SameTables tables.old tables.new }
{
    let group = opening_record(setup, tables, air, wire)?;
    enter_mobiles(tables.mobiles, setup.subscribers);
    shut_stations(tables.stations);
    Ok(group)
}

// The record of the call at first, where the opening is not refused.
pub(crate) fn opening_record<A: Carrier, W: Carrier>(
    setup: &CallSetup<'_>,
    tables: &LentTables<'_>,
    air: &A,
    wire: &W,
) -> Result<GroupCall, Refusal>
    ensures { MatchResult result (λ group. (refusal_at_opening (given_of setup.now.settings setup.now.subscribers.now tables.now) (empty (A.Carrier.pending air.now) && empty (W.Carrier.pending wire.now)) ≡ None) × FirstRecord setup.now.settings (length setup.now.subscribers.now) (length tables.now.stations.now) (length tables.now.book.now) group × AllWritable setup.now.subscribers.now) (λ refusal. refusal_at_opening (given_of setup.now.settings setup.now.subscribers.now tables.now) (empty (A.Carrier.pending air.now) && empty (W.Carrier.pending wire.now)) ≡ Some refusal) }
{
    let group = first_record(
        setup,
        tables.mobiles.len(),
        tables.stations.len(),
        tables.book.len(),
    )?;
    if !air.quiet() || !wire.quiet() {
        return Err(Refusal::NotQuiet);
    }
    Ok(group)
}

// The checks of an opening but for the carriers, by the lengths of the tables, so that a caller who has none yet can ask: the first that fails,
// if one does.
pub fn check_opening(
    setup: &CallSetup<'_>,
    rows: usize,
    stations: usize,
    places: usize,
) -> Result<(), Refusal>
    ensures { MatchResult result (λ _. opening_check setup.now.settings setup.now.subscribers.now rows stations places true ≡ None) (λ refusal. opening_check setup.now.settings setup.now.subscribers.now rows stations places true ≡ Some refusal) }
{
    first_record(setup, rows, stations, places)?;
    Ok(())
}

// The record of the call at first, where none of those checks fails.
fn first_record(
    setup: &CallSetup<'_>,
    rows: usize,
    stations: usize,
    places: usize,
) -> Result<GroupCall, Refusal>
    ensures { MatchResult result (λ group. (opening_check setup.now.settings setup.now.subscribers.now rows stations places true ≡ None) × FirstRecord setup.now.settings (length setup.now.subscribers.now) stations places group × AllWritable setup.now.subscribers.now) (λ refusal. opening_check setup.now.settings setup.now.subscribers.now rows stations places true ≡ Some refusal) }
{
    let mobiles = setup.subscribers.len();
    let stations = Stations::new(stations as u64).ok_or(Refusal::Table)?;
    // before the identities and the settings, without which there is no record that could check them
    if rows != mobiles || mobiles < 1 || mobiles > 200 || places < 1 || places > 4096 {
        return Err(Refusal::Table);
    }
    if !subscribers_good(setup.subscribers, stations) {
        return Err(Refusal::Identity);
    }
    let settings = Settings::try_from(setup.settings)?;
    Ok(GroupCall::new(settings, mobiles, stations, places).unwrap())
}

// Every identity in its limits and different from the others, every mobile in the cell of a station of the call.
fn subscribers_good(subscribers: &[Subscriber], stations: Stations) -> bool
    ensures good { result ≡ good_subscribers stations.count subscribers.now }
    ensures writable { result ≡ true → AllWritable subscribers.now }
{
    let mut rest = subscribers;
    while let Some((subscriber, others)) = rest.split_first() {
        if !can_enter(subscriber, stations) || !is_unused(subscriber.identity, others) {
            return false;
        }
        rest = others;
    }
    true
}

// An identity in its limits, and a station of the call.
fn can_enter(subscriber: &Subscriber, stations: Stations) -> bool
    ensures { result ≡ (identity_in_limits subscriber.now.identity && is_there subscriber.now.station stations.count) }
{
    1 <= subscriber.identity
        && subscriber.identity <= u64::from(u32::MAX)
        && 1 <= subscriber.station
        && subscriber.station <= u64::from(stations.count())
}

// No other mobile has the identity.
fn is_unused(identity: u64, others: &[Subscriber]) -> bool
    ensures { result ≡ unused identity others.now }
{
    others.iter().all(|other| identity != other.identity)
}
