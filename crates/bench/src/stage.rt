// A list of calls played on fresh tables with the talker priorities, and its lines.
ghost use Rattle.std.specs.Prelude.{◌≤◌};

use super::given::{pair, settings};
use super::lines::{print_answers, print_opening};
use anchor::Entry;
use call::{Answer, Call, CallSetup};
use carriers::Carrier;
use dispatch::LentTables;
use engine::conduct;
use mobile::Mobile;
use schemes::Priorities;
use station::Station;
use std::io;

// So many stations, mobile 1 in the cell of the first and mobile 2 in that of the last, and a book of so many places.
pub(crate) fn play<
    const STATIONS: usize,
    const PLACES: usize,
    const CALLS: usize,
    A: Carrier,
    W: Carrier,
>(rt: &HostRuntime, air: &mut A, wire: &mut W, calls: &[Call; CALLS]) -> io::Result<()>
    requires { (STATIONS ≤ 8) × ((PLACES ≤ 4096) × (CALLS ≤ 40)) }
{
    let mut answers = [Answer::default(); CALLS];
    let mut stations = [Station::default(); STATIONS];
    let mut book = [Entry::default(); PLACES];
    let mut tables = LentTables {
        mobiles: &mut [Mobile::default(); 2],
        stations: &mut stations,
        book: &mut book,
    };
    let setup = CallSetup {
        settings: settings(),
        subscribers: &pair(STATIONS as u64),
    };
    let opened = conduct(
        &setup,
        &mut tables,
        &Priorities,
        air,
        wire,
        calls,
        &mut answers,
    );
    print_opening(rt, &opened)?;
    if opened.is_err() {
        return Ok(());
    }
    print_answers(rt, 1, &answers)
}
