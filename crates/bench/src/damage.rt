// Tables that their owner lends in another length, with rows swapped, and with a clock off its grid.
ghost use Rattle.std.specs.Prelude.{◌≤◌};

use super::calls;
use super::given::{pair, settings};
use super::lines::{print_answers, print_opening};
use anchor::Entry;
use call::{Answer, Call, CallSetup, GroupCall};
use carriers::Queue;
use dispatch::LentTables;
use engine::{OngoingCall, open};
use ether::Ether;
use mobile::Mobile;
use schemes::Priorities;
use station::{ClockRow, Station};
use std::io;

// What the owner of a group call has: its record, the tables, and the carriers. No method hands out the OngoingCall: tried, and the check
// does not cover a method that hands out slices of these arrays.
#[derive(Drop)]
struct Owner {
    group: GroupCall,
    mobiles: [Mobile; 2],
    stations: [Station; 2],
    book: [Entry; 4],
    air: Ether,
    wire: Queue,
}

// Two stations, a mobile in the cell of each.
pub(crate) fn damaged_tables(rt: &HostRuntime) -> anyhow::Result<()> {
    rt.println("Tables of another length")?;
    let air = Ether::new(rt.alloc())?;
    let wire = Queue::new(rt.alloc())?;
    let mut mobiles = [Mobile::default(); 2];
    let mut stations = [Station::default(); 2];
    let mut book = [Entry::default(); 4];
    let mut tables = LentTables {
        mobiles: &mut mobiles,
        stations: &mut stations,
        book: &mut book,
    };
    let setup = CallSetup {
        settings: settings(),
        subscribers: &pair(2),
    };
    let opened = open(&setup, &mut tables, &air, &wire);
    print_opening(rt, &opened)?;
    if let Ok(group) = opened {
        let mut owner = Owner {
            group,
            mobiles,
            stations,
            book,
            air,
            wire,
        };
        free_the_floor(rt, &mut owner)?;
        lend_less(rt, &mut owner)?;
        swap_rows(rt, &mut owner)?;
        break_clocks(rt, &mut owner)?;
    }
    Ok(())
}

// By single calls.
fn free_the_floor(rt: &HostRuntime, owner: &mut Owner) -> io::Result<()> {
    let mut ongoing = OngoingCall {
        group: &mut owner.group,
        mobiles: &mut owner.mobiles,
        stations: &mut owner.stations,
        book: &mut owner.book,
        scheme: &Priorities,
        air: &mut owner.air,
        wire: &mut owner.wire,
    };
    let answers = [
        ongoing.release(0),
        ongoing.station_hears_wire(0, 1),
        ongoing.mobile_hears(10, 1),
    ];
    print_answers(rt, 1, &answers)
}

// One row fewer of stations, of mobiles, and of the book.
fn lend_less(rt: &HostRuntime, owner: &mut Owner) -> io::Result<()> {
    let answers = [
        ask_on(owner, 2, 1, 4),
        ask_on(owner, 1, 2, 4),
        ask_on(owner, 2, 2, 3),
    ];
    print_answers(rt, 4, &answers)
}

// With so many rows of each table.
fn ask_on(owner: &mut Owner, mobiles: usize, stations: usize, places: usize) -> Answer
    requires { (mobiles ≤ 2) × ((stations ≤ 2) × (places ≤ 4)) }
{
    let (rows, cells, book) = (
        &mut owner.mobiles[..],
        &mut owner.stations[..],
        &mut owner.book[..],
    );
    let mut ongoing = OngoingCall {
        group: &mut owner.group,
        mobiles: &mut rows[..mobiles],
        stations: &mut cells[..stations],
        book: &mut book[..places],
        scheme: &Priorities,
        air: &mut owner.air,
        wire: &mut owner.wire,
    };
    ongoing.ask(20, 1, 33, 0)
}

// Mobile 1 is 7002 in cell 2 from here on, mobile 2 is 7001 in cell 1.
fn swap_rows(rt: &HostRuntime, owner: &mut Owner) -> io::Result<()> {
    rt.println("Two mobiles' rows swapped")?;
    owner.mobiles.swap(0, 1);
    go_on(rt, owner, 7, &swapped_calls())
}

// Station 2 is Shut, and its clock is not looked at. Station 1 is Free: its clock goes from 0, with a notice due at 200.
fn break_clocks(rt: &HostRuntime, owner: &mut Owner) -> io::Result<()> {
    rt.println("The clock of a Shut station off its grid")?;
    owner.stations[1].clock = ClockRow { start: 9, due: 3 };
    go_on(rt, owner, 10, &shut_calls())?;
    rt.println("The clock of a Free station off its grid")?;
    let sound = owner.stations[0].clock;
    owner.stations[0].clock = ClockRow { start: 0, due: 201 };
    go_on(rt, owner, 12, &refused_calls())?;
    rt.println("The clock put right")?;
    owner.stations[0].clock = sound;
    go_on(rt, owner, 22, &repaired_calls())
}

// Plays the list, and prints its lines from the number `first` on.
fn go_on<const CALLS: usize>(
    rt: &HostRuntime,
    owner: &mut Owner,
    first: u64,
    calls: &[Call; CALLS],
) -> io::Result<()>
    requires { CALLS ≤ 10 }
{
    let mut ongoing = OngoingCall {
        group: &mut owner.group,
        mobiles: &mut owner.mobiles,
        stations: &mut owner.stations,
        book: &mut owner.book,
        scheme: &Priorities,
        air: &mut owner.air,
        wire: &mut owner.wire,
    };
    let mut answers = [Answer::default(); CALLS];
    if ongoing.play(calls, &mut answers).is_err() {
        return Ok(());
    }
    print_answers(rt, first, &answers)
}

fn swapped_calls() -> [Call; 3] {
    [
        calls::ask(20, 2, 33, 0),
        calls::ask(20, 1, 44, 0),
        calls::station_hears_air(30, 1),
    ]
}

fn shut_calls() -> [Call; 2] {
    [
        calls::station_timer(30, 2),
        calls::station_hears_wire(35, 2),
    ]
}

// All ten, at a later time than those that follow them.
fn refused_calls() -> [Call; 10] {
    [
        calls::ask(900, 1, 44, 0),
        calls::finish(900, 1),
        calls::mobile_hears(900, 1),
        calls::mobile_timer(900, 1),
        calls::station_hears_air(900, 2),
        calls::station_hears_wire(900, 2),
        calls::station_timer(900, 2),
        calls::radio_loss(900, 2),
        calls::anchor_hears(900),
        calls::release(900),
    ]
}

fn repaired_calls() -> [Call; 10] {
    [
        calls::anchor_hears(40),
        calls::station_hears_wire(50, 1),
        calls::mobile_hears(60, 2),
        calls::mobile_hears(60, 2),
        calls::station_hears_air(70, 1),
        calls::mobile_hears(80, 2),
        calls::mobile_hears(80, 2),
        calls::mobile_hears(90, 1),
        calls::station_hears_wire(100, 2),
        calls::mobile_hears(110, 1),
    ]
}
