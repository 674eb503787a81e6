// A long run of timer calls on one station, by single calls of the engine.
use super::given::{settings, subscriber};
use super::lines::print_answer;
use anchor::Entry;
use anyhow::anyhow;
use call::{Answer, CallSetup, Outcome};
use carriers::{Carrier, Queue};
use dispatch::LentTables;
use engine::{OngoingCall, open};
use ether::Ether;
use mobile::Mobile;
use schemes::{Priorities, RankScheme};
use station::Station;
use std::io;

// How the timer calls were answered.
#[derive(Clone, Copy, Default)]
struct Tally {
    said: u32,
    idle: u32,
    last: Answer,
}

impl Tally {
    fn count(&mut self, answer: Answer) {
        match answer.outcome {
            Outcome::Acted(_) => self.said = self.said.saturating_add(1),
            Outcome::Idle => self.idle = self.idle.saturating_add(1),
            _ => {}
        }
        self.last = answer;
    }
}

// The station enters Free at 0. Its 200 timer calls come ever later: the first 2 ms after that, each next one 2 ms more after the one before.
pub(crate) fn late_clock(rt: &HostRuntime) -> anyhow::Result<()> {
    rt.println("A long run with a late clock")?;
    let mut air = Ether::new(rt.alloc())?;
    let mut wire = Queue::new(rt.alloc())?;
    let mut mobiles = [Mobile::default()];
    let mut stations = [Station::default()];
    let mut book = [Entry::default()];
    let mut tables = LentTables {
        mobiles: &mut mobiles,
        stations: &mut stations,
        book: &mut book,
    };
    let setup = CallSetup {
        settings: settings(),
        subscribers: &[subscriber(7001, 1)],
    };
    let mut group = open(&setup, &mut tables, &air, &wire).map_err(|_| anyhow!("not opened"))?;
    let mut ongoing = OngoingCall {
        group: &mut group,
        mobiles: &mut mobiles,
        stations: &mut stations,
        book: &mut book,
        scheme: &Priorities,
        air: &mut air,
        wire: &mut wire,
    };
    ongoing.release(0);
    ongoing.station_hears_wire(0, 1);
    print_tally(rt, run(&mut ongoing))?;
    Ok(())
}

fn run<S: RankScheme, A: Carrier, W: Carrier>(
    ongoing: &mut OngoingCall<'_, '_, '_, S, A, W>,
) -> Tally {
    let mut time: u64 = 0;
    let mut tally = Tally::default();
    for turn in 1..=200u64 {
        time = time.saturating_add(2 * turn);
        tally.count(ongoing.station_timer(time, 1));
    }
    tally
}

// The last timer call is call 202, after the release and the hearing.
fn print_tally(rt: &HostRuntime, tally: Tally) -> io::Result<()> {
    let said = tally.said;
    let idle = tally.idle;
    println!(rt; "notices said\t{said}\nnothing due\t{idle}")?;
    print_answer(rt, 202, tally.last)
}
