// Ninety days of one station's notices, a line for each ten days.
#![tactic(auto)]

use anyhow::Context;
use drift::{Lateness, run_days};
use station::Clock;
use timing::{Period, Time};

fn main(rt: HostRuntime) -> anyhow::Result<()> {
    ninety_days(&rt)
}

fn ninety_days(rt: &impl Print) -> anyhow::Result<()> {
    let period = Period::new(200).context("no such period")?;
    let start = Time::new(0).context("no such time")?;
    let mut clock = Clock::started(start, period);
    let mut lateness = Lateness::new(1);
    let mut said: u64 = 0;
    let mut crept: u64 = 0;
    println!(rt; "day\tnotices said\tms off the grid\tms late if restarted after each notice")?;
    for tens in 1..=9u32 {
        let report = run_days(&mut clock, &mut lateness, 10);
        said = said.saturating_add(report.said);
        crept = crept.saturating_add(report.crept);
        let day = tens * 10;
        let worst = report.worst;
        println!(rt; "{day}\t{said}\t{worst}\t{crept}")?;
    }
    Ok(())
}
