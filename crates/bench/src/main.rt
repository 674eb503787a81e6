// Scenarios of a group call, played over the engine, with a line for each answer.
#![tactic(auto)]

mod calls;
mod contention;
mod damage;
mod full;
mod given;
mod late;
mod lines;
mod replays;
mod stage;
mod talks;

fn main(rt: HostRuntime) -> anyhow::Result<()> {
    play_scenarios(&rt)
}

fn play_scenarios(rt: &HostRuntime) -> anyhow::Result<()> {
    talks::worked_run(rt)?;
    talks::pre_emption(rt)?;
    contention::repeated_acknowledge(rt)?;
    contention::another_rank(rt)?;
    late::late_clock(rt)?;
    full::full_book(rt)?;
    replays::old_messages(rt)?;
    damage::damaged_tables(rt)
}
