// The record of a group call: what its opening fixed, the last grant's number, and the time of the last accepted call.
ghost use Rattle.std.specs.Prelude.{◌≤◌};

use super::settings::Settings;
use anchor::Stations;
use timing::Time;

#[derive(Clone, Copy)]
pub struct GroupCall {
    // the notice period and the timers
    settings: Settings,
    // how many mobiles are entered
    mobiles: usize,
    // how many stations there are
    stations: Stations,
    // how many grants the book can hold
    places: usize,
    // the number of the last grant, 0 before the first; no Option, since the next grant's number is this plus one
    last: u32,
    // the time of the last accepted call, 0 before the first; no Option, since no call is before 0
    time: Time,
    ghost least_mobiles: { 1 ≤ mobiles },
    ghost most_mobiles: { mobiles ≤ 200 },
    ghost least_places: { 1 ≤ places },
    ghost most_places: { places ≤ 4096 },
    ghost within: { last ≤ places },
}

mod changing;
mod reading;
