// An air that lets old messages be heard again.
use super::calls::{
    anchor_hears, ask, finish, mobile_hears, release, station_hears_air, station_hears_wire,
    station_timer,
};
use super::stage::play;
use call::Call;
use carriers::Queue;
use script::Script;

// What each hearing of the air picks, by its place among the messages said: 0 FREE, 1 ACCESS, 2 GRANT, 3 BUSY, 4 TALKER INDICATION, 5 UA and
// 6 END of mobile 1's talk, 7 FREE, 8 ACCESS and 9 TALKER INDICATION of mobile 2.
const PICKS: [usize; 16] = [0, 0, 1, 2, 4, 5, 6, 7, 2, 9, 5, 4, 6, 1, 9, 4];

// Mobile 1 talks and ends. Mobile 2 asks with the same reference and rank, and hears the old GRANT and the old UA; the station hears the old
// messages of both, and an old ACCESS brings a grant that nobody takes.
pub(crate) fn old_messages(rt: &HostRuntime) -> anyhow::Result<()> {
    rt.println("Old messages heard again")?;
    let mut air = Script::new(rt.alloc(), PICKS.to_vec(rt.alloc())?);
    let mut wire = Queue::new(rt.alloc())?;
    play::<1, 4, _, _, _>(rt, &mut air, &mut wire, &old_calls())?;
    Ok(())
}

fn old_calls() -> [Call; 33] {
    [
        release(0),
        station_hears_wire(0, 1),
        mobile_hears(10, 1),
        mobile_hears(10, 2),
        ask(20, 1, 33, 0),
        station_hears_air(30, 1),
        anchor_hears(40),
        station_hears_wire(50, 1),
        mobile_hears(60, 1),
        station_hears_air(70, 1),
        anchor_hears(80),
        mobile_hears(90, 1),
        finish(100, 1),
        station_hears_air(110, 1),
        anchor_hears(120),
        station_hears_wire(130, 1),
        mobile_hears(140, 2),
        ask(150, 2, 33, 0),
        mobile_hears(160, 2),
        station_hears_air(170, 1),
        mobile_hears(180, 2),
        station_hears_air(190, 1),
        station_hears_air(190, 1),
        station_hears_air(200, 1),
        anchor_hears(210),
        station_hears_wire(220, 1),
        station_hears_air(230, 1),
        station_hears_air(230, 1),
        station_timer(720, 1),
        anchor_hears(730),
        anchor_hears(730),
        station_hears_wire(740, 1),
        station_hears_wire(740, 1),
    ]
}
