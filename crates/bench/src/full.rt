// A grant book that fills.
use super::calls::{
    anchor_hears, ask, finish, mobile_hears, mobile_timer, release, station_hears_air,
    station_hears_wire, station_timer,
};
use super::stage::play;
use call::Call;
use carriers::Queue;
use ether::Ether;

// Mobile 1 has the only grant. The emergency of mobile 2 does not end it, and is turned away on the free floor too.
pub(crate) fn full_book(rt: &HostRuntime) -> anyhow::Result<()> {
    rt.println("A book of one place that fills")?;
    let mut air = Ether::new(rt.alloc())?;
    let mut wire = Queue::new(rt.alloc())?;
    play::<1, 1, _, _, _>(rt, &mut air, &mut wire, &full_calls())?;
    Ok(())
}

fn full_calls() -> [Call; 31] {
    [
        release(0),
        station_hears_wire(0, 1),
        mobile_hears(10, 1),
        mobile_hears(10, 2),
        ask(20, 1, 33, 0),
        station_hears_air(30, 1),
        anchor_hears(40),
        station_hears_wire(50, 1),
        mobile_hears(60, 1),
        station_hears_air(70, 1),
        anchor_hears(80),
        mobile_hears(90, 1),
        mobile_hears(90, 1),
        mobile_hears(100, 2),
        mobile_hears(100, 2),
        ask(110, 2, 44, 2),
        station_hears_air(120, 1),
        anchor_hears(130),
        station_hears_wire(140, 1),
        finish(150, 1),
        station_hears_air(160, 1),
        anchor_hears(170),
        station_hears_wire(180, 1),
        mobile_hears(190, 2),
        mobile_hears(190, 2),
        station_timer(1000, 1),
        mobile_hears(1005, 2),
        mobile_timer(1110, 2),
        station_hears_air(1120, 1),
        anchor_hears(1130),
        station_hears_wire(1140, 1),
    ]
}
