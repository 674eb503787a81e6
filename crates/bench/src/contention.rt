// Two mobiles of one cell ask with the same reference.
use super::calls::{
    anchor_hears, ask, finish, mobile_hears, release, station_hears_air, station_hears_wire,
    station_timer,
};
use super::stage::play;
use call::Call;
use carriers::{Fade, Queue};
use ether::Ether;

// Both ask with the same rank, and the wire says the ACKNOWLEDGE, its third message, twice. The wire loses the RELEASE COMMAND after the
// talk, its sixth; the notice that is due next brings it again.
pub(crate) fn repeated_acknowledge(rt: &HostRuntime) -> anyhow::Result<()> {
    rt.println("A repeated ACKNOWLEDGE and a lost RELEASE COMMAND")?;
    let mut marks = [0u8; 64];
    marks[2] = 2;
    marks[5] = 1;
    let mut air = Ether::new(rt.alloc())?;
    let mut wire = Fade::new(Queue::new(rt.alloc())?, marks);
    play::<1, 4, _, _, _>(rt, &mut air, &mut wire, &equal_calls())?;
    Ok(())
}

fn equal_calls() -> [Call; 29] {
    [
        release(0),
        station_hears_wire(0, 1),
        mobile_hears(10, 1),
        mobile_hears(10, 2),
        ask(20, 1, 33, 0),
        ask(20, 2, 33, 0),
        station_hears_air(30, 1),
        station_hears_air(30, 1),
        anchor_hears(40),
        station_hears_wire(50, 1),
        station_hears_wire(55, 1),
        mobile_hears(60, 1),
        mobile_hears(60, 2),
        station_hears_air(70, 1),
        station_hears_air(70, 1),
        anchor_hears(80),
        mobile_hears(90, 1),
        mobile_hears(90, 1),
        mobile_hears(90, 2),
        mobile_hears(95, 2),
        mobile_hears(100, 1),
        mobile_hears(100, 2),
        finish(110, 1),
        station_hears_air(120, 1),
        anchor_hears(130),
        station_hears_wire(140, 1),
        station_timer(250, 1),
        anchor_hears(260),
        station_hears_wire(270, 1),
    ]
}

// Mobile 1 asks with the normal rank, mobile 2 with the emergency rank. The GRANT is for mobile 1; mobile 2 asks again and takes the floor.
pub(crate) fn another_rank(rt: &HostRuntime) -> anyhow::Result<()> {
    rt.println("A GRANT of the same reference and another rank")?;
    let mut air = Ether::new(rt.alloc())?;
    let mut wire = Queue::new(rt.alloc())?;
    play::<1, 4, _, _, _>(rt, &mut air, &mut wire, &unequal_calls())?;
    Ok(())
}

fn unequal_calls() -> [Call; 29] {
    [
        release(0),
        station_hears_wire(0, 1),
        mobile_hears(10, 1),
        mobile_hears(10, 2),
        ask(20, 1, 33, 0),
        ask(20, 2, 33, 2),
        station_hears_air(30, 1),
        station_hears_air(30, 1),
        anchor_hears(40),
        station_hears_wire(50, 1),
        mobile_hears(60, 2),
        mobile_hears(60, 1),
        station_hears_air(70, 1),
        anchor_hears(80),
        mobile_hears(90, 1),
        mobile_hears(90, 1),
        mobile_hears(90, 2),
        mobile_hears(90, 2),
        ask(100, 2, 33, 2),
        station_hears_air(110, 1),
        anchor_hears(120),
        station_hears_wire(130, 1),
        mobile_hears(140, 1),
        mobile_hears(140, 2),
        mobile_hears(140, 2),
        station_hears_air(150, 1),
        mobile_hears(160, 2),
        mobile_hears(160, 2),
        mobile_hears(170, 1),
    ]
}
