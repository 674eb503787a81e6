// Talks in two cells, over a Queue and an Ether.
ghost use Rattle.std.specs.Prelude.{◌≤◌};

use super::calls::{
    anchor_hears, ask, finish, mobile_hears, release, station_hears_air, station_hears_wire,
};
use super::stage::play;
use call::Call;
use carriers::Queue;
use ether::Ether;

// A request for the floor, up to the grant.
pub(crate) fn worked_run(rt: &HostRuntime) -> anyhow::Result<()> {
    rt.println("A worked run over Queue and Ether")?;
    let calls = [
        release(0),
        station_hears_wire(0, 1),
        mobile_hears(10, 1),
        ask(20, 1, 33, 0),
        station_hears_air(30, 1),
        anchor_hears(40),
    ];
    play_two_cells(rt, &calls)
}

// Mobile 1 talks; mobile 2 asks with the emergency rank and takes the floor.
pub(crate) fn pre_emption(rt: &HostRuntime) -> anyhow::Result<()> {
    rt.println("A pre-emption")?;
    play_two_cells(rt, &emergency_calls())
}

fn play_two_cells<const CALLS: usize>(rt: &HostRuntime, calls: &[Call; CALLS]) -> anyhow::Result<()>
    requires { CALLS ≤ 40 }
{
    let mut air = Ether::new(rt.alloc())?;
    let mut wire = Queue::new(rt.alloc())?;
    play::<2, 4, _, _, _>(rt, &mut air, &mut wire, calls)?;
    Ok(())
}

fn emergency_calls() -> [Call; 32] {
    [
        release(0),
        station_hears_wire(0, 1),
        station_hears_wire(0, 2),
        mobile_hears(10, 1),
        mobile_hears(10, 2),
        ask(20, 1, 33, 0),
        station_hears_air(30, 1),
        anchor_hears(40),
        station_hears_wire(50, 1),
        mobile_hears(60, 1),
        station_hears_air(70, 1),
        anchor_hears(80),
        station_hears_wire(85, 2),
        mobile_hears(90, 1),
        mobile_hears(95, 1),
        mobile_hears(100, 2),
        ask(110, 2, 44, 2),
        station_hears_air(120, 2),
        anchor_hears(130),
        station_hears_wire(140, 1),
        station_hears_wire(145, 2),
        mobile_hears(150, 1),
        mobile_hears(160, 2),
        station_hears_air(170, 2),
        anchor_hears(180),
        mobile_hears(185, 2),
        mobile_hears(190, 2),
        finish(200, 2),
        station_hears_air(210, 2),
        anchor_hears(220),
        station_hears_wire(230, 1),
        station_hears_wire(230, 2),
    ]
}
