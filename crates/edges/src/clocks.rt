// The notice clock and the limits of times.
use station::{Clock, ClockRow};
use timing::{Period, Time, Timer};

// The due time after a clock that started at 1000 with a period of 200 was read; 0, which is due nowhere here, where a time is not in its
// limits.
fn due_after_read(at: u64) -> u64 {
    clock_read(at).map_or(0, |clock| clock.due())
}

fn clock_read(at: u64) -> Option<Clock> {
    let mut clock = Clock::started(Time::new(1000)?, Period::new(200)?);
    clock.read(Time::new(at)?);
    Some(clock)
}

#[test]
fn a_late_read_keeps_the_grid(rt: HostRuntime) {
    assert_eq!(rt; due_after_read(1199), 1200);
    assert_eq!(rt; due_after_read(1200), 1400);
    assert_eq!(rt; due_after_read(1600), 1800);
    assert_eq!(rt; due_after_read(1630), 1800);
}

fn sound(start: u64, due: u64, period: u64) -> bool {
    let row = ClockRow { start, due };
    Period::new(period).is_some_and(|period| Clock::from_row(row, period).is_some())
}

#[test]
fn a_broken_clock_is_refused(rt: HostRuntime) {
    assert!(rt; sound(1000, 1400, 200));
    assert!(rt; !sound(1000, 1400, 0), "period 0");
    assert!(rt; !sound(1000, 1000, 200), "due at the start");
    assert!(rt; !sound(1000, 800, 200), "due before the start");
    assert!(rt; !sound(1000, 1399, 200), "off the grid");
}

#[test]
fn limits_of_times(rt: HostRuntime) {
    assert!(rt; Time::new(1 << 40).is_some() && Time::new((1 << 40) + 1).is_none());
    assert!(rt; Period::new(20).is_some() && Period::new(19).is_none());
    assert!(rt; Period::new(400).is_some() && Period::new(401).is_none());
    assert!(rt; Timer::new(100).is_some() && Timer::new(99).is_none());
    assert!(rt; Timer::new(60000).is_some() && Timer::new(60001).is_none());
}
