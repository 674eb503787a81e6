// A station at the edges of its rules: number 1, from Shut, with link time 500 and period 200.
use messages::Message;
use schemes::Priorities;
use station::{
    ClockRow, Station, StationMoment, StationOutcome, StationRefusal, StationStep, StationTimers,
};
use timing::{Period, Time, Timer};

// What happens to the station, with its time.
#[derive(Clone, Copy)]
enum Event {
    Wire(u64, Message),
    Air(u64, Message),
    Tick(u64),
    Loss,
    // the clock's due time is damaged
    Damage(u64),
}

#[derive(Clone, Copy, PartialEq, Eq, Debug)]
enum Answer {
    Idle,
    Ignored,
    // how many messages were said
    Acted(usize),
    Broken,
    NotHeld,
}

impl From<StationStep> for Answer {
    fn from(step: StationStep) -> Answer {
        match step.outcome {
            StationOutcome::Idle => Answer::Idle,
            StationOutcome::Ignored => Answer::Ignored,
            StationOutcome::Acted => Answer::Acted(step.outbox.as_slice().len()),
        }
    }
}

impl From<StationRefusal> for Answer {
    fn from(refusal: StationRefusal) -> Answer {
        match refusal {
            StationRefusal::BrokenClock => Answer::Broken,
            StationRefusal::NotHeld => Answer::NotHeld,
        }
    }
}

fn happens(station: &mut Station, event: Event, at: StationMoment) -> Answer {
    let step = match event {
        Event::Wire(_, message) => station.hear_wire(message, at),
        Event::Air(_, message) => station.hear_air(&Priorities, message, at),
        Event::Tick(_) => station.tick(at),
        Event::Loss => station.lose_radio(at.number, at.timers),
        Event::Damage(due) => {
            station.clock = ClockRow { start: 0, due };
            return Answer::Idle;
        }
    };
    step.map_or_else(Answer::from, Answer::from)
}

fn ms(event: Event) -> u64 {
    match event {
        Event::Wire(ms, _) | Event::Air(ms, _) | Event::Tick(ms) => ms,
        Event::Loss | Event::Damage(_) => 0,
    }
}

// The answer to the last event of a list.
fn last_answer(events: &[Event]) -> Option<Answer> {
    let link = Timer::new(500)?;
    let period = Period::new(200)?;
    let timers = StationTimers { link, period };
    let mut station = Station::default();
    let mut answer = Answer::Idle;
    for event in events {
        let at = StationMoment {
            number: 1,
            time: Time::new(ms(*event))?,
            timers,
        };
        answer = happens(&mut station, *event, at);
    }
    Some(answer)
}

// Free at 0, then ACCESS, then Granted for grant 1.
fn granted_then(event: Event, last: Event) -> Option<Answer> {
    let free = Event::Wire(0, Message::release_command(1, 0));
    let access = Event::Air(0, Message::access(1, 33, 0));
    let grant = Event::Wire(0, Message::acknowledge(1, 33, 0, 1));
    last_answer(&[free, access, grant, event, last])
}

// Free at 0, then ACCESS with reference 1 and rank 0.
fn accessed_then(event: Event) -> Option<Answer> {
    let free = Event::Wire(0, Message::release_command(1, 0));
    let access = Event::Air(0, Message::access(1, 1, 0));
    last_answer(&[free, access, event])
}

#[test]
fn numbers_at_top(rt: HostRuntime) {
    let wait = Event::Tick(1);
    assert_eq!(rt;
        granted_then(wait, Event::Wire(1, Message::acknowledge(1, 33, 0, 1))),
        Some(Answer::Ignored),
        "ACKNOWLEDGE again"
    );
    assert_eq!(rt;
        granted_then(wait, Event::Wire(1, Message::seized(1, 2, 1))),
        Some(Answer::Ignored),
        "SEIZED at top"
    );
    assert_eq!(rt;
        granted_then(wait, Event::Wire(1, Message::release_command(1, 1))),
        Some(Answer::Acted(2)),
        "RELEASE COMMAND at top"
    );
}

#[test]
fn one_pending_access(rt: HostRuntime) {
    assert_eq!(rt;
        last_answer(&[Event::Air(0, Message::access(1, 1, 2))]),
        Some(Answer::Ignored),
        "in Shut"
    );
    assert_eq!(rt;
        accessed_then(Event::Air(0, Message::access(1, 2, 2))),
        Some(Answer::Ignored),
        "one is pending"
    );
    assert_eq!(rt;
        accessed_then(Event::Wire(0, Message::reject(1, 1, 0))),
        Some(Answer::Acted(0))
    );
    assert_eq!(rt;
        accessed_then(Event::Wire(0, Message::reject(1, 1, 1))),
        Some(Answer::Ignored),
        "another rank"
    );
}

#[test]
fn deadlines_are_reached_at_equality(rt: HostRuntime) {
    assert_eq!(rt; accessed_then(Event::Tick(199)), Some(Answer::Idle));
    assert_eq!(rt;
        accessed_then(Event::Tick(200)),
        Some(Answer::Acted(1)),
        "a notice"
    );
    assert_eq!(rt;
        granted_then(Event::Tick(400), Event::Tick(499)),
        Some(Answer::Idle)
    );
    assert_eq!(rt;
        granted_then(Event::Tick(400), Event::Tick(500)),
        Some(Answer::Acted(1)),
        "the grant expires"
    );
    assert_eq!(rt;
        granted_then(Event::Loss, Event::Tick(600)),
        Some(Answer::Acted(3)),
        "with a notice"
    );
}

#[test]
fn refusals(rt: HostRuntime) {
    assert_eq!(rt;
        granted_then(Event::Tick(1), Event::Loss),
        Some(Answer::NotHeld),
        "loss in Granted"
    );
    assert_eq!(rt;
        granted_then(Event::Damage(401), Event::Tick(500)),
        Some(Answer::Broken)
    );
    assert_eq!(rt;
        granted_then(Event::Damage(401), Event::Wire(1, Message::seized(1, 2, 9))),
        Some(Answer::Broken)
    );
}
