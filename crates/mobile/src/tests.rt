// The edges of a mobile's steps, under the talker priorities. Outcomes are told by the protocol's own numbers of causes,
// attempts and grants, and 0 or 255, which no cause, attempt or grant here is, stand for none.
use super::row::{
    Attempt, Mobile, MobileMoment, MobileOutcome, MobileStep, MobileTimers, State, TalkRequest,
    Uplink,
};
use messages::Message;
use schemes::Priorities;
use timing::{Time, Timer};

fn moment(ms: u64) -> Option<MobileMoment> {
    Some(MobileMoment {
        time: Time::new(ms)?,
        timers: MobileTimers {
            t3128: Timer::new(4000)?,
            t3130: Timer::new(1000)?,
            link: Timer::new(2000)?,
        },
    })
}

fn mobile(state: State, uplink: Uplink) -> Mobile {
    Mobile {
        identity: 77,
        station: 3,
        allowed: 5,
        state,
        uplink,
    }
}

fn asking(attempt: Attempt) -> State {
    State::Asks {
        attempt,
        reference: 9,
        rank: 1,
        deadline: 1000,
    }
}

// The cause of a rejection, and 0 for any other outcome.
fn cause(step: MobileStep) -> u8 {
    match step.outcome {
        MobileOutcome::Rejected(why) => why.cause(),
        _ => 0,
    }
}

// The number of the attempt that starts, and 0 where none does.
fn attempt(step: MobileStep) -> u8 {
    match step.outcome {
        MobileOutcome::Attempt(attempt) => attempt.number(),
        _ => 0,
    }
}

// The grant of the talk that ends, and 0 where none does.
fn ended(step: MobileStep) -> u32 {
    match step.outcome {
        MobileOutcome::TalkEnded(grant) => grant,
        _ => 0,
    }
}

// What the timer gives at a time, on an uplink that is busy with a normal talker.
fn timed(state: State, ms: u64) -> Option<MobileStep> {
    let mut row = mobile(state, Uplink::Busy { rank: 0 });
    Some(row.timer(moment(ms)?, &Priorities))
}

fn cause_at(state: State, ms: u64) -> u8 {
    timed(state, ms).map_or(255, cause)
}

// The causes just before the deadline and at it.
fn causes_around(state: State) -> (u8, u8) {
    (cause_at(state, 999), cause_at(state, 1000))
}

fn attempt_at(state: State, ms: u64) -> u8 {
    timed(state, ms).map_or(255, attempt)
}

fn heard(state: State, message: Message) -> Option<MobileStep> {
    let mut row = mobile(state, Uplink::Unknown);
    Some(row.hear(message, moment(500)?, &Priorities))
}

fn cause_heard(state: State, message: Message) -> u8 {
    heard(state, message).map_or(255, cause)
}

fn ended_heard(state: State, message: Message) -> u32 {
    heard(state, message).map_or(255, ended)
}

// The attempt that starts when its user asks at a time, where FREE was heard at 100.
fn asked_at(ms: u64) -> Option<u8> {
    let mut row = mobile(State::Listens, Uplink::Free { since: 100 });
    let request = TalkRequest {
        reference: 9,
        rank: 1,
    };
    let step = row.ask(request, moment(ms)?, &Priorities).ok()?;
    Some(attempt(step))
}

#[test]
fn deadlines_are_reached_at_equality(rt: HostRuntime) {
    let waits = State::Waits {
        reference: 9,
        rank: 1,
        deadline: 1000,
    };
    let links = State::Links {
        grant: 5,
        deadline: 1000,
    };
    assert_eq!(rt; causes_around(waits), (0, 1));
    assert_eq!(rt; causes_around(links), (0, 5));
    assert_eq!(rt; causes_around(asking(Attempt::Third)), (0, 3));
}

#[test]
fn attempts_follow_each_other(rt: HostRuntime) {
    assert_eq!(rt; attempt_at(asking(Attempt::First), 999), 0);
    assert_eq!(rt; attempt_at(asking(Attempt::First), 1000), 2);
    assert_eq!(rt; attempt_at(asking(Attempt::Second), 1000), 3);
}

#[test]
fn release_ends_its_grant_and_those_before(rt: HostRuntime) {
    let talks = State::Talks { grant: 5 };
    assert_eq!(rt; ended_heard(talks, Message::release(3, 4)), 0);
    assert_eq!(rt; ended_heard(talks, Message::release(3, 5)), 5);
    assert_eq!(rt; ended_heard(talks, Message::release(3, 6)), 5);
}

#[test]
fn grant_and_busy_while_asking(rt: HostRuntime) {
    let asks = asking(Attempt::First);
    assert_eq!(rt; cause_heard(asks, Message::grant(3, 9, 1, 5)), 0);
    assert_eq!(rt; cause_heard(asks, Message::grant(3, 9, 2, 5)), 4);
    assert_eq!(rt; cause_heard(asks, Message::busy(3, 0)), 0);
    assert_eq!(rt; cause_heard(asks, Message::busy(3, 1)), 2);
}

#[test]
fn free_counts_for_479_milliseconds(rt: HostRuntime) {
    assert_eq!(rt; asked_at(579), Some(1));
    assert_eq!(rt; asked_at(580), Some(0));
}
