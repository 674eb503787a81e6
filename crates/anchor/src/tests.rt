// Short runs of the anchor, with three stations and a book of three places.
use super::{AnchorOutcome, AnchorStep, End, Entry, Mark, Stations, hear};
use messages::{Cause, Kind, Message, Post, StationKind};
use schemes::Priorities;
use std::test::Fail;

fn blank() -> Entry {
    Entry {
        station: 9,
        reference: 9,
        rank: 9,
        mark: Mark::Preempts,
        identity: 9,
        end: End::Preempted,
    }
}

fn says(step: &AnchorStep, place: usize, kind: StationKind, station: u16, grant: u32) -> bool {
    match step.outbox.as_slice().get(place) {
        Some(Post::Wire(m)) => {
            m.kind == Kind::Station(kind) && m.address == station && m.grant == grant
        }
        _ => false,
    }
}

fn count_said(step: &AnchorStep) -> usize {
    step.outbox.as_slice().len()
}

fn heard(book: &mut [Entry], last: u32, message: Message) -> Result<AnchorStep, Fail> {
    let stations = Stations::new(3).ok_or_else(|| Fail::new("three stations"))?;
    Ok(hear(book, last, message, stations, &Priorities))
}

// An equal REQUEST is answered with the standing grant again.
#[test]
fn equal_request(rt: HostRuntime) -> Result<(), Fail> {
    let mut book = [blank(); 3];
    let first = heard(&mut book, 0, Message::request(2, 7, 0))?;
    assert!(rt; says(&first, 0, StationKind::Acknowledge, 2, 1));
    assert!(rt; says(&first, 1, StationKind::Seized, 1, 1));
    assert!(rt; says(&first, 2, StationKind::Seized, 3, 1));
    assert!(rt; count_said(&first) == 3);
    let again = heard(&mut book, first.last, Message::request(2, 7, 0))?;
    assert!(rt; again.last == 1);
    assert!(rt; says(&again, 0, StationKind::Acknowledge, 2, 1));
    assert!(rt; count_said(&again) == 1);
    Ok(())
}

// Privileged against privileged: REJECT, and what stands.
#[test]
fn equal_rank(rt: HostRuntime) -> Result<(), Fail> {
    let mut book = [blank(); 3];
    let first = heard(&mut book, 0, Message::request(2, 7, 1))?;
    let second = heard(&mut book, first.last, Message::request(3, 8, 1))?;
    assert!(rt; second.last == 1);
    assert!(rt; second.outcome == AnchorOutcome::Acted);
    assert!(rt; says(&second, 0, StationKind::Reject, 3, 0));
    assert!(rt; says(&second, 1, StationKind::Seized, 3, 1));
    assert!(rt; count_said(&second) == 2);
    Ok(())
}

// A higher rank ends the former grant as pre-empted.
#[test]
fn higher_rank(rt: HostRuntime) -> Result<(), Fail> {
    let mut book = [blank(); 3];
    let first = heard(&mut book, 0, Message::request(2, 7, 1))?;
    let second = heard(&mut book, first.last, Message::request(3, 8, 2))?;
    assert!(rt; second.last == 2);
    assert!(rt; book[0].end.number() == 4);
    assert!(rt; book[0].mark.number() == 1);
    assert!(rt; book[1].end.number() == 0);
    assert!(rt; book[1].mark.number() == 0);
    assert!(rt; book[1].station == 3);
    Ok(())
}

// A full book: REJECT alone, and the standing grant still stands.
#[test]
fn full_book(rt: HostRuntime) -> Result<(), Fail> {
    let mut book = [blank(); 1];
    let first = heard(&mut book, 0, Message::request(2, 7, 1))?;
    let second = heard(&mut book, first.last, Message::request(3, 8, 2))?;
    assert!(rt; second.last == 1);
    assert!(rt; second.outcome == AnchorOutcome::Full);
    assert!(rt; says(&second, 0, StationKind::Reject, 3, 0));
    assert!(rt; count_said(&second) == 1);
    assert!(rt; book[0].end.number() == 0);
    Ok(())
}

// A RELEASE INDICATION that comes late is answered with what stands.
#[test]
fn late_indication(rt: HostRuntime) -> Result<(), Fail> {
    let mut book = [blank(); 3];
    let first = heard(&mut book, 0, Message::request(2, 7, 1))?;
    let second = heard(&mut book, first.last, Message::request(3, 8, 2))?;
    let late = Message::release_indication(2, 1, Cause::CallControl);
    let third = heard(&mut book, second.last, late)?;
    assert!(rt; third.last == 2);
    assert!(rt; says(&third, 0, StationKind::Seized, 2, 2));
    assert!(rt; count_said(&third) == 1);
    assert!(rt; book[1].end.number() == 0);
    Ok(())
}

// A grant that ends by a cause; the places past the last grant are left as found.
#[test]
fn past_the_last(rt: HostRuntime) -> Result<(), Fail> {
    let mut book = [blank(); 3];
    let first = heard(&mut book, 0, Message::request(2, 7, 1))?;
    let done = Message::release_indication(2, 1, Cause::RadioFailure);
    let second = heard(&mut book, first.last, done)?;
    assert!(rt; says(&second, 0, StationKind::ReleaseCommand, 1, 1));
    assert!(rt; says(&second, 2, StationKind::ReleaseCommand, 3, 1));
    assert!(rt; book[0].end.number() == 3);
    assert!(rt; book[1].station == 9 && book[1].identity == 9);
    assert!(rt; book[2].station == 9 && book[2].identity == 9);
    Ok(())
}
