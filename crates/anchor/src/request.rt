// Hearing a REQUEST.
ghost use Rattle.std.specs.Prelude.{◌≡◌, ◌≤◌, false, length};
ghost use Rattle.anchor.specs.Anchors.{StepIs, standing, book_full, same_request, turned_away, rejected, granted, request_free, request_above, on_request};

use super::book::{change_last, is_full, standing_grant, write_grant};
use super::entry::{End, Entry, Mark};
use super::indicate::tell_again;
use super::says::{announce, one, restate, two};
use super::stations::Stations;
use super::step::{AnchorOutcome, AnchorStep, acted};
use messages::Message;
use schemes::RankScheme;

// Writes a new grant, and tells every station.
fn grant(
    book: &mut [Entry],
    last: u32,
    message: Message,
    stations: Stations,
    mark: Mark,
) -> AnchorStep
    requires { book_full book.old last ≡ false }
    ensures { StepIs (granted stations.count book.old last message mark) book.new result }
{
    let Message {
        station,
        reference,
        rank,
        ..
    } = message;
    write_grant(
        book,
        last,
        Entry {
            station,
            reference,
            rank,
            mark,
            identity: 0,
            end: End::Stands,
        },
    );
    let number = last + 1;
    acted(number, announce(station, reference, rank, number, stations))
}

// The book is full.
fn turn_away(book: &[Entry], last: u32, message: Message) -> AnchorStep
    ensures { StepIs (turned_away book.now last message) book.now result }
{
    AnchorStep {
        last,
        outcome: AnchorOutcome::Full,
        outbox: one(Message::reject(message.station, message.reference, message.rank)),
    }
}

// The standing grant is not pre-empted.
fn reject(book: &[Entry], last: u32, message: Message, held: Entry) -> AnchorStep
    ensures { StepIs (rejected book.now last message held) book.now result }
{
    let no = Message::reject(message.station, message.reference, message.rank);
    acted(last, two(no, restate(last, message.station, Some(held))))
}

// On a free floor.
fn request_free(book: &mut [Entry], last: u32, message: Message, stations: Stations) -> AnchorStep
    ensures { StepIs (request_free stations.count book.old last message) book.new result }
{
    if is_full(book, last) {
        return turn_away(book, last, message);
    }
    grant(book, last, message, stations, Mark::UplinkWasFree)
}

// With a rank above that of the standing grant.
fn request_above(
    book: &mut [Entry],
    last: u32,
    message: Message,
    stations: Stations,
    held: Entry,
) -> AnchorStep
    requires { (1 ≤ last) × (last ≤ length book.old) }
    ensures { StepIs (request_above stations.count book.old last message held) book.new result }
{
    let end = End::Preempted;
    let ended = Entry { end, ..held };
    if is_full(book, last) {
        return turn_away(book, last, message);
    }
    change_last(book, last, ended);
    grant(book, last, message, stations, Mark::Preempts)
}

// The REQUEST that the standing grant came from.
fn is_same(held: Entry, message: Message) -> bool
    ensures { result ≡ same_request held message }
{
    held.station == message.station
        && (held.reference == message.reference && held.rank == message.rank)
}

pub(crate) fn on_request<S: RankScheme>(
    book: &mut [Entry],
    last: u32,
    message: Message,
    stations: Stations,
    scheme: &S,
) -> AnchorStep
    ensures { StepIs (on_request (S.RankScheme.above scheme.now) stations.count book.old last message (standing book.old last)) book.new result }
{
    match standing_grant(book, last) {
        None => request_free(book, last, message, stations),
        Some(held) => {
            if is_same(held, message) {
                tell_again(book, last, message.station, Some(held))
            } else if scheme.is_above(message.rank, held.rank) {
                request_above(book, last, message, stations, held)
            } else {
                reject(book, last, message, held)
            }
        }
    }
}
