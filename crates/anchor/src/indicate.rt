// Hearing a RELEASE INDICATION.
ghost use Rattle.std.specs.Prelude.{◌≤◌, length, Some};
ghost use Rattle.anchor.specs.Anchors.{StepIs, standing, restates, ended_by, on_release_indication};

use super::book::{change_last, standing_grant};
use super::entry::{End, Entry};
use super::says::{command_all, one, restate};
use super::stations::Stations;
use super::step::{AnchorStep, acted};
use messages::Message;

// A station is told again how the floor is.
pub(crate) fn tell_again(book: &[Entry], last: u32, station: u8, held: Option<Entry>) -> AnchorStep
    ensures { StepIs (restates book.now last station held) book.now result }
{
    acted(last, one(restate(last, station, held)))
}

// The standing grant ends with the cause that the message names.
fn end_grant(
    book: &mut [Entry],
    last: u32,
    message: Message,
    stations: Stations,
    held: Entry,
) -> AnchorStep
    requires { (1 ≤ last) × (last ≤ length book.old) }
    ensures { StepIs (ended_by stations.count book.old last message held message.cause) book.new result }
{
    match message.cause {
        None => tell_again(book, last, message.station, Some(held)),
        Some(cause) => {
            let end = End::Ended(cause);
            change_last(book, last, Entry { end, ..held });
            acted(last, command_all(stations, last))
        }
    }
}

// The granted station ends the standing grant; any other is told again how the floor is.
pub(crate) fn on_release_indication(
    book: &mut [Entry],
    last: u32,
    message: Message,
    stations: Stations,
) -> AnchorStep
    ensures { StepIs (on_release_indication stations.count book.old last message (standing book.old last)) book.new result }
{
    match standing_grant(book, last) {
        None => tell_again(book, last, message.station, None),
        Some(held) => {
            if message.grant == last && held.station == message.station {
                end_grant(book, last, message, stations, held)
            } else {
                tell_again(book, last, message.station, Some(held))
            }
        }
    }
}
