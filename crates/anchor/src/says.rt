// What the anchor says in one step.
ghost use Rattle.std.specs.Prelude.{◌≡◌, ◌<◌, ◌≤◌, [], ◌∷◌, ◌++◌, length, if◌then◌else◌, nat_eq};
ghost use Rattle.messages.specs.Messages.{SEIZED};
ghost use Rattle.messages.specs.Posts.{posts};
ghost use Rattle.messages.specs.declared.outbox.Post.TheVariants.{Wire};
ghost use Rattle.anchor.specs.Anchors.{restated};
ghost use Rattle.anchor.specs.Said.{commands, announced};

use super::entry::Entry;
use super::stations::Stations;
use messages::{Message, Outbox, Post};

// One more on the wire, where fewer than ten are said.
fn say(outbox: &mut Outbox, message: Message)
    requires { length (posts outbox.old) < 10 }
    ensures { posts outbox.new ≡ posts outbox.old ++ Wire message ∷ [] }
{
    outbox.push(Post::Wire(message));
}

pub(crate) fn one(message: Message) -> Outbox
    ensures { posts result ≡ Wire message ∷ [] }
{
    Outbox::one(Post::Wire(message))
}

pub(crate) fn two(first: Message, second: Message) -> Outbox
    ensures { posts result ≡ Wire first ∷ Wire second ∷ [] }
{
    Outbox::two(Post::Wire(first), Post::Wire(second))
}

// RELEASE COMMAND to every station. A loop over the stations' own numbers: tried, and the proof did not close.
pub(crate) fn command_all(stations: Stations, grant: u32) -> Outbox
    ensures { posts result ≡ commands grant stations.count }
{
    let mut outbox = Outbox::new();
    for before in 0..stations.count() {
        say(&mut outbox, Message::release_command(before + 1, grant));
    }
    outbox
}

// ACKNOWLEDGE to the granted station, SEIZED to every other. The loop is as that of `command_all`.
pub(crate) fn announce(
    station: u8,
    reference: u16,
    rank: u8,
    grant: u32,
    stations: Stations,
) -> Outbox
    ensures { posts result ≡ announced station reference rank grant stations.count }
{
    let mut outbox = one(Message::acknowledge(station, reference, rank, grant));
    for before in 0..stations.count() {
        say_seized(&mut outbox, station, before + 1, rank, grant);
    }
    outbox
}

// SEIZED, unless it is the granted station.
fn say_seized(outbox: &mut Outbox, granted: u8, station: u8, rank: u8, grant: u32)
    requires { length (posts outbox.old) < 10 }
    ensures { posts outbox.new ≡ (if nat_eq station granted then posts outbox.old else posts outbox.old ++ Wire (SEIZED station rank grant) ∷ []) }
{
    if station != granted {
        say(outbox, Message::seized(station, rank, grant));
    }
}

// What a station is told again.
pub(crate) fn restate(last: u32, station: u8, held: Option<Entry>) -> Message
    ensures { result ≡ restated last station held }
{
    match held {
        None => Message::release_command(station, last),
        Some(entry) => {
            if entry.station == station {
                Message::acknowledge(station, entry.reference, entry.rank, last)
            } else {
                Message::seized(station, entry.rank, last)
            }
        }
    }
}
