// The steps of the anchor.
ghost use Rattle.std.specs.Prelude.{◌≡◌, true, false, MatchResult};
ghost use Rattle.anchor.specs.Anchors.{StepIs, floor_free, anchor_heard, released};

use super::book::standing_grant;
use super::confirm::on_confirmation;
use super::entry::Entry;
use super::indicate::on_release_indication;
use super::request::on_request;
use super::says::command_all;
use super::stations::Stations;
use super::step::{AnchorRefusal, AnchorStep, acted, ignore};
use messages::{AnchorKind, Kind, Message};
use schemes::RankScheme;

// Whether no grant stands.
pub fn is_free(book: &[Entry], last: u32) -> bool
    ensures { result ≡ floor_free book.now last }
{
    standing_grant(book, last).is_none()
}

// One message heard. Any but those for the anchor is ignored.
pub fn hear<S: RankScheme>(
    book: &mut [Entry],
    last: u32,
    message: Message,
    stations: Stations,
    scheme: &S,
) -> AnchorStep
    ensures { StepIs (anchor_heard (S.RankScheme.above scheme.now) stations.count book.old last message) book.new result }
{
    match message.kind {
        Kind::Anchor(AnchorKind::Request) => on_request(book, last, message, stations, scheme),
        Kind::Anchor(AnchorKind::Confirmation) => on_confirmation(book, last, message),
        Kind::Anchor(AnchorKind::ReleaseIndication) => {
            on_release_indication(book, last, message, stations)
        }
        Kind::Downlink(_) | Kind::Uplink(_) | Kind::Station(_) => ignore(last),
    }
}

// RELEASE COMMAND to every station, or a refusal where a grant stands.
pub fn release(book: &[Entry], last: u32, stations: Stations) -> Result<AnchorStep, AnchorRefusal>
    ensures { MatchResult result (λ step. (floor_free book.now last ≡ true) × StepIs (released stations.count book.now last) book.now step) (λ _. floor_free book.now last ≡ false) }
{
    if !is_free(book, last) {
        return Err(AnchorRefusal::NotFree);
    }
    Ok(acted(last, command_all(stations, last)))
}
