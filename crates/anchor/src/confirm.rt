// Hearing a CONFIRMATION.
ghost use Rattle.anchor.specs.Anchors.{StepIs, standing, on_confirmation};

use super::book::{change_last, standing_grant};
use super::entry::Entry;
use super::step::{AnchorStep, acted, ignore};
use messages::{Message, Outbox};

// The identity is written once, for the standing grant.
pub(crate) fn on_confirmation(book: &mut [Entry], last: u32, message: Message) -> AnchorStep
    ensures { StepIs (on_confirmation book.old last message (standing book.old last)) book.new result }
{
    match standing_grant(book, last) {
        None => ignore(last),
        Some(held) => {
            if message.grant == last && held.identity == 0 {
                let identity = message.identity;
                change_last(book, last, Entry { identity, ..held });
                acted(last, Outbox::new())
            } else {
                ignore(last)
            }
        }
    }
}
