// What a step of the anchor gives.
ghost use Rattle.std.specs.Prelude.{◌≡◌, []};
ghost use Rattle.messages.specs.Posts.{posts};

use messages::Outbox;

#[derive(Clone, Copy, PartialEq, Eq, Debug)]
pub enum AnchorOutcome {
    Ignored,
    Acted,
    // rejected, since the book is full
    Full,
}

#[derive(Clone, Copy)]
pub struct AnchorStep {
    // the last grant's number, 0 where there is none; no Option, since the next grant's number is this plus one
    pub last: u32,
    pub outcome: AnchorOutcome,
    pub outbox: Outbox,
}

// Why the anchor did not release.
#[derive(Clone, Copy, PartialEq, Eq, Debug)]
pub enum AnchorRefusal {
    // a grant stands
    NotFree,
}

// Nothing changes, and nothing is said.
pub(crate) fn ignore(last: u32) -> AnchorStep
    ensures { (result.last ≡ last) × (posts result.outbox ≡ []) × (result.outcome ≡ AnchorOutcome.Ignored) }
{
    AnchorStep {
        last,
        outcome: AnchorOutcome::Ignored,
        outbox: Outbox::new(),
    }
}

// The last grant has this number then, and this is said.
pub(crate) fn acted(last: u32, outbox: Outbox) -> AnchorStep
    ensures { (result.last ≡ last) × (result.outbox ≡ outbox) × (result.outcome ≡ AnchorOutcome.Acted) }
{
    AnchorStep {
        last,
        outcome: AnchorOutcome::Acted,
        outbox,
    }
}
