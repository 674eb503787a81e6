// What is said on the carriers after a step.
ghost use Rattle.call.specs.Effects.{Sent};
ghost use Rattle.messages.specs.Posts.{posts};
ghost use Rattle.dispatch.specs.Said.{Said};

use carriers::Carrier;
use messages::{Outbox, Post};

// How many messages the carriers kept, and lost.
#[derive(Clone, Copy)]
pub(crate) struct Delivery {
    pub(crate) kept: u32,
    pub(crate) lost: u32,
}

// Says each message in order, on the air or on the wire. A loop with two counts: a carrier is told each message in turn, and its answer is
// counted as it comes.
pub(crate) fn deliver<A: Carrier, W: Carrier>(
    outbox: &Outbox,
    air: &mut A,
    wire: &mut W,
) -> Delivery
    ensures { Sent A.Carrier.says W.Carrier.says A.Carrier.hears W.Carrier.hears (posts outbox.now) air.old wire.old result.kept result.lost air.new wire.new }
{
    let mut kept = 0;
    let mut lost = 0;
    for post in outbox.as_slice() {
        if say(*post, air, wire) {
            kept += 1;
        } else {
            lost += 1;
        }
    }
    Delivery { kept, lost }
}

// Whether the message was kept.
fn say<A: Carrier, W: Carrier>(post: Post, air: &mut A, wire: &mut W) -> bool
    ensures { Said A.Carrier.says W.Carrier.says post air.old wire.old result air.new wire.new }
{
    match post {
        Post::Air(message) => air.say(message),
        Post::Wire(message) => wire.say(message),
    }
}
