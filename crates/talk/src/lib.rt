// A press to talk, message by message, over an Ether and a Queue: a run with a talk can happen.
#![tactic(auto)]

ghost use Rattle.std.specs.Prelude.{◌≡◌, true, false};
ghost use Rattle.talk.specs.Steps.{Steps, both_quiet, freeing, granting, linking};
ghost use Rattle.talk.specs.Talks.{TalkHappens};

use carriers::{Carrier, Queue};
use ether::Ether;
use messages::Message;

// Addresses, and who listens: the anchor, station 1, its cell, and mobile 1 in it. Numbers, since the steps in specs/Steps.antt name them:
// with the calls of messages that answer these, tried, the proof did not close without two equations more for each hearing.
const ANCHOR: u16 = 0;

const STATION: u16 = 1;

const CELL: u16 = 209;

const MOBILE: u16 = 9;

// From a release to a talk of mobile 1, identity 7001, which asks at rank 0. Done only where both carriers are quiet.
pub fn press_to_talk(air: &mut Ether, wire: &mut Queue) -> bool
    ensures quiet { result ≡ both_quiet air.old wire.old }
    ensures talk { result ≡ true → TalkHappens air.old wire.old air.new wire.new }
    ensures kept { result ≡ false → (air.new ≡ air.old) × (wire.new ≡ wire.old) }
{
    if !air.quiet() || !wire.quiet() {
        return false;
    }
    free_the_floor(air, wire);
    grant_the_floor(air, wire);
    link_the_talker(air, wire);
    true
}

// The anchor releases the floor, and mobile 1 hears that it is free.
fn free_the_floor(air: &mut Ether, wire: &mut Queue)
    ensures { Steps freeing air.old wire.old air.new wire.new }
{
    wire.say(Message::release_command(1, 0));
    let _ = wire.hear(STATION, STATION);
    air.say(Message::free(1));
    let _ = air.hear(CELL, MOBILE);
}

// Mobile 1 asks with reference 33, and station 1 says that it has grant 1.
fn grant_the_floor(air: &mut Ether, wire: &mut Queue)
    ensures { Steps granting air.old wire.old air.new wire.new }
{
    air.say(Message::access(1, 33, 0));
    let _ = air.hear(STATION, STATION);
    wire.say(Message::request(1, 33, 0));
    let _ = wire.hear(ANCHOR, ANCHOR);
    wire.say(Message::acknowledge(1, 33, 0, 1));
    let _ = wire.hear(STATION, STATION);
    air.say(Message::grant(1, 33, 0, 1));
    air.say(Message::busy(1, 0));
}

// Mobile 1 says who it is, and hears that station 1 has it.
fn link_the_talker(air: &mut Ether, wire: &mut Queue)
    ensures { Steps linking air.old wire.old air.new wire.new }
{
    let _ = air.hear(CELL, MOBILE);
    air.say(Message::talker_indication(1, 1, 7001));
    let _ = air.hear(STATION, STATION);
    air.say(Message::ua(1, 1, 7001));
    wire.say(Message::confirmation(1, 1, 7001));
    let _ = air.hear(CELL, MOBILE);
    let _ = air.hear(CELL, MOBILE);
}
