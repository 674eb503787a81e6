// The rows of a call at its opening.
ghost use Rattle.std.specs.Prelude.{◌≡◌, map, length, replicate};
ghost use Rattle.call.specs.Openings.{entered_row};
ghost use Rattle.call.specs.World.{no_station};
ghost use Rattle.engine.specs.Openings.{Writable, AllWritable};

use call::Subscriber;
use mobile::Mobile;
use station::Station;

// Every mobile as its subscriber is entered.
pub(crate) fn enter_mobiles(rows: &mut [Mobile], subscribers: &[Subscriber])
    requires { (length rows.old ≡ length subscribers.now) × (AllWritable subscribers.now) }
    ensures { rows.new ≡ map entered_row subscribers.now }
{
    // a zip with the rows: tried, and the proof did not close
    for (i, subscriber) in subscribers.iter().enumerate() {
        rows[i] = entered(subscriber);
    }
}

// A mobile that listens, and knows nothing of the uplink. No From, since it needs numbers that the opening has judged.
fn entered(subscriber: &Subscriber) -> Mobile
    requires { Writable subscriber.now }
    ensures { result ≡ entered_row subscriber.now }
{
    Mobile {
        identity: subscriber.identity as u32,
        station: subscriber.station as u8,
        allowed: subscriber.allowed,
        ..Mobile::default()
    }
}

// Every station without word from the anchor.
pub(crate) fn shut_stations(rows: &mut [Station])
    ensures { rows.new ≡ replicate (length rows.old) no_station }
{
    rows.fill(Station::default());
}
