// Whether a text is a playlist.
ghost use Rattle.std.specs.Prelude.{◌≡◌};
ghost use Rattle.std.specs.Result.{result_err};
ghost use Rattle.playlist.specs.Entries.{fault_in, fault_of};
ghost use Rattle.playlist.specs.Stands.{reading_on, stand_of};

use super::fault::Fault;
use super::reader::Reader;

// The first fault of the text, if it has one: what is asked for, and so an Option.
#[tactic(auto, using(crate::proofs::Standings::reading_first))]
pub fn check(text: &[u8]) -> Option<Fault>
    ensures { result ≡ fault_of text.now }
{
    read_through(Reader::new(text)).err()
}

// Reads all lines, up to a fault. A match, for the time that `Reader::next` tells of.
fn read_through(mut reader: Reader<'_>) -> Result<(), Fault>
    ensures { result_err result ≡ fault_in (reading_on (stand_of reader.entry)) }
{
    loop {
        match reader.next() {
            Ok(Some(_line)) => {}
            Ok(None) => return Ok(()),
            Err(fault) => return Err(fault),
        }
    }
}
