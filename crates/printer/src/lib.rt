// What a playlist prints.
#![tactic(auto)]

ghost use Rattle.std.specs.Prelude.{◌≡◌, List, ◌++◌, IfOk, Ok, OnOk};
ghost use Rattle.playlist.specs.Collections.{collected, held, no_records};
ghost use Rattle.playlist.specs.Forms.{Entry};
ghost use Rattle.playlist.specs.Entries.{reading};
ghost use Rattle.printer.specs.Playlists.{printed, printed_entries};

use call::{Answer, CallSetup};
use playlist::{Playlist, ReadError, Reader, read};
use printing::put_rows;
use refused::{put_fault, put_refused};
use session::{SessionError, SessionPlan, play_session};
use std::alloc::{AllocError, Global};

mod printing;
mod refused;
mod rows;

// Reads the text whole, plays it, and gives what it prints. Its only error is want of memory.
pub fn print(heap: Global, text: &[u8]) -> Result<Vec<u8>, AllocError>
    ensures { IfOk result (λ out. out.items ≡ printed text.now) }
{
    let mut out = Vec::with_capacity(heap, 4096)?;
    // want of memory is the only error that a print has, so it is taken out of the error of reading, and below out of that of playing
    match read(heap, text) {
        Ok(playlist) => put_played(heap, &mut out, text, &playlist)?,
        Err(ReadError::Fault(fault)) => put_fault(&mut out, &fault)?,
        Err(ReadError::Memory(failed)) => return Err(failed),
    }
    Ok(out)
}

// Of a text that was read into this playlist.
fn put_played(
    heap: Global,
    out: &mut Vec<u8>,
    text: &[u8],
    playlist: &Playlist,
) -> Result<(), AllocError>
    ensures { OnOk result (((entries : List Entry) → reading text.now ≡ Ok entries → held playlist.now ≡ collected no_records entries → out.new.items ≡ out.old.items ++ printed_entries entries)) }
{
    let reader = Reader::new(text);
    let plan = SessionPlan {
        setup: CallSetup {
            settings: playlist.settings,
            subscribers: &playlist.subscribers,
        },
        roles: &playlist.roles,
        stations: playlist.stations,
        calls: &playlist.calls,
    };
    match play_session(heap, &plan) {
        Ok(answers) => put_rows(out, reader, &answers),
        Err(SessionError::Refused(refusal)) => put_refused(out, reader, &Answer::from(refusal)),
        Err(SessionError::Memory(failed)) => Err(failed),
    }
}
