// A text read into its records.
ghost use Rattle.std.specs.Prelude.{◌≡◌, IfOk, OnOk};
ghost use Rattle.playlist.specs.Collections.{ReadAs, after, held, no_records, playlist_of};
ghost use Rattle.playlist.specs.Meanings.{meant};

use super::line::Line;
use super::read_error::ReadError;
use super::reader::Reader;
use super::records::Playlist;
use call::SettingNumbers;
use std::alloc::{AllocError, Global};

// The records of the text, or its first fault. Memory is asked for once for each list, for as many as the text has room for.
// A match, for the time that `Reader::next` tells of.
#[tactic(auto, using(crate::proofs::Standings::reading_first))]
pub fn read(heap: Global, text: &[u8]) -> Result<Playlist, ReadError>
    ensures { ReadAs (playlist_of text.now) result }
{
    let mut playlist = empty(heap, text.len())?;
    let mut reader = Reader::new(text);
    loop {
        match reader.next() {
            Ok(Some(line)) => put(&mut playlist, line)?,
            Ok(None) => return Ok(playlist),
            Err(fault) => return Err(ReadError::from(fault)),
        }
    }
}

// No records yet, and room for those of a text of so many bytes: a call has at least four, a mobile eight.
fn empty(heap: Global, bytes: usize) -> Result<Playlist, AllocError>
    ensures { IfOk result (λ p. held p ≡ no_records) }
{
    let bytes = bytes.min(60_000);
    let roles = Vec::with_capacity(heap, 16)?;
    let subscribers = Vec::with_capacity(heap, bytes / 8 + 1)?;
    let calls = Vec::with_capacity(heap, (bytes / 4 + 1).min(4096))?;
    Ok(Playlist {
        stations: 0,
        settings: SettingNumbers::default(),
        roles,
        subscribers,
        calls,
    })
}

fn put(playlist: &mut Playlist, line: Line<'_>) -> Result<(), AllocError>
    ensures { OnOk result (held playlist.new ≡ after (held playlist.old) (meant line.entry)) }
{
    match line {
        Line::Settings { stations, numbers } => {
            playlist.stations = stations;
            playlist.settings = numbers;
        }
        Line::Role(role) => playlist.roles.push(role)?,
        Line::Mobile(subscriber) => playlist.subscribers.push(subscriber)?,
        Line::Call(call) => playlist.calls.push(call)?,
        Line::Note(_) => {}
    }
    Ok(())
}
