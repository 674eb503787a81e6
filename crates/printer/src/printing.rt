// The rows of a playlist whose opening was accepted.
ghost use Rattle.std.specs.Prelude.{◌≡◌, ◌≤◌, ◌++◌, length, IfOk, OnOk};
ghost use Rattle.playlist.specs.Meanings.{meant};
ghost use Rattle.playlist.specs.Stands.{reading_on, stand_of};
ghost use Rattle.printer.specs.Prints.{Printed, line_rows, next_after, opening_before};

use super::rows::{put_answer, put_note};
use call::{Answer, Outcome};
use playlist::{Line, Reader};
use std::alloc::AllocError;

// The rows of all lines, with the answers of its calls. The text was read before, so it has no fault.
pub(crate) fn put_rows(
    out: &mut Vec<u8>,
    mut reader: Reader<'_>,
    answers: &[Answer],
) -> Result<(), AllocError>
    ensures { OnOk result (Printed out.old.items out.new.items answers.now 0 (reading_on (stand_of reader.entry))) }
{
    // how many calls have been printed so far; not every line is a call
    let mut next = 0;
    while let Ok(Some(line)) = reader.next() {
        next = put_line(out, line, answers, next)?;
    }
    put_opening_before(out, next)
}

// The rows of a line, where `next` calls have been printed; it answers how many have been then.
#[tactic(auto, using(crate::proofs::Walking::call_rows, crate::proofs::Walking::call_next, crate::proofs::Appends::onto))]
fn put_line(
    out: &mut Vec<u8>,
    line: Line<'_>,
    answers: &[Answer],
    next: usize,
) -> Result<usize, AllocError>
    ensures { IfOk result (λ n. (out.new.items ≡ out.old.items ++ line_rows answers.now next (meant line.entry)) × (n ≡ next_after answers.now next (meant line.entry))) }
{
    match line {
        Line::Note(bytes) => put_note(out, bytes)?,
        Line::Call(_) => {
            if let Some(answer) = answers.get(next) {
                put_opening_before(out, next)?;
                put_answer(out, next as u64 + 1, answer)?;
                return Ok(next + 1);
            }
        }
        Line::Settings { .. } | Line::Role(_) | Line::Mobile(_) => {}
    }
    Ok(next)
}

fn put_opening_before(out: &mut Vec<u8>, next: usize) -> Result<(), AllocError>
    ensures { OnOk result (out.new.items ≡ out.old.items ++ opening_before next) }
{
    if next == 0 {
        put_answer(out, 0, &Answer::silent(Outcome::Acted(0)))?;
    }
    Ok(())
}
