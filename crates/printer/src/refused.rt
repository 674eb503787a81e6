// The rows of a playlist whose opening was refused, and the row of a text that is none.
ghost use Rattle.std.specs.Prelude.{◌≡◌, ◌++◌, OnOk};
ghost use Rattle.playlist.specs.Stands.{reading_on, stand_of};
ghost use Rattle.printer.specs.Prints.{RefusedPrinted};
ghost use Rattle.printer.specs.Rows.{fault_row};

use super::rows::{put_answer, put_note, put_number, put_tabbed};
use call::Answer;
use playlist::{Fault, Line, Reader};
use std::alloc::AllocError;

// The notes before the first call, and then the refusal. It stops at the first call, while `put_rows` goes to the end of the text, so these
// are two loops. The text was read before, so it has no fault.
pub(crate) fn put_refused(
    out: &mut Vec<u8>,
    mut reader: Reader<'_>,
    refusal: &Answer,
) -> Result<(), AllocError>
    ensures { OnOk result (RefusedPrinted out.old.items out.new.items refusal.now (reading_on (stand_of reader.entry))) }
{
    while let Ok(Some(line)) = reader.next() {
        match line {
            Line::Note(bytes) => put_note(out, bytes)?,
            Line::Call(_) => break,
            Line::Settings { .. } | Line::Role(_) | Line::Mobile(_) => {}
        }
    }
    put_answer(out, 0, refusal)
}

#[tactic(auto, using(crate::proofs::Appends::onto))]
pub(crate) fn put_fault(out: &mut Vec<u8>, fault: &Fault) -> Result<(), AllocError>
    ensures { OnOk result (out.new.items ≡ out.old.items ++ fault_row fault.now.line fault.now.field) }
{
    put_number(out, 10)?;
    put_tabbed(out, u64::from(fault.line))?;
    put_tabbed(out, u64::from(fault.field))?;
    out.push(b'\n')?;
    Ok(())
}
