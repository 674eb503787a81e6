// Rows of a print, each put at its end.
ghost use Rattle.std.specs.Prelude.{◌≡◌, [], ◌∷◌, ◌++◌, decimal, OnOk};
ghost use Rattle.printer.specs.Rows.{answer_row, note_row, tabbed};

use call::Answer;
use std::alloc::AllocError;

#[tactic(auto, using(crate::proofs::Appends::onto))]
pub(crate) fn put_answer(out: &mut Vec<u8>, number: u64, answer: &Answer) -> Result<(), AllocError>
    ensures { OnOk result (out.new.items ≡ out.old.items ++ answer_row number answer.now) }
{
    put_number(out, number)?;
    put_tabbed(out, u64::from(answer.outcome.number()))?;
    put_tabbed(out, u64::from(answer.outcome.value()))?;
    put_tabbed(out, u64::from(answer.kept))?;
    put_tabbed(out, u64::from(answer.lost))?;
    out.push(b'\n')?;
    Ok(())
}

#[tactic(auto, using(crate::proofs::Appends::onto))]
pub(crate) fn put_note(out: &mut Vec<u8>, bytes: &[u8]) -> Result<(), AllocError>
    ensures { OnOk result (out.new.items ≡ out.old.items ++ note_row bytes.now) }
{
    out.push(b'#')?;
    out.extend_from_slice(bytes)?;
    out.push(b'\n')?;
    Ok(())
}

#[tactic(auto, using(crate::proofs::Appends::onto))]
pub(crate) fn put_tabbed(out: &mut Vec<u8>, number: u64) -> Result<(), AllocError>
    ensures { OnOk result (out.new.items ≡ out.old.items ++ 9 ∷ decimal number) }
{
    out.push(b'\t')?;
    put_number(out, number)
}

// In decimal. By plain digits, since a print may have thousands of rows, and the formatter is kept out of its inner loop.
pub(crate) fn put_number(out: &mut Vec<u8>, number: u64) -> Result<(), AllocError>
    ensures { OnOk result (out.new.items ≡ out.old.items ++ decimal number) }
{
    if number < 10 {
        out.push(b'0' + number as u8)?;
        return Ok(());
    }
    put_number(out, number / 10)?;
    out.push(b'0' + (number % 10) as u8)?;
    Ok(())
}
