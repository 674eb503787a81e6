// The last attempt, and the laws of the steps.
ghost use Rattle.std.specs.Prelude.{◌≡◌};
ghost use Rattle.mobile.specs.Laws.{MobileLaws};
ghost use Rattle.mobile.specs.Rows.{attempt_number};

use super::row::Attempt;

fn hold()
    ensures { MobileLaws }
{}

// The number of the last attempt, with the laws.
pub fn most_attempts() -> u8
    ensures last { result ≡ attempt_number Attempt.Third }
    ensures laws { MobileLaws }
{
    hold();
    Attempt::Third.number()
}
