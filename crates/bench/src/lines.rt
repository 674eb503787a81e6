// The lines of answers: the call's number, its outcome's number and value, and the messages kept and lost.
use call::{Answer, GroupCall, Outcome, Refusal};
use std::io;

pub(crate) fn print_answer(rt: &HostRuntime, number: u64, answer: Answer) -> io::Result<()> {
    let outcome = answer.outcome.number();
    let value = answer.outcome.value();
    let kept = answer.kept;
    let lost = answer.lost;
    println!(rt; "{number}\t{outcome}\t{value}\t{kept}\t{lost}")
}

// A line for each of these answers, numbered on from `first`.
pub(crate) fn print_answers(rt: &HostRuntime, first: u64, answers: &[Answer]) -> io::Result<()> {
    for (number, answer) in (first..).zip(answers) {
        print_answer(rt, number, *answer)?;
    }
    Ok(())
}

// The opening is call 0.
pub(crate) fn print_opening(
    rt: &HostRuntime,
    opened: &Result<GroupCall, Refusal>,
) -> io::Result<()> {
    let answer = match opened {
        Ok(_) => Answer::silent(Outcome::Acted(0)),
        Err(refusal) => Answer::from(*refusal),
    };
    print_answer(rt, 0, answer)
}
