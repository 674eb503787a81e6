// A reader of a text, line by line.
ghost use Rattle.std.specs.Prelude.{◌+◌, ◌≤◌, length};

use super::place::Place;

mod steps;

#[derive(Clone, Copy)]
pub struct Reader<'a> {
    // the text from the next line on
    rest: &'a [u8],
    // the next line's number, or 0, the line of a text that is too long, as it is printed
    line: u32,
    // where the next line stands
    place: Place,
    ghost few: { line + length rest.now ≤ 60001 },
}
