// A good line, the place after it, and what follows it.
use super::line::Line;
use super::place::Place;

#[derive(Clone, Copy)]
pub(crate) struct Standing<'a> {
    pub line: Line<'a>,
    pub place: Place,
    // the text from the next line on
    pub rest: &'a [u8],
}
