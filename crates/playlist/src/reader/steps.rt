// Reading the lines of a text one after another.
ghost use Rattle.std.specs.Prelude.{◌≡◌, length};
ghost use Rattle.playlist.specs.Stands.{first_stand, next_entry, next_stand, stand_of, told};

use super::super::fault::Fault;
use super::super::line::Line;
use super::super::line_fault::LineFault;
use super::super::order::may_end;
use super::super::place::Place;
use super::super::reading::read_line;
use super::Reader;

impl<'a> Reader<'a> {
    // Before the first line. A text of more than 60,000 bytes gives only a fault: nothing of it is left to read, and line 0 is that of a
    // text that is too long, as it is printed.
    pub fn new(text: &'a [u8]) -> Reader<'a>
        ensures { stand_of result ≡ first_stand text.now }
    {
        let place = Place::Start;
        if text.len() > 60_000 {
            let rest = &text[0..0];
            return Reader {
                rest,
                line: 0,
                place,
            };
        }
        Reader {
            rest: text,
            line: 1,
            place,
        }
    }

    // The next line, none at the end, or the fault; after a fault and at the end it stays where it is.
    // It is no iterator, since after a fault it gives the same fault again and never ends.
    pub fn next(&mut self) -> Result<Option<Line<'a>>, Fault>
        ensures gives { told result ≡ next_entry (stand_of self.old) }
        ensures moves { stand_of self.new ≡ next_stand (stand_of self.old) }
    {
        if self.rest.is_empty() {
            return self.end();
        }
        let line = self.line;
        // a match here and at both loops of this crate over it: with `map_err` and `?` a short line takes nearly twice the time
        match read_line(self.place, self.rest) {
            Ok(standing) => {
                self.rest = standing.rest;
                self.line = line + 1;
                self.place = standing.place;
                Ok(Some(standing.line))
            }
            Err(fault) => Err(fault.at(line)),
        }
    }

    // What the end of the text gives.
    fn end(&self) -> Result<Option<Line<'a>>, Fault>
        requires { length self.now.rest.now ≡ 0 }
        ensures gives { told result ≡ next_entry (stand_of self.now) }
        ensures stays { stand_of self.now ≡ next_stand (stand_of self.now) }
    {
        if may_end(self.place) {
            return Ok(None);
        }
        Err(LineFault::Form.at(self.line))
    }
}
