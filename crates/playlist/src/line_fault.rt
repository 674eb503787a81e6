// What is wrong with a line.
ghost use Rattle.std.specs.Prelude.{◌≡◌};
ghost use Rattle.playlist.specs.Meanings.{field_of};

use super::fault::Fault;

#[derive(Clone, Copy)]
pub(crate) enum LineFault {
    // a wrong order or count of fields
    Form,
    // no such letter
    Letter,
    // the number of this field
    Number(u8),
}

impl LineFault {
    // The same on the line of this number.
    pub(crate) fn at(self, line: u32) -> Fault
        ensures { result ≡ record { line = line; field = field_of self } }
    {
        let field = match self {
            LineFault::Form => 0,
            LineFault::Letter => 1,
            LineFault::Number(field) => field,
        };
        Fault { line, field }
    }
}
