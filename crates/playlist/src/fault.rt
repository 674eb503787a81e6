// Where a text breaks the form. Line and field are the numbers that the row of a faulted text prints: line 0 where the text is too long,
// field 0 for a wrong order or count of fields, field 1 for the letter.
#[derive(Clone, Copy, PartialEq, Eq, Debug)]
pub struct Fault {
    pub line: u32,
    pub field: u8,
}
