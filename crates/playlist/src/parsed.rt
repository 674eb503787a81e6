// What was read at the front of a text, and what follows it.
#[derive(Drop)]
pub(crate) struct Parsed<'a, T> {
    pub value: T,
    // each function says from where on
    pub rest: &'a [u8],
}
