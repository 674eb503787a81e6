// The grant book: reading it, and writing in place. The book and the number of its last grant are two parameters, since two own them:
// a host lends the places, to readers by a shared borrow, and the number stands in the record of the call.
ghost use Rattle.std.specs.Prelude.{◌≡◌, ◌<◌, ◌≤◌, length, OnSome, slice_set};
ghost use Rattle.anchor.specs.Anchors.{standing, book_full, with_last};

use super::entry::{End, Entry};

// The grant that stands, if one does.
pub(crate) fn standing_grant(book: &[Entry], last: u32) -> Option<Entry>
    ensures grant { result ≡ standing book.now last }
    ensures within { OnSome result ((1 ≤ last) × (last ≤ length book.now)) }
{
    let place = (last as usize).checked_sub(1)?;
    let entry = *book.get(place)?;
    // a filter of what `get` gives: tried, and the proof did not close
    match entry.end {
        End::Stands => Some(entry),
        End::Ended(_) => None,
        End::Preempted => None,
    }
}

// No further grant can be written.
pub(crate) fn is_full(book: &[Entry], last: u32) -> bool
    ensures { result ≡ book_full book.now last }
{
    book.len() <= last as usize || last == u32::MAX
}

pub(crate) fn write_grant(book: &mut [Entry], last: u32, entry: Entry)
    requires { last < length book.old }
    ensures { book.new ≡ slice_set book.old last entry }
{
    book[last as usize] = entry;
}

pub(crate) fn change_last(book: &mut [Entry], last: u32, entry: Entry)
    requires { (1 ≤ last) × (last ≤ length book.old) }
    ensures { book.new ≡ with_last book.old last entry }
{
    book[last as usize - 1] = entry;
}
