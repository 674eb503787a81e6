// Scans of a text's bytes.
ghost use Rattle.std.specs.Prelude.{◌≡◌, ◌≤◌, ◌||◌, length, take, drop, ◌==◌, nat_le, slice_index};
ghost use Rattle.playlist.specs.Scans.{count_of, digits_front, is_stop, leading_line};
ghost use Rattle.playlist.specs.Texts.{value_after};

use super::parsed::Parsed;

// The first line.
pub(crate) fn first_line(text: &[u8]) -> &[u8]
    ensures { result.now ≡ leading_line text.now }
{
    let len = text.iter().take_while(|byte| **byte != b'\n').count();
    &text[..len]
}

// How many tabs the first line has.
pub(crate) fn tabs(text: &[u8]) -> usize
    ensures { result ≡ count_of 9 (leading_line text.now) }
{
    text.iter()
        .take_while(|byte| **byte != b'\n')
        .filter(|byte| **byte == b'\t')
        .count()
}

// What the digits at the front write, and what follows them: fourteen digits at most, since a number has thirteen. One loop for both, since a
// scan and then a pass for the value take a third more time.
pub(crate) fn digits_front(bytes: &[u8]) -> Parsed<'_, u64>
    ensures value { result.value ≡ value_after 0 (take 14 (digits_front bytes.now)) }
    ensures rest { result.rest.now ≡ drop (length (take 14 (digits_front bytes.now))) bytes.now }
{
    let front = &bytes[..bytes.len().min(14)];
    let mut value = 0;
    for (i, byte) in front.iter().enumerate() {
        if !byte.is_ascii_digit() {
            return Parsed {
                value,
                rest: skip(bytes, i),
            };
        }
        value = value * 10 + u64::from(*byte - b'0');
    }
    Parsed {
        value,
        rest: skip(bytes, front.len()),
    }
}

// Whether a field ends before the byte at the place: a tab, byte 10 or the end is there.
pub(crate) fn stops(bytes: &[u8], at: usize) -> bool
    ensures { result ≡ (nat_le (length bytes.now) at || is_stop (slice_index bytes.now at)) }
{
    bytes
        .get(at)
        .is_none_or(|byte| *byte == b'\t' || *byte == b'\n')
}

// Whether a line ends at once.
pub(crate) fn at_line_end(bytes: &[u8]) -> bool
    ensures { result ≡ (length (leading_line bytes.now) == 0) }
{
    bytes.first().is_none_or(|byte| *byte == b'\n')
}

// What follows the first bytes.
pub(crate) fn skip(bytes: &[u8], len: usize) -> &[u8]
    requires { len ≤ length bytes.now }
    ensures { result.now ≡ drop len bytes.now }
{
    &bytes[len..]
}

// What follows the first byte, if there is one.
pub(crate) fn rest(bytes: &[u8]) -> &[u8]
    ensures { result.now ≡ drop 1 bytes.now }
{
    bytes.split_first().map_or(bytes, |(_, rest)| rest)
}
