// The numbers of a line.
ghost use Rattle.std.specs.Prelude.{◌≡◌, ◌&&◌, ◌||◌, [], length, take, drop, if◌then◌else◌, Some, None, Ok, Err, MatchOption, MatchResult, ◌==◌, nat_eq};
ghost use Rattle.playlist.specs.Entries.{counted, number_in};
ghost use Rattle.playlist.specs.Forms.{number_count};
ghost use Rattle.playlist.specs.Meanings.{field_of};
ghost use Rattle.playlist.specs.Scans.{after_line, fields_after, first_field, leading_line};
ghost use Rattle.playlist.specs.Texts.{has_shape, number};

use super::bytes::{at_line_end, digits_front, rest, stops, tabs};
use super::kind::Kind;
use super::letters::{limit, number_count};
use super::line_fault::LineFault;
use super::parsed::Parsed;

// The numbers in order, as many of the five as the kind asks for, and the text from the byte that ends the line on; or the fault. `line` is
// what follows the letter. An array, since a Vec would allocate for each line and an ArrayVec would be one crate more to trust.
pub(crate) fn read_numbers<'a>(
    kind: Kind,
    line: &'a [u8],
) -> Result<Parsed<'a, [u64; 5]>, LineFault>
    requires { first_field line.now ≡ [] }
    ensures { MatchResult result (λ ns. (counted kind (fields_after (leading_line line.now)) ≡ Ok (take (number_count kind) ns.value)) × (ns.rest.now ≡ after_line line.now)) (λ fault. counted kind (fields_after (leading_line line.now)) ≡ Err (field_of fault)) }
{
    let mut values = [0; 5];
    let mut left = line;
    for i in 0..number_count(kind) {
        if at_line_end(left) {
            return Err(LineFault::Form);
        }
        let field = i + 2;
        let number = read_number(kind, field, left).ok_or_else(|| bad_number(kind, field, line))?;
        values[i as usize] = number.value;
        left = number.rest;
    }
    if !at_line_end(left) {
        return Err(LineFault::Form);
    }
    Ok(Parsed {
        value: values,
        rest: left,
    })
}

// A bad number in the field, or the form where the count of fields is wrong.
fn bad_number(kind: Kind, field: u8, line: &[u8]) -> LineFault
    requires { first_field line.now ≡ [] }
    ensures { field_of result ≡ (if nat_eq (length (fields_after (leading_line line.now))) (number_count kind) then field else 0) }
{
    if tabs(line) == usize::from(number_count(kind)) {
        LineFault::Number(field)
    } else {
        LineFault::Form
    }
}

// The number after a tab, if there is one within the field's limit, and what follows the field.
fn read_number<'a>(kind: Kind, field: u8, left: &'a [u8]) -> Option<Parsed<'a, u64>>
    ensures { MatchOption result (number_in kind field (first_field (drop 1 left.now)) ≡ None) (λ n. (number_in kind field (first_field (drop 1 left.now)) ≡ Some n.value) × (n.rest.now ≡ drop (length (first_field (drop 1 left.now))) (drop 1 left.now))) }
{
    cut_number(rest(left)).filter(|number| number.value <= limit(kind, field))
}

// The number of the first field, if it is one, and what follows the field.
fn cut_number<'a>(bytes: &'a [u8]) -> Option<Parsed<'a, u64>>
    ensures { MatchOption result (number (first_field bytes.now) ≡ None) (λ n. (number (first_field bytes.now) ≡ Some n.value) × (n.rest.now ≡ drop (length (first_field bytes.now)) bytes.now)) }
{
    let digits = digits_front(bytes);
    let len = bytes.len() - digits.rest.len();
    if !has_shape(&bytes[..len]) || !stops(bytes, len) {
        return None;
    }
    Some(digits)
}

// Whether there are 1 to 13, of which the first is 0 only where it is the only one.
fn has_shape(digits: &[u8]) -> bool
    ensures { result ≡ has_shape digits.now }
{
    match digits {
        [] => false,
        [_] => true,
        [first, ..] => *first != b'0' && digits.len() <= 13,
    }
}
