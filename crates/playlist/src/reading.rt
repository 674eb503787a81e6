// A line read at its place.
ghost use Rattle.std.specs.Prelude.{◌≡◌, ◌<◌, true, [], ◌∷◌, length, drop, is_some, Some, Ok, Err, MatchResult, slice_index, slice_index_or};
ghost use Rattle.playlist.specs.Entries.{entry_in, judged};
ghost use Rattle.playlist.specs.Forms.{InLimits, call_of, entry_of, kind_named};
ghost use Rattle.playlist.specs.Meanings.{field_of, good_of, meant};
ghost use Rattle.playlist.specs.Scans.{after_line, first_field, leading_line};
ghost use Rattle.playlist.specs.Texts.{fields, lines};

use super::bytes::{first_line, rest, skip, stops};
use super::kind::{CallKind, Kind};
use super::letters::kind_by;
use super::line::Line;
use super::line_fault::LineFault;
use super::numbers::read_numbers;
use super::order::place_after;
use super::parsed::Parsed;
use super::place::Place;
use super::standing::Standing;
use call::{Call, SettingNumbers, Subscriber};
use schemes::Role;

// The first line of a text at its place: good, or its fault.
#[tactic(auto, using(crate::proofs::Judging::line_and_others, crate::proofs::Judging::fewer_left))]
pub(crate) fn read_line<'a>(place: Place, text: &'a [u8]) -> Result<Standing<'a>, LineFault>
    requires { 0 < length text.now }
    ensures line { MatchResult result (λ standing. (judged place (leading_line text.now) ≡ Ok (good_of standing)) × (standing.rest.now ≡ drop 1 (after_line text.now))) (λ fault. judged place (leading_line text.now) ≡ Err (field_of fault)) }
    ensures parts { lines text.now ≡ leading_line text.now ∷ lines (drop 1 (after_line text.now)) }
    ensures shorter { length (drop 1 (after_line text.now)) < length text.now }
{
    if text[0] == b'#' {
        return Ok(read_note(place, text));
    }
    let kind = kind_of(text).ok_or(LineFault::Letter)?;
    let place = place_after(place, kind).ok_or(LineFault::Form)?;
    let read = read_kind(kind, text)?;
    Ok(Standing {
        line: read.value,
        place,
        rest: read.rest,
    })
}

#[tactic(auto, using(crate::proofs::Parting::length_before))]
fn read_note<'a>(place: Place, text: &'a [u8]) -> Standing<'a>
    requires { (0 < length text.now) × (slice_index text.now 0 ≡ 35) }
    ensures line { judged place (leading_line text.now) ≡ Ok (good_of result) }
    ensures rest { result.rest.now ≡ drop 1 (after_line text.now) }
{
    let line = first_line(text);
    Standing {
        line: Line::Note(rest(line)),
        place,
        rest: rest(skip(text, line.len())),
    }
}

// The kind that the first field names, if it is one letter of those.
fn kind_of(text: &[u8]) -> Option<Kind>
    requires { 0 < length text.now }
    ensures kind { result ≡ kind_named (slice_index_or (fields (leading_line text.now)) 0 []) }
    ensures after { is_some result ≡ true → first_field (drop 1 text.now) ≡ [] }
{
    if !stops(text, 1) {
        return None;
    }
    kind_by(text[0])
}

// A line of the kind, and the text from the next line on.
fn read_kind<'a>(kind: Kind, text: &'a [u8]) -> Result<Parsed<'a, Line<'a>>, LineFault>
    requires { (Some kind ≡ kind_named (slice_index_or (fields (leading_line text.now)) 0 [])) × (first_field (drop 1 text.now) ≡ []) }
    ensures { MatchResult result (λ read. (entry_in kind (drop 1 (fields (leading_line text.now))) ≡ Ok (meant read.value)) × (read.rest.now ≡ drop 1 (after_line text.now))) (λ fault. entry_in kind (drop 1 (fields (leading_line text.now))) ≡ Err (field_of fault)) }
{
    let numbers = read_numbers(kind, rest(text))?;
    Ok(Parsed {
        value: line_of(kind, &numbers.value),
        rest: rest(numbers.rest),
    })
}

// No From: the numbers are within the kind's limits.
fn line_of<'a>(kind: Kind, values: &[u64; 5]) -> Line<'a>
    requires { InLimits kind values.now }
    ensures { meant result ≡ entry_of kind values.now }
{
    match kind {
        Kind::Settings => Line::Settings {
            stations: values[0],
            numbers: SettingNumbers {
                period: values[1],
                t3128: values[2],
                t3130: values[3],
                link: values[4],
            },
        },
        Kind::Role => Line::Role(Role {
            level: values[0],
            district: values[1],
        }),
        Kind::Mobile => Line::Mobile(Subscriber {
            identity: values[0],
            station: values[1],
            allowed: values[2],
        }),
        Kind::Call(kind) => Line::Call(call_of(kind, values)),
    }
}

// No From, as at `line_of`.
fn call_of(kind: CallKind, values: &[u64; 5]) -> Call
    requires { InLimits (Kind.Call kind) values.now }
    ensures { result ≡ call_of kind values.now }
{
    let time = values[0];
    match kind {
        CallKind::Ask => Call::Ask {
            time,
            mobile: values[1],
            reference: values[2] as u16,
            rank: values[3],
        },
        CallKind::Finish => Call::Finish {
            time,
            mobile: values[1],
        },
        CallKind::MobileHears => Call::MobileHears {
            time,
            mobile: values[1],
        },
        CallKind::MobileTimer => Call::MobileTimer {
            time,
            mobile: values[1],
        },
        CallKind::StationHearsAir => Call::StationHearsAir {
            time,
            station: values[1],
        },
        CallKind::StationHearsWire => Call::StationHearsWire {
            time,
            station: values[1],
        },
        CallKind::StationTimer => Call::StationTimer {
            time,
            station: values[1],
        },
        CallKind::RadioLoss => Call::RadioLoss {
            time,
            station: values[1],
        },
        CallKind::AnchorHears => Call::AnchorHears { time },
        CallKind::Release => Call::Release { time },
    }
}
