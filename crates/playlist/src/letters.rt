// The letters of the kinds, and the numbers that each kind asks for. A byte that is no such letter gives None, and the
// caller names the fault, so there is no TryFrom with an error of its own.
ghost use Rattle.std.specs.Prelude.{◌≡◌};
ghost use Rattle.playlist.specs.Forms.{call_letter, letter, number_count, limit};

use super::kind::{CallKind, Kind};

pub(crate) fn kind_by(byte: u8) -> Option<Kind>
    ensures { result ≡ letter byte }
{
    let letter = byte as char;
    match letter {
        'S' => Some(Kind::Settings),
        'K' => Some(Kind::Role),
        'M' => Some(Kind::Mobile),
        _ => call_kind_by(letter).map(Kind::Call),
    }
}

fn call_kind_by(letter: char) -> Option<CallKind>
    ensures { result ≡ call_letter letter }
{
    match letter {
        'A' => Some(CallKind::Ask),
        'F' => Some(CallKind::Finish),
        'H' => Some(CallKind::MobileHears),
        'T' => Some(CallKind::MobileTimer),
        'U' => Some(CallKind::StationHearsAir),
        'W' => Some(CallKind::StationHearsWire),
        'N' => Some(CallKind::StationTimer),
        'L' => Some(CallKind::RadioLoss),
        'X' => Some(CallKind::AnchorHears),
        'R' => Some(CallKind::Release),
        _ => None,
    }
}

// How many numbers follow the letter.
pub(crate) fn number_count(kind: Kind) -> u8
    ensures { result ≡ number_count kind }
{
    match kind {
        Kind::Settings => 5,
        Kind::Role => 2,
        Kind::Mobile => 3,
        Kind::Call(CallKind::Ask) => 4,
        Kind::Call(CallKind::AnchorHears | CallKind::Release) => 1,
        Kind::Call(_) => 2,
    }
}

// The largest number of a field: a reference has 16 bits, any other number thirteen digits.
pub(crate) fn limit(kind: Kind, field: u8) -> u64
    ensures { result ≡ limit kind field }
{
    match kind {
        Kind::Call(CallKind::Ask) if field == 4 => 65_535,
        _ => 9_999_999_999_999,
    }
}
