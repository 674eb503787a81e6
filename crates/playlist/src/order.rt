// Which line may stand where.
ghost use Rattle.std.specs.Prelude.{◌≡◌};
ghost use Rattle.playlist.specs.Orders.{follows, may_end};

use super::kind::Kind;
use super::place::Place;

// The place after a line of the kind, or none where one cannot stand at the place.
pub(crate) fn place_after(place: Place, kind: Kind) -> Option<Place>
    ensures { result ≡ follows place kind }
{
    match (place, kind) {
        (Place::Start, Kind::Settings) => Some(Place::Roles(0)),
        (Place::Roles(k), Kind::Role) if k < 16 => Some(Place::Roles(k + 1)),
        (Place::Roles(0 | 16), Kind::Mobile) => Some(Place::Mobiles),
        (Place::Roles(0 | 16), Kind::Call(_)) => Some(Place::Calls(1)),
        (Place::Mobiles, Kind::Mobile) => Some(Place::Mobiles),
        (Place::Mobiles, Kind::Call(_)) => Some(Place::Calls(1)),
        (Place::Calls(n), Kind::Call(_)) if n < 4096 => Some(Place::Calls(n + 1)),
        _ => None,
    }
}

// Whether nothing is missing where the text ends.
pub(crate) fn may_end(place: Place) -> bool
    ensures { result ≡ may_end place }
{
    match place {
        Place::Start => false,
        Place::Roles(k) => k == 0 || k == 16,
        Place::Mobiles | Place::Calls(_) => true,
    }
}
