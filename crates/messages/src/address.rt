// Addresses and listeners by name. A message goes to the anchor, to a station or to a cell; who hears is named by a listener. They are
// numbers, not enums, since a carrier may be asked at any number, and at one that is no address it hears nothing.
ghost use Rattle.std.specs.Prelude.{◌≡◌};
ghost use Rattle.messages.specs.Addresses.{anchor_at, station_at, mobile_as, cell_at};

// The anchor's address, and what it listens as.
pub fn anchor_address() -> u16
    ensures { result ≡ anchor_at }
{
    0
}

// The address of a station, and what it listens as.
pub fn station_address(station: u8) -> u16
    ensures { result ≡ station_at station }
{
    station as u16
}

// What a mobile listens as; it hears at the address of its station's cell.
pub fn mobile_listener(mobile: u8) -> u16
    ensures { result ≡ mobile_as mobile }
{
    8 + mobile as u16
}

// The address of a station's cell.
pub fn cell_address(station: u8) -> u16
    ensures { result ≡ cell_at station }
{
    208 + station as u16
}
