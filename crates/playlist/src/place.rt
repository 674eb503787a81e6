// Where one stands in the order of a playlist.
#[derive(Clone, Copy)]
pub(crate) enum Place {
    Start,
    // after the settings, with so many roles
    Roles(u8),
    Mobiles,
    // after so many calls
    Calls(u16),
}
