// A line of a playlist.
use call::{Call, SettingNumbers, Subscriber};
use schemes::Role;

#[derive(Clone, Copy)]
pub enum Line<'a> {
    Settings {
        stations: u64,
        numbers: SettingNumbers,
    },
    Role(Role),
    Mobile(Subscriber),
    Call(Call),
    // what follows the #
    Note(&'a [u8]),
}
