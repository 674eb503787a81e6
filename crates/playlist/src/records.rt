// The records of a playlist.
use call::{Call, SettingNumbers, Subscriber};
use schemes::Role;

#[derive(Drop)]
pub struct Playlist {
    pub stations: u64,
    pub settings: SettingNumbers,
    // none or sixteen
    pub roles: Vec<Role>,
    pub subscribers: Vec<Subscriber>,
    pub calls: Vec<Call>,
}
