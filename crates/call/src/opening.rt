// What an opening is given, with its numbers as a caller brings them.

// The settings' numbers, in milliseconds.
#[derive(Clone, Copy, Default)]
pub struct SettingNumbers {
    pub period: u64,
    pub t3128: u64,
    pub t3130: u64,
    pub link: u64,
}

// A mobile as it is entered for the call.
#[derive(Clone, Copy)]
pub struct Subscriber {
    pub identity: u64,
    // the station in whose cell it is
    pub station: u64,
    // the sum of 2^code over the ranks that it may ask for, the number by which a mobile is entered
    pub allowed: u64,
}

// What a group call is set up with: its settings, and the mobiles that are entered for it.
#[derive(Clone, Copy)]
pub struct CallSetup<'a> {
    pub settings: SettingNumbers,
    pub subscribers: &'a [Subscriber],
}
