// The tables of a group call, which their owner lends for a call.
use anchor::Entry;
use mobile::Mobile;
use station::Station;

#[derive(Drop)]
pub struct LentTables<'a> {
    pub mobiles: &'a mut [Mobile],
    pub stations: &'a mut [Station],
    // the grant book
    pub book: &'a mut [Entry],
}
