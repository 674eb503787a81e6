// What an accepted call changes in the record of a group call.
ghost use Rattle.std.specs.Prelude.{◌≡◌, leb, if◌then◌else◌, nat_le};
ghost use Rattle.call.specs.Records.{frame_of};

use super::GroupCall;
use timing::Time;

impl GroupCall {
    // A call at this time was accepted.
    pub fn accept(&mut self, time: Time)
        ensures frame { frame_of self.new ≡ frame_of self.old }
        ensures numbered { self.new.last ≡ self.old.last }
        ensures timed { self.new.time ≡ time }
    {
        self.time = time;
    }

    // The last grant has this number. Nothing changes, and the answer is false, where the book has no such place, as a set's insert tells.
    pub fn number(&mut self, last: u32) -> bool
        ensures frame { frame_of self.new ≡ frame_of self.old }
        ensures numbered { self.new.last ≡ (if leb last self.old.places then last else self.old.last) }
        ensures timed { self.new.time ≡ self.old.time }
        ensures answer { result ≡ nat_le last self.old.places }
    {
        if last as usize > self.places {
            return false;
        }
        self.last = last;
        true
    }
}
