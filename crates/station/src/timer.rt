// A station's timer: a pending pair, then a Granted deadline, then a notice.
ghost use Rattle.std.specs.Prelude.{◌≡◌, ◌≤◌, true, ◌++◌, length};
ghost use Rattle.messages.specs.Posts.{posts};
ghost use Rattle.station.specs.Stations.{Answers, Took, sound_clock, drop_pending, expire_grant, notice, give_notice, timed};

use super::clock::Clock;
use super::row::{Phase, Station, StationMoment, StationOutcome, StationRefusal, StationStep};
use messages::{Cause, Message, Outbox, Post};
use timing::Time;

impl Station {
    pub fn tick(&mut self, at: StationMoment) -> Result<StationStep, StationRefusal>
        ensures { Answers at.timers.period.ms self.old (timed at.number at.time.ms at.timers.period.ms self.old) self.new result }
    {
        self.check_clock(at.timers.period)?;
        Ok(self.run_timer(at))
    }

    fn run_timer(&mut self, at: StationMoment) -> StationStep
        requires { sound_clock at.timers.period.ms self.old.phase self.old.clock ≡ true }
        ensures { Took (timed at.number at.time.ms at.timers.period.ms self.old) self.new result }
    {
        let mut outbox = Outbox::new();
        let dropped = self.drop_pending(at.time);
        let expired = self.expire_grant(at, &mut outbox);
        let noticed = self.give_notice(at, &mut outbox);
        let outcome = if dropped || expired || noticed {
            StationOutcome::Acted
        } else {
            StationOutcome::Idle
        };
        StationStep { outcome, outbox }
    }

    // Whether a pending pair was dropped.
    fn drop_pending(&mut self, time: Time) -> bool
        ensures { (result ≡ (drop_pending self.old.pending time.ms self.old).found) × (self.new ≡ (drop_pending self.old.pending time.ms self.old).row) }
    {
        let expired = self.pending.is_some_and(|pair| pair.deadline <= time.ms());
        if expired {
            self.pending = None;
        }
        expired
    }

    // Whether a grant is given up that nobody took up before its deadline.
    fn expire_grant(&mut self, at: StationMoment, outbox: &mut Outbox) -> bool
        requires { length (posts outbox.old) ≤ 1 }
        ensures found { result ≡ (expire_grant self.old.phase at.number at.time.ms self.old).found }
        ensures row { self.new ≡ (expire_grant self.old.phase at.number at.time.ms self.old).row }
        ensures said { posts outbox.new ≡ posts outbox.old ++ (expire_grant self.old.phase at.number at.time.ms self.old).said }
    {
        let Phase::Granted { rank, deadline } = self.phase else {
            return false;
        };
        if deadline > at.time.ms() {
            return false;
        }
        let cause = Cause::RadioMessageFailure;
        self.phase = Phase::Closing { rank, cause };
        outbox.push(Post::Wire(Message::release_indication(at.number, self.top, cause)));
        true
    }

    // Whether a notice is due; it is said, and the clock goes on to the next one.
    fn give_notice(&mut self, at: StationMoment, outbox: &mut Outbox) -> bool
        requires sound { sound_clock at.timers.period.ms self.old.phase self.old.clock ≡ true }
        requires room { length (posts outbox.old) ≤ 2 }
        ensures found { result ≡ (give_notice at.number at.time.ms at.timers.period.ms self.old).found }
        ensures row { self.new ≡ (give_notice at.number at.time.ms at.timers.period.ms self.old).row }
        ensures said { posts outbox.new ≡ posts outbox.old ++ (give_notice at.number at.time.ms at.timers.period.ms self.old).said }
    {
        if let Phase::Shut = self.phase {
            return false;
        }
        let mut clock = Clock::from_row(self.clock, at.timers.period).unwrap();
        if !clock.read(at.time) {
            return false;
        }
        self.clock = clock.into();
        self.say_notice(at.number, outbox);
        true
    }

    fn say_notice(&self, number: u8, outbox: &mut Outbox)
        requires { length (posts outbox.old) ≤ 2 }
        ensures { posts outbox.new ≡ posts outbox.old ++ notice self.now.phase number self.now.top }
    {
        match self.phase {
            Phase::Shut => {}
            Phase::Free => {
                outbox.push(Post::Air(Message::free(number)));
            }
            Phase::Seized { rank } | Phase::Granted { rank, .. } | Phase::Held { rank, .. } => {
                outbox.push(Post::Air(Message::busy(number, rank)));
            }
            Phase::Closing { rank, cause } => {
                outbox.push(Post::Wire(Message::release_indication(number, self.top, cause)));
                outbox.push(Post::Air(Message::busy(number, rank)));
            }
        }
    }
}
