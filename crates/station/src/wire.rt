// A station's step on a message from the anchor.
ghost use Rattle.std.specs.Prelude.{◌≡◌};
ghost use Rattle.station.specs.Stations.{Answers, Took, station_row, restarted, enter_granted, give_back, obey_acknowledge, on_seized, on_release_command, on_reject, wire_heard};

use super::clock::Clock;
use super::parts::{acted, ignored};
use super::row::{Phase, Station, StationMoment, StationRefusal, StationStep};
use messages::{Cause, Kind, Message, Outbox, Post, StationKind};

impl Station {
    // Hears a message from the anchor.
    pub fn hear_wire(
        &mut self,
        message: Message,
        at: StationMoment,
    ) -> Result<StationStep, StationRefusal>
        ensures { Answers at.timers.period.ms self.old (wire_heard at.number at.time.ms at.timers.link.ms at.timers.period.ms message self.old) self.new result }
    {
        self.check_clock(at.timers.period)?;
        Ok(self.obey(message, at))
    }

    fn obey(&mut self, message: Message, at: StationMoment) -> StationStep
        ensures { Took (wire_heard at.number at.time.ms at.timers.link.ms at.timers.period.ms message self.old) self.new result }
    {
        let Kind::Station(kind) = message.kind else {
            return ignored();
        };
        match (kind, self.phase) {
            (StationKind::Acknowledge, Phase::Shut) => ignored(),
            (StationKind::Acknowledge, _) => self.acknowledge(message, at),
            (StationKind::Reject, _) => self.reject(message),
            (StationKind::Seized, _) => self.seize(message, at),
            (StationKind::ReleaseCommand, _) => self.release(message, at),
        }
    }

    fn acknowledge(&mut self, message: Message, at: StationMoment) -> StationStep
        ensures { Took (obey_acknowledge at.number at.time.ms at.timers.link.ms at.timers.period.ms message self.old) self.new result }
    {
        if message.grant <= self.top {
            return ignored();
        }
        if self.is_pending(message.reference, message.rank) {
            self.enter_granted(message, at)
        } else {
            self.give_back(at.number, message)
        }
    }

    fn enter_granted(&mut self, message: Message, at: StationMoment) -> StationStep
        ensures { Took (enter_granted at.number at.time.ms at.timers.link.ms at.timers.period.ms message self.old) self.new result }
    {
        let rank = message.rank;
        let grant = Message::grant(at.number, message.reference, rank, message.grant);
        let busy = Message::busy(at.number, rank);
        let outbox = self.leaving_then_two(at.number, Post::Air(grant), Post::Air(busy));
        let deadline = at.time.ms() + at.timers.link.ms();
        self.pending = None;
        self.enter(Phase::Granted { rank, deadline }, message.grant, at);
        acted(outbox)
    }

    fn give_back(&mut self, number: u8, message: Message) -> StationStep
        ensures { Took (give_back number message self.old) self.new result }
    {
        let cause = Cause::RadioMessageFailure;
        let indication = Message::release_indication(number, message.grant, cause);
        let outbox = self.leaving_then(number, Post::Wire(indication));
        self.phase = Phase::Closing {
            rank: message.rank,
            cause,
        };
        self.top = message.grant;
        acted(outbox)
    }

    fn seize(&mut self, message: Message, at: StationMoment) -> StationStep
        ensures { Took (on_seized at.number at.time.ms at.timers.period.ms message self.old) self.new result }
    {
        let Message { rank, grant, .. } = message;
        if grant <= self.top {
            return ignored();
        }
        let outbox = self.leaving_then(at.number, Post::Air(Message::busy(at.number, rank)));
        self.enter(Phase::Seized { rank }, grant, at);
        acted(outbox)
    }

    fn release(&mut self, message: Message, at: StationMoment) -> StationStep
        ensures { Took (on_release_command at.number at.time.ms at.timers.period.ms message self.old) self.new result }
    {
        if message.grant < self.top {
            return ignored();
        }
        if let Phase::Free = self.phase {
            self.top = message.grant;
            return acted(Outbox::new());
        }
        let outbox = self.leaving_then(at.number, Post::Air(Message::free(at.number)));
        self.enter(Phase::Free, message.grant, at);
        acted(outbox)
    }

    // Enters Free, Seized or Granted for this grant, which restarts the clock.
    fn enter(&mut self, phase: Phase, top: u32, at: StationMoment)
        ensures { self.new ≡ station_row phase top self.old.pending (restarted at.time.ms at.timers.period.ms) }
    {
        self.phase = phase;
        self.top = top;
        self.clock = Clock::started(at.time, at.timers.period).into();
    }

    fn reject(&mut self, message: Message) -> StationStep
        ensures { Took (on_reject message self.old) self.new result }
    {
        if !self.is_pending(message.reference, message.rank) {
            return ignored();
        }
        self.pending = None;
        acted(Outbox::new())
    }
}
