// A station's step on a message from a mobile, and on the loss of a talker's radio.
ghost use Rattle.std.specs.Prelude.{◌≡◌, true, MatchResult};
ghost use Rattle.station.specs.Stations.{Answers, Took, sound_clock, admits, is_held, closing, ignoring, LossRefused, on_access, on_talker_indication, on_end, air_heard, radio_lost};

use super::parts::{acted, ignored};
use super::row::{
    Pending, Phase, Station, StationMoment, StationRefusal, StationStep, StationTimers,
};
use messages::{Cause, Kind, Message, Outbox, Post, UplinkKind};
use schemes::RankScheme;

impl Station {
    // Hears a message from a mobile.
    pub fn hear_air<S: RankScheme>(
        &mut self,
        scheme: &S,
        message: Message,
        at: StationMoment,
    ) -> Result<StationStep, StationRefusal>
        ensures { Answers at.timers.period.ms self.old (air_heard (S.RankScheme.above scheme.now) at.number at.time.ms at.timers.link.ms message self.old) self.new result }
    {
        self.check_clock(at.timers.period)?;
        Ok(self.answer(scheme, message, at))
    }

    // The radio of the talker that is held here is lost. No time is needed, so this takes no moment.
    pub fn lose_radio(
        &mut self,
        number: u8,
        timers: StationTimers,
    ) -> Result<StationStep, StationRefusal>
        ensures { MatchResult result (λ step. (sound_clock timers.period.ms self.old.phase self.old.clock ≡ true) × (is_held self.old.phase ≡ true) × Took (radio_lost number self.old) self.new step) (λ refusal. LossRefused timers.period.ms self.old refusal × (self.new ≡ self.old)) }
    {
        self.check_clock(timers.period)?;
        if !self.is_held() {
            return Err(StationRefusal::NotHeld);
        }
        Ok(self.close(number, Cause::RadioFailure))
    }

    pub fn is_held(&self) -> bool
        ensures { result ≡ is_held self.now.phase }
    {
        matches!(self.phase, Phase::Held { .. })
    }

    fn answer<S: RankScheme>(
        &mut self,
        scheme: &S,
        message: Message,
        at: StationMoment,
    ) -> StationStep
        ensures { Took (air_heard (S.RankScheme.above scheme.now) at.number at.time.ms at.timers.link.ms message self.old) self.new result }
    {
        let Kind::Uplink(kind) = message.kind else {
            return ignored();
        };
        match kind {
            UplinkKind::Access => self.access(scheme, message, at),
            UplinkKind::TalkerIndication => self.talker_indication(at.number, message),
            UplinkKind::End => self.end(at.number, message),
        }
    }

    fn access<S: RankScheme>(
        &mut self,
        scheme: &S,
        message: Message,
        at: StationMoment,
    ) -> StationStep
        ensures { Took (on_access (S.RankScheme.above scheme.now) at.number at.time.ms at.timers.link.ms message self.old) self.new result }
    {
        if self.pending.is_some() || !self.admits(scheme, message.rank) {
            return ignored();
        }
        let Message {
            reference,
            rank,
            ..
        } = message;
        let deadline = at.time.ms() + at.timers.link.ms();
        self.pending = Some(Pending {
            reference,
            rank,
            deadline,
        });
        acted(Outbox::one(Post::Wire(Message::request(at.number, reference, rank))))
    }

    // Free, or in a phase whose rank this one is above.
    fn admits<S: RankScheme>(&self, scheme: &S, rank: u8) -> bool
        ensures { result ≡ admits (S.RankScheme.above scheme.now) rank self.now.phase }
    {
        match self.phase {
            Phase::Shut => false,
            Phase::Free => true,
            Phase::Seized { rank: held }
            | Phase::Granted { rank: held, .. }
            | Phase::Held { rank: held, .. }
            | Phase::Closing { rank: held, .. } => scheme.is_above(rank, held),
        }
    }

    fn talker_indication(&mut self, number: u8, message: Message) -> StationStep
        ensures { Took (on_talker_indication number message self.old) self.new result }
    {
        if message.grant != self.top {
            return ignored();
        }
        let top = self.top;
        match self.phase {
            Phase::Granted { rank, .. } => {
                let identity = message.identity;
                self.phase = Phase::Held { rank, identity };
                let ua = Message::ua(number, top, identity);
                let confirmation = Message::confirmation(number, top, identity);
                acted(Outbox::two(Post::Air(ua), Post::Wire(confirmation)))
            }
            Phase::Held { identity, .. } => acted(Outbox::one(Post::Air(Message::ua(
                number, top, identity,
            )))),
            _ => ignored(),
        }
    }

    fn end(&mut self, number: u8, message: Message) -> StationStep
        ensures { Took (on_end number message self.old) self.new result }
    {
        if message.grant != self.top {
            return ignored();
        }
        self.close(number, Cause::CallControl)
    }

    // Gives up the grant of a talker that is held.
    fn close(&mut self, number: u8, cause: Cause) -> StationStep
        ensures { Took (closing self.old.phase cause number self.old (ignoring self.old)) self.new result }
    {
        let Phase::Held { rank, .. } = self.phase else {
            return ignored();
        };
        self.phase = Phase::Closing { rank, cause };
        acted(Outbox::one(Post::Wire(Message::release_indication(number, self.top, cause))))
    }
}
