// A mobile's step when it hears a message.
ghost use Rattle.mobile.specs.Steps.{MobileDid, heard, on_free, on_busy, on_grant, on_ua, on_release, links, talk_begun, talk_ended};

use super::parts::{quiet, saying};
use super::row::{
    Attempt, Mobile, MobileMoment, MobileOutcome, MobileStep, Rejection, State, TalkRequest, Uplink,
};
use messages::{DownlinkKind, Kind, Message, Post};
use schemes::RankScheme;

impl Mobile {
    // Only a message on the air to a cell is for a mobile; any other is ignored.
    pub fn hear<S: RankScheme>(
        &mut self,
        message: Message,
        at: MobileMoment,
        scheme: &S,
    ) -> MobileStep
        ensures { MobileDid (heard (S.RankScheme.above scheme.now) at.time.ms at.timers message self.old) self.new result }
    {
        match message.kind {
            Kind::Downlink(DownlinkKind::Free) => self.hear_free(at),
            Kind::Downlink(DownlinkKind::Busy) => self.hear_busy(message.rank, at, scheme),
            Kind::Downlink(DownlinkKind::Grant) => {
                let request = TalkRequest {
                    reference: message.reference,
                    rank: message.rank,
                };
                self.hear_grant(request, message.grant, at)
            }
            Kind::Downlink(DownlinkKind::Ua) => self.hear_ua(message.grant, message.identity),
            Kind::Downlink(DownlinkKind::Release) => self.hear_release(message.grant),
            Kind::Uplink(_) | Kind::Anchor(_) | Kind::Station(_) => quiet(MobileOutcome::Ignored),
        }
    }

    // A mobile that waits starts its first attempt.
    fn hear_free(&mut self, at: MobileMoment) -> MobileStep
        ensures { MobileDid (on_free at.time.ms at.timers self.old) self.new result }
    {
        self.uplink = Uplink::Free {
            since: at.time.ms(),
        };
        match self.state {
            State::Waits {
                reference,
                rank,
                ..
            } => self.attempt(Attempt::First, TalkRequest { reference, rank }, at),
            State::Listens | State::Asks { .. } | State::Links { .. } | State::Talks { .. } => {
                quiet(MobileOutcome::Applied)
            }
        }
    }

    fn hear_busy<S: RankScheme>(&mut self, talker: u8, at: MobileMoment, scheme: &S) -> MobileStep
        ensures { MobileDid (on_busy (S.RankScheme.above scheme.now) talker at.time.ms at.timers self.old) self.new result }
    {
        self.uplink = Uplink::Busy { rank: talker };
        match self.state {
            State::Waits {
                reference,
                rank,
                ..
            } => {
                if scheme.is_above(rank, talker) {
                    self.attempt(Attempt::First, TalkRequest { reference, rank }, at)
                } else {
                    quiet(MobileOutcome::Applied)
                }
            }
            State::Asks { rank, .. } => {
                if scheme.is_above(rank, talker) {
                    quiet(MobileOutcome::Applied)
                } else {
                    self.reject(Rejection::UplinkBusy)
                }
            }
            State::Listens | State::Links { .. } | State::Talks { .. } => {
                quiet(MobileOutcome::Applied)
            }
        }
    }

    fn hear_grant(&mut self, request: TalkRequest, grant: u32, at: MobileMoment) -> MobileStep
        ensures { MobileDid (on_grant request.reference request.rank grant at.time.ms at.timers self.old) self.new result }
    {
        match self.state {
            State::Asks {
                reference: own,
                rank: wanted,
                ..
            } => {
                if request.reference == own && request.rank == wanted {
                    self.link(grant, at)
                } else {
                    self.reject(Rejection::GrantedToOther)
                }
            }
            State::Listens | State::Waits { .. } | State::Links { .. } | State::Talks { .. } => {
                quiet(MobileOutcome::Ignored)
            }
        }
    }

    fn link(&mut self, grant: u32, at: MobileMoment) -> MobileStep
        ensures { MobileDid (links grant at.time.ms at.timers self.old) self.new result }
    {
        let deadline = at.time.ms() + at.timers.link.ms();
        self.state = State::Links { grant, deadline };
        let message = Message::talker_indication(self.station, grant, self.identity);
        saying(MobileOutcome::Applied, Post::Air(message))
    }

    fn hear_ua(&mut self, grant: u32, identity: u32) -> MobileStep
        ensures { MobileDid (on_ua grant identity self.old) self.new result }
    {
        match self.state {
            State::Links { grant: own, .. } => {
                if grant != own {
                    quiet(MobileOutcome::Ignored)
                } else if identity == self.identity {
                    self.begin_talk(own)
                } else {
                    self.reject(Rejection::LinkFailed)
                }
            }
            State::Listens | State::Waits { .. } | State::Asks { .. } | State::Talks { .. } => {
                quiet(MobileOutcome::Ignored)
            }
        }
    }

    fn begin_talk(&mut self, grant: u32) -> MobileStep
        ensures { MobileDid (talk_begun grant self.old) self.new result }
    {
        self.state = State::Talks { grant };
        quiet(MobileOutcome::TalkBegun(grant))
    }

    fn hear_release(&mut self, grant: u32) -> MobileStep
        ensures { MobileDid (on_release grant self.old) self.new result }
    {
        match self.state {
            State::Links { grant: own, .. } => {
                if own <= grant {
                    self.reject(Rejection::LinkFailed)
                } else {
                    quiet(MobileOutcome::Ignored)
                }
            }
            State::Talks { grant: own } => {
                if own <= grant {
                    self.end_talk(own)
                } else {
                    quiet(MobileOutcome::Ignored)
                }
            }
            State::Listens | State::Waits { .. } | State::Asks { .. } => {
                quiet(MobileOutcome::Ignored)
            }
        }
    }

    fn end_talk(&mut self, grant: u32) -> MobileStep
        ensures { MobileDid (talk_ended grant self.old) self.new result }
    {
        self.state = State::Listens;
        quiet(MobileOutcome::TalkEnded(grant))
    }
}
