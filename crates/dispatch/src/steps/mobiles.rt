// The steps of mobiles. Each has a contract of its own; what they share is in `parts`. `ask` and `finish` alone unwrap a Result: a helper that
// takes the step as a closure, as in `stations`, would be longer than the lines that it saves. Each requires `Numbered`, since no type holds
// the number beside the table: the number comes with the call, and the table is borrowed from its owner.
ghost use Rattle.std.specs.Prelude.{◌≡◌, ◌<◌, true, length};
ghost use Rattle.call.specs.Effects.{by_mobile, effect_alone, effect_heard};
ghost use Rattle.call.specs.Records.{frame_of};
ghost use Rattle.call.specs.World.{mobile_at};
ghost use Rattle.mobile.specs.Steps.{mobile_listens, mobile_talks, finished};
ghost use Rattle.dispatch.specs.Checks.{Numbered};
ghost use Rattle.dispatch.specs.Lent.{lent};
ghost use Rattle.dispatch.specs.Steps.{SteppedTo};

use super::super::step::Step;
use super::super::tables::LentTables;
use super::parts::mobile_moment;
use call::{Call, GroupCall};
use messages::Message;
use mobile::TalkRequest;
use schemes::RankScheme;
use timing::Time;

// The user of a mobile that listens asks for a talk.
pub(super) fn ask<S: RankScheme>(
    group: &mut GroupCall,
    tables: &mut LentTables<'_>,
    scheme: &S,
    time: Time,
    mobile: u64,
    reference: u16,
    rank: u64,
) -> Step
    requires party { Numbered mobile (length tables.old.mobiles.now) 200 }
    requires few { rank < 256 }
    requires state { mobile_listens (mobile_at (lent group.old tables.old) mobile) ≡ true }
    ensures { SteppedTo (effect_alone (S.RankScheme.above scheme.now) (frame_of group.old) (Call.Ask time.ms mobile reference rank) (lent group.old tables.old)) group.old tables.old group.new tables.new result }
{
    let at = mobile_moment(group, time);
    let request = TalkRequest {
        reference,
        rank: rank as u8,
    };
    let answer = tables.mobiles[mobile as usize - 1].ask(request, at, scheme);
    group.accept(at.time);
    Step::from(answer.unwrap())
}

// The user of a mobile that talks ends the talk.
pub(super) fn finish(
    group: &mut GroupCall,
    tables: &mut LentTables<'_>,
    time: Time,
    mobile: u64,
) -> Step
    requires party { Numbered mobile (length tables.old.mobiles.now) 200 }
    requires state { mobile_talks (mobile_at (lent group.old tables.old) mobile) ≡ true }
    ensures { SteppedTo (by_mobile time.ms mobile (lent group.old tables.old) (finished (mobile_at (lent group.old tables.old) mobile))) group.old tables.old group.new tables.new result }
{
    let answer = tables.mobiles[mobile as usize - 1].finish();
    group.accept(time);
    Step::from(answer.unwrap())
}

pub(super) fn hear<S: RankScheme>(
    group: &mut GroupCall,
    tables: &mut LentTables<'_>,
    scheme: &S,
    time: Time,
    mobile: u64,
    message: Message,
) -> Step
    requires party { Numbered mobile (length tables.old.mobiles.now) 200 }
    ensures { SteppedTo (effect_heard (S.RankScheme.above scheme.now) (frame_of group.old) (Call.MobileHears time.ms mobile) (lent group.old tables.old) message) group.old tables.old group.new tables.new result }
{
    let at = mobile_moment(group, time);
    let step = tables.mobiles[mobile as usize - 1].hear(message, at, scheme);
    group.accept(at.time);
    Step::from(step)
}

pub(super) fn timer<S: RankScheme>(
    group: &mut GroupCall,
    tables: &mut LentTables<'_>,
    scheme: &S,
    time: Time,
    mobile: u64,
) -> Step
    requires party { Numbered mobile (length tables.old.mobiles.now) 200 }
    ensures { SteppedTo (effect_alone (S.RankScheme.above scheme.now) (frame_of group.old) (Call.MobileTimer time.ms mobile) (lent group.old tables.old)) group.old tables.old group.new tables.new result }
{
    let at = mobile_moment(group, time);
    let step = tables.mobiles[mobile as usize - 1].timer(at, scheme);
    group.accept(at.time);
    Step::from(step)
}
