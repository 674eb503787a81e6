// The steps of the anchor.
ghost use Rattle.std.specs.Prelude.{◌≡◌, true};
ghost use Rattle.anchor.specs.Anchors.{floor_free, released};
ghost use Rattle.call.specs.Effects.{by_anchor, effect_heard};
ghost use Rattle.call.specs.Records.{frame_of};
ghost use Rattle.call.specs.World.{tables_good};
ghost use Rattle.dispatch.specs.Lent.{lent};
ghost use Rattle.dispatch.specs.Steps.{SteppedTo};

use super::super::step::Step;
use super::super::tables::LentTables;
use call::{Call, GroupCall};
use messages::Message;
use schemes::RankScheme;
use timing::Time;

// Hears a station. It requires `tables_good`, since no type holds the record and the tables together.
pub(super) fn hear<S: RankScheme>(
    group: &mut GroupCall,
    tables: &mut LentTables<'_>,
    scheme: &S,
    time: Time,
    message: Message,
) -> Step
    requires good { tables_good (frame_of group.old) (lent group.old tables.old) ≡ true }
    ensures { SteppedTo (effect_heard (S.RankScheme.above scheme.now) (frame_of group.old) (Call.AnchorHears time.ms) (lent group.old tables.old) message) group.old tables.old group.new tables.new result }
{
    let step = anchor::hear(tables.book, group.last(), message, group.stations(), scheme);
    group.number(step.last);
    group.accept(time);
    Step::from(step)
}

// The floor is free, and every station is told.
pub(super) fn release(group: &mut GroupCall, tables: &LentTables<'_>, time: Time) -> Step
    requires state { floor_free tables.now.book.now group.old.last ≡ true }
    ensures { SteppedTo (by_anchor time.ms (lent group.old tables.now) (released group.old.stations.count tables.now.book.now group.old.last)) group.old tables.now group.new tables.now result }
{
    let answer = anchor::release(tables.book, group.last(), group.stations());
    group.accept(time);
    Step::from(answer.unwrap())
}
