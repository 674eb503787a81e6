// One call of a group call, whichever it is: checked, heard, stepped, said.
ghost use Rattle.dispatch.specs.Worlds.{Made};

use super::checks::admit;
use super::deliver::deliver;
use super::listen::listen;
use super::steps::step;
use super::tables::LentTables;
use call::{Answer, Call, GroupCall};
use carriers::Carrier;
use schemes::RankScheme;

// Refused by the first check that fails, with nothing changed; else what it heard decides the step, and what is said is counted as kept or lost.
// The five borrows are no struct here, since in this crate `make` alone takes all five (a host holds them as the engine's `OngoingCall`): the
// checks and the steps take the record and the tables, some steps the scheme too, listening the tables and the carriers, saying the carriers.
pub fn make<S: RankScheme, A: Carrier, W: Carrier>(
    group: &mut GroupCall,
    tables: &mut LentTables<'_>,
    scheme: &S,
    air: &mut A,
    wire: &mut W,
    call: &Call,
) -> Answer
    ensures { Made A.Carrier.says W.Carrier.says A.Carrier.hears W.Carrier.hears (S.RankScheme.above scheme.now) S.RankScheme.count group.old tables.old air.old wire.old call.now result group.new tables.new air.new wire.new }
{
    let time = match admit(group, tables, S::rank_count(), call) {
        Ok(time) => time,
        Err(refusal) => return Answer::from(refusal),
    };
    let heard = listen(tables, call, air, wire);
    let step = step(group, tables, scheme, time, call, heard);
    let delivery = deliver(&step.outbox, air, wire);
    Answer {
        outcome: step.outcome,
        kept: delivery.kept,
        lost: delivery.lost,
    }
}
