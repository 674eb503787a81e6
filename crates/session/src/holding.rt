// A group call held on carriers that nobody has used.
ghost use Rattle.std.specs.Prelude.{◌≡◌, true, [], length, take, IfOk, Some, MatchResult};
ghost use Rattle.call.specs.Openings.{refusal_at_opening};
ghost use Rattle.dispatch.specs.Lent.{SameTables, Untouched};
ghost use Rattle.engine.specs.Conducts.{Guaranteed, conduct_refusal};
ghost use Rattle.engine.specs.Openings.{given_of};
ghost use Rattle.ether.specs.Ethers.{slots_of};
ghost use Rattle.session.specs.Errors.{IfRefused};
ghost use Rattle.session.specs.Models.{all_answers};
ghost use Rattle.session.specs.Settings.{first_model, frame_for};

use super::error::SessionError;
use call::{Answer, Call, CallSetup, GroupCall, Refusal};
use carriers::Queue;
use dispatch::LentTables;
use engine::conduct;
use ether::Ether;
use schemes::RankScheme;
use std::alloc::Global;

// Opens a call on new carriers and plays the list. The answers are those of the definition, which is a function of what is given and the
// calls; the guarantee holds of them. It is refused by the opening's checks, and then where there are fewer
// places for answers than calls. It fails besides only for want of memory.
pub fn hold<S: RankScheme>(
    heap: Global,
    setup: &CallSetup<'_>,
    tables: &mut LentTables<'_>,
    scheme: &S,
    calls: &[Call],
    answers: &mut [Answer],
) -> Result<GroupCall, SessionError>
    ensures exact { MatchResult result (λ _. take (length calls.now) answers.new ≡ all_answers (S.RankScheme.above scheme.now) S.RankScheme.count (frame_for (given_of setup.now.settings setup.now.subscribers.now tables.old)) calls.now (first_model (given_of setup.now.settings setup.now.subscribers.now tables.old))) (λ error. IfRefused error (λ refusal. (conduct_refusal (refusal_at_opening (given_of setup.now.settings setup.now.subscribers.now tables.old) true) (length calls.now) (length answers.old) ≡ Some refusal) × Untouched tables.old tables.new × (answers.new ≡ answers.old))) }
    ensures guarantee { IfOk result (λ group. Guaranteed (S.RankScheme.above scheme.now) S.RankScheme.count calls.now answers.new group tables.new) }
    ensures same { SameTables tables.old tables.new }
{
    let mut wire = Queue::new(heap)?;
    let mut air = Ether::new(heap)?;
    let group = hold_on(setup, tables, scheme, &mut air, &mut wire, calls, answers)?;
    Ok(group)
}

// On carriers that nobody has used.
fn hold_on<S: RankScheme>(
    setup: &CallSetup<'_>,
    tables: &mut LentTables<'_>,
    scheme: &S,
    air: &mut Ether,
    wire: &mut Queue,
    calls: &[Call],
    answers: &mut [Answer],
) -> Result<GroupCall, Refusal>
    requires { (slots_of air.old ≡ []) × (wire.old.waiting.items ≡ []) }
    ensures exact { MatchResult result (λ _. take (length calls.now) answers.new ≡ all_answers (S.RankScheme.above scheme.now) S.RankScheme.count (frame_for (given_of setup.now.settings setup.now.subscribers.now tables.old)) calls.now (first_model (given_of setup.now.settings setup.now.subscribers.now tables.old))) (λ refusal. (conduct_refusal (refusal_at_opening (given_of setup.now.settings setup.now.subscribers.now tables.old) true) (length calls.now) (length answers.old) ≡ Some refusal) × Untouched tables.old tables.new × (answers.new ≡ answers.old)) }
    ensures guarantee { IfOk result (λ group. Guaranteed (S.RankScheme.above scheme.now) S.RankScheme.count calls.now answers.new group tables.new) }
    ensures same { SameTables tables.old tables.new }
{
    conduct(setup, tables, scheme, air, wire, calls, answers)
}
