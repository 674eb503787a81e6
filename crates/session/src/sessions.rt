// A whole session on tables of its own.
ghost use Rattle.std.specs.Prelude.{◌≡◌, true, false, length, IfOk, Some, None, MatchResult};
ghost use Rattle.call.specs.Openings.{opening_check};
ghost use Rattle.call.specs.declared.answer.Refusal.TheVariants.{Setting};
ghost use Rattle.session.specs.Errors.{IfRefused};
ghost use Rattle.session.specs.Models.{all_answers};
ghost use Rattle.session.specs.Sessions.{Kept, above_for, given_for, no_roles, ranks_for, roles_good, session_answers, session_refusal};
ghost use Rattle.session.specs.Settings.{first_model, frame_for};

use super::error::SessionError;
use super::holding::hold;
use anchor::Entry;
use call::{Answer, Call, CallSetup, Refusal};
use dispatch::LentTables;
use engine::check_opening;
use mobile::Mobile;
use schemes::{Priorities, RankScheme, Role, RoleBook};
use station::Station;
use std::alloc::Global;

// What a session is played from.
#[derive(Clone, Copy)]
pub struct SessionPlan<'a> {
    pub setup: CallSetup<'a>,
    // none for the talker priorities, or sixteen
    pub roles: &'a [Role],
    // how many there are
    pub stations: u64,
    pub calls: &'a [Call],
}

// Plays a list of calls from the opening on, with the talker priorities or, where there are roles, with their book. It is refused by the
// opening's checks, and then where the roles are not sixteen in their limits. It fails besides only for want of memory.
pub fn play_session(heap: Global, plan: &SessionPlan<'_>) -> Result<Vec<Answer>, SessionError>
    ensures exact { MatchResult result (λ answers. (session_refusal plan.now.setup.settings plan.now.setup.subscribers.now plan.now.roles.now plan.now.stations ≡ None) × (answers.items ≡ session_answers plan.now.setup.settings plan.now.setup.subscribers.now plan.now.roles.now plan.now.stations plan.now.calls.now)) (λ error. IfRefused error (λ refusal. session_refusal plan.now.setup.settings plan.now.setup.subscribers.now plan.now.roles.now plan.now.stations ≡ Some refusal)) }
    ensures guarantee { IfOk result (λ answers. Kept (above_for plan.now.roles.now) (ranks_for plan.now.roles.now) plan.now.calls.now answers.items) }
{
    let mobiles = plan.setup.subscribers.len();
    check_opening(&plan.setup, mobiles, plan.stations as usize, 4096)?;
    play_ranked(heap, plan)
}

// Once the opening's checks have passed.
fn play_ranked(heap: Global, plan: &SessionPlan<'_>) -> Result<Vec<Answer>, SessionError>
    requires { opening_check plan.now.setup.settings plan.now.setup.subscribers.now (length plan.now.setup.subscribers.now) plan.now.stations 4096 true ≡ None }
    ensures exact { MatchResult result (λ answers. (session_refusal plan.now.setup.settings plan.now.setup.subscribers.now plan.now.roles.now plan.now.stations ≡ None) × (answers.items ≡ session_answers plan.now.setup.settings plan.now.setup.subscribers.now plan.now.roles.now plan.now.stations plan.now.calls.now)) (λ error. IfRefused error (λ refusal. session_refusal plan.now.setup.settings plan.now.setup.subscribers.now plan.now.roles.now plan.now.stations ≡ Some refusal)) }
    ensures guarantee { IfOk result (λ answers. Kept (above_for plan.now.roles.now) (ranks_for plan.now.roles.now) plan.now.calls.now answers.items) }
{
    if plan.roles.is_empty() {
        return play(heap, plan, &Priorities);
    }
    let book = role_book(plan.roles)?;
    play(heap, plan, &book)
}

// The book of sixteen roles in their limits; other roles are refused.
fn role_book(roles: &[Role]) -> Result<RoleBook, Refusal>
    requires { no_roles roles.now ≡ false }
    ensures { MatchResult result (λ book. (roles_good roles.now ≡ true) × (book.roles ≡ roles.now)) (λ refusal. (refusal ≡ Setting) × (roles_good roles.now ≡ false)) }
{
    let roles = <[Role; 16]>::try_from(roles).map_err(|_| Refusal::Setting)?;
    RoleBook::new(roles).map_err(|_| Refusal::Setting)
}

// On new tables, once the opening's checks have passed.
fn play<S: RankScheme>(
    heap: Global,
    plan: &SessionPlan<'_>,
    scheme: &S,
) -> Result<Vec<Answer>, SessionError>
    requires { opening_check plan.now.setup.settings plan.now.setup.subscribers.now (length plan.now.setup.subscribers.now) plan.now.stations 4096 true ≡ None }
    ensures exact { MatchResult result (λ answers. answers.items ≡ all_answers (S.RankScheme.above scheme.now) S.RankScheme.count (frame_for (given_for plan.now.setup.settings plan.now.setup.subscribers.now plan.now.stations)) plan.now.calls.now (first_model (given_for plan.now.setup.settings plan.now.setup.subscribers.now plan.now.stations))) (λ error. IfRefused error (λ _. ⊥)) }
    ensures guarantee { IfOk result (λ answers. Kept (S.RankScheme.above scheme.now) S.RankScheme.count plan.now.calls.now answers.items) }
{
    let setup = &plan.setup;
    let mut mobiles = vec![in heap; Mobile::default(); setup.subscribers.len()]?;
    let mut stations = vec![in heap; Station::default(); plan.stations as usize]?;
    let mut book = vec![in heap; Entry::default(); 4096]?;
    let mut answers = vec![in heap; Answer::default(); plan.calls.len()]?;
    let mut tables = LentTables {
        mobiles: &mut mobiles,
        stations: &mut stations,
        book: &mut book,
    };
    hold(heap, setup, &mut tables, scheme, plan.calls, &mut answers)?;
    Ok(answers)
}
