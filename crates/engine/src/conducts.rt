// The call that opens a group call and plays a whole list.
ghost use Rattle.std.specs.Prelude.{◌≡◌, ◌≤◌, ◌&&◌, length, IfOk, IfErr, Some};
ghost use Rattle.call.specs.Openings.{refusal_at_opening};
ghost use Rattle.carriers.specs.Meaning.{empty};
ghost use Rattle.engine.specs.Conducts.{Conducted, Guaranteed, conduct_refusal};
ghost use Rattle.dispatch.specs.Lent.{SameTables, Untouched};
ghost use Rattle.engine.specs.Openings.{OpeningRefused, given_of};

use super::calls::OngoingCall;
use super::opening::{open, opening_record};
use call::{Answer, Call, CallSetup, GroupCall, Refusal};
use carriers::Carrier;
use dispatch::LentTables;
use schemes::RankScheme;

// Opens a call on the lent tables and plays the list, with an answer for each call. Refused by the opening's checks, and then, with
// nothing opened, where there are fewer answer places than calls. Whatever the list, the guarantee on talkers, spells and attempts holds of
// the calls with their answers, the book and the mobiles. It takes the parts, since there is no record before it opens.
pub fn conduct<S: RankScheme, A: Carrier, W: Carrier>(
    setup: &CallSetup<'_>,
    tables: &mut LentTables<'_>,
    scheme: &S,
    air: &mut A,
    wire: &mut W,
    calls: &[Call],
    answers: &mut [Answer],
) -> Result<GroupCall, Refusal>
    ensures guarantee { IfOk result (λ group. Guaranteed (S.RankScheme.above scheme.now) S.RankScheme.count calls.now answers.new group tables.new) }
    ensures run { IfOk result (λ group. Conducted A.Carrier.pending W.Carrier.pending A.Carrier.says W.Carrier.says A.Carrier.hears W.Carrier.hears (S.RankScheme.above scheme.now) S.RankScheme.count (given_of setup.now.settings setup.now.subscribers.now tables.old) air.old wire.old calls.now answers.old answers.new group tables.new air.new wire.new) }
    ensures refused { IfErr result (λ refusal. (conduct_refusal (refusal_at_opening (given_of setup.now.settings setup.now.subscribers.now tables.old) (empty (A.Carrier.pending air.old) && empty (W.Carrier.pending wire.old))) (length calls.now) (length answers.old) ≡ Some refusal) × Untouched tables.old tables.new × (answers.new ≡ answers.old) × (air.new ≡ air.old) × (wire.new ≡ wire.old)) }
    ensures same { SameTables tables.old tables.new }
{
    if answers.len() < calls.len() {
        opening_record(setup, tables, air, wire)?;
        return Err(Refusal::FewPlaces);
    }
    open_and_play(setup, tables, scheme, air, wire, calls, answers)
}

fn open_and_play<S: RankScheme, A: Carrier, W: Carrier>(
    setup: &CallSetup<'_>,
    tables: &mut LentTables<'_>,
    scheme: &S,
    air: &mut A,
    wire: &mut W,
    calls: &[Call],
    answers: &mut [Answer],
) -> Result<GroupCall, Refusal>
    requires { length calls.now ≤ length answers.old }
    ensures guarantee { IfOk result (λ group. Guaranteed (S.RankScheme.above scheme.now) S.RankScheme.count calls.now answers.new group tables.new) }
    ensures run { IfOk result (λ group. Conducted A.Carrier.pending W.Carrier.pending A.Carrier.says W.Carrier.says A.Carrier.hears W.Carrier.hears (S.RankScheme.above scheme.now) S.RankScheme.count (given_of setup.now.settings setup.now.subscribers.now tables.old) air.old wire.old calls.now answers.old answers.new group tables.new air.new wire.new) }
    ensures refused { IfErr result (λ refusal. OpeningRefused (given_of setup.now.settings setup.now.subscribers.now tables.old) (empty (A.Carrier.pending air.old) && empty (W.Carrier.pending wire.old)) tables.old refusal tables.new × (answers.new ≡ answers.old) × (air.new ≡ air.old) × (wire.new ≡ wire.old)) }
    ensures same { SameTables tables.old tables.new }
{
    let mut group = open(setup, tables, air, wire)?;
    let mut ongoing = OngoingCall {
        group: &mut group,
        mobiles: tables.mobiles,
        stations: tables.stations,
        book: tables.book,
        scheme,
        air,
        wire,
    };
    ongoing.play_all(calls, answers);
    Ok(group)
}
