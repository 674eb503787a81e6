// The promises of every run, proved of the definitions that the calls are held to.
ghost use Rattle.std.specs.Prelude.{◌≡◌, true};
ghost use Rattle.call.specs.Promises.{EveryRun};

use carriers::Carrier;
use schemes::RankScheme;

fn every_run<S: RankScheme, A: Carrier, W: Carrier>()
    ensures { EveryRun A.Carrier.pending W.Carrier.pending A.Carrier.says W.Carrier.says A.Carrier.hears W.Carrier.hears S.RankScheme.above S.RankScheme.count }
{}

// For every rank scheme, air and wire: after an opening that is answered 28, any number of calls keep the guarantee on talkers, spells
// and attempts, and no notice clock drifts.
pub fn guarantee_holds<S: RankScheme, A: Carrier, W: Carrier>() -> bool
    ensures answer { result ≡ true }
    ensures runs { EveryRun A.Carrier.pending W.Carrier.pending A.Carrier.says W.Carrier.says A.Carrier.hears W.Carrier.hears S.RankScheme.above S.RankScheme.count }
{
    every_run::<S, A, W>();
    true
}
