// The yard: tables for two mobiles at one station, and a book of sixteen grants.
ghost use Rattle.std.specs.Prelude.{◌≡◌, MatchResult};
ghost use Rattle.call.specs.Guarantees.{Guarantee};
ghost use Rattle.engine.specs.Lists.{exchanges};

use super::line::Line;
use anchor::Entry;
use call::{Answer, Call, CallSetup, GroupCall, Refusal};
use dispatch::LentTables;
use engine::conduct;
use mobile::Mobile;
use schemes::RankScheme;
use station::Station;

pub struct Yard {
    pub mobiles: [Mobile; 2],
    pub stations: [Station; 1],
    pub book: [Entry; 16],
    pub air: Line,
    pub wire: Line,
}

impl Yard {
    // Opens a call as it is set up, and plays a list of calls on it. The host's own contract says the guarantee of its tables.
    pub fn lesson<S: RankScheme>(
        &mut self,
        setup: &CallSetup<'_>,
        scheme: &S,
        calls: &[Call],
        answers: &mut [Answer],
    ) -> Result<GroupCall, Refusal>
        ensures { MatchResult result (λ group. Guarantee (S.RankScheme.above scheme.now) S.RankScheme.count (exchanges calls.now answers.new) self.new.book group.last self.new.mobiles) (λ _. answers.new ≡ answers.old) }
    {
        let mut tables = LentTables {
            mobiles: &mut self.mobiles,
            stations: &mut self.stations,
            book: &mut self.book,
        };
        conduct(
            setup,
            &mut tables,
            scheme,
            &mut self.air,
            &mut self.wire,
            calls,
            answers,
        )
    }
}
