// Talker priorities: 0 normal, 1 privileged, 2 emergency. The greater is above. They are codes, as the ranks of any scheme, since messages carry
// a code whatever the scheme is.
ghost use Rattle.schemes.specs.Priorities.{greater};
ghost use Rattle.std.proofs.Common.{rules};

use super::scheme::RankScheme;

#[derive(Clone, Copy)]
pub struct Priorities;

impl Priorities {
    pub const NORMAL: u8 = 0;

    pub const PRIVILEGED: u8 = 1;

    pub const EMERGENCY: u8 = 2;
}

impl RankScheme for Priorities {
    const RANKS: u8 = 3;

    ghost count = { 3 };

    ghost above = { λ _ a b. greater a b };

    ghost counted = { Prim.search rules };

    ghost bounded = { Prim.search rules };

    ghost irreflexive = { Prim.search rules };

    ghost transitive = { Prim.search rules };

    fn rank_count() -> u8 {
        Self::RANKS
    }

    fn is_above(&self, a: u8, b: u8) -> bool {
        b < a && a < Self::RANKS
    }
}
