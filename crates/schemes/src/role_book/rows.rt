// Making a role book, and its ranks: role a is above role b when its level is greater and its district is 0 or that of b.
ghost use Rattle.std.specs.Prelude.{◌≡◌, true, false, MatchResult};
ghost use Rattle.schemes.specs.Roles.{in_limits, every_in_limits, outranks};
ghost use Rattle.std.proofs.Common.{rules};

use super::super::role::Role;
use super::super::scheme::RankScheme;
use super::RoleBook;

// Why no role book was made.
#[derive(Clone, Copy, PartialEq, Eq, Debug)]
pub enum BookFault {
    // a level above 7 or a district above 3
    Limits,
}

impl Role {
    // Whether the level is 0 to 7 and the district 0 to 3.
    pub fn in_limits(&self) -> bool
        ensures { result ≡ in_limits self.now }
    {
        self.level <= 7 && self.district <= 3
    }
}

impl RoleBook {
    // The book of these roles, or a fault where one of them is outside its limits.
    pub fn new(roles: [Role; 16]) -> Result<RoleBook, BookFault>
        ensures { MatchResult result (λ book. book.roles ≡ roles) (λ _. every_in_limits roles ≡ false) }
    {
        if !all_in_limits(&roles) {
            return Err(BookFault::Limits);
        }
        Ok(RoleBook { roles })
    }
}

fn all_in_limits(roles: &[Role]) -> bool
    ensures { result ≡ every_in_limits roles.now }
{
    roles.iter().all(|role| role.in_limits())
}

impl RankScheme for RoleBook {
    const RANKS: u8 = 16;

    ghost count = { 16 };

    ghost above = { λ book a b. outranks book.roles a b };

    ghost counted = { Prim.search rules };

    ghost bounded = { Prim.search rules };

    ghost irreflexive = { Prim.search rules };

    ghost transitive = { Prim.search rules };

    fn rank_count() -> u8 {
        Self::RANKS
    }

    fn is_above(&self, a: u8, b: u8) -> bool {
        if a >= Self::RANKS || b >= Self::RANKS {
            return false;
        }
        let upper = self.roles[a as usize];
        let lower = self.roles[b as usize];
        upper.level > lower.level && (upper.district == 0 || upper.district == lower.district)
    }
}
