// What a rank scheme is, and what follows for a row of ranks each above the one before.
ghost use Rattle.std.specs.Prelude.{◌≡◌, ℕ, ◌<◌, ◌≤◌, Bool, true, ◌≢◌};
ghost use Rattle.schemes.specs.Spells.{SpellsRise};

// A rank scheme means its count of ranks and the relation `above` between their codes, 0 to count - 1.
pub trait RankScheme {
    // The count of ranks. Generic code cannot read a trait's constant, so `count` and `rank_count` stand beside it.
    const RANKS: u8;

    ghost count: { ℕ };

    ghost above: { Self → ℕ → ℕ → Bool };

    fn rank_count() -> u8
        ensures { result ≡ count };

    // Whether code `a` is above code `b`.
    fn is_above(&self, a: u8, b: u8) -> bool
        ensures { result ≡ above self.now a b };

    ghost counted: { (1 ≤ count) × (count ≤ 64) };

    ghost bounded: { (s : Self) (a b : ℕ) → above s a b ≡ true → (a < count) × (b < count) };

    ghost irreflexive: { (s : Self) (a : ℕ) → above s a a ≢ true };

    ghost transitive: { (s : Self) (a b c : ℕ) → above s a b ≡ true → above s b c ≡ true → above s a c ≡ true };
}

// The law for spells, proved once from the laws of a scheme.
fn spells_rise<S: RankScheme>()
    ensures { SpellsRise S.RankScheme.above S.RankScheme.count }
{}

// The most grants that a spell can have: the scheme's count of ranks.
pub fn longest_spell<S: RankScheme>() -> u8
    ensures counts { result ≡ S.RankScheme.count }
    ensures spells { SpellsRise S.RankScheme.above S.RankScheme.count }
{
    spells_rise::<S>();
    S::rank_count()
}
