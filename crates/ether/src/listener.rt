// A listener that an Ether knows: 0 to 208. A value of this type is always in range.
ghost use Rattle.std.specs.Prelude.{◌≡◌, ◌≤◌, ◌<◌, MatchOption};

#[derive(Clone, Copy)]
pub(crate) struct Listener {
    pub(crate) number: u16,
    ghost known: { number ≤ 208 },
}

impl Listener {
    // Nothing above 208.
    pub(crate) fn new(number: u16) -> Option<Listener>
        ensures { MatchOption result (208 < number) (λ l. l.number ≡ number) }
    {
        if number > 208 {
            return None;
        }
        Some(Listener { number })
    }
}
