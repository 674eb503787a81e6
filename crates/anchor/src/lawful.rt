// The laws of the anchor, proved of the definitions that its steps are held to.
ghost use Rattle.std.specs.Prelude.{◌≡◌, true};
ghost use Rattle.anchor.specs.Laws.{AnchorLaws};

fn every_law()
    ensures { AnchorLaws }
{}

// The laws hold of every step.
pub fn laws_hold() -> bool
    ensures answer { result ≡ true }
    ensures laws { AnchorLaws }
{
    every_law();
    true
}
