// The laws of reading, proved of the definitions that the code is held to.
ghost use Rattle.std.specs.Prelude.{◌≡◌, true};
ghost use Rattle.playlist.specs.Laws.{FirstFault, ReadsBack};

fn every_rendering()
    ensures { ReadsBack }
{}

// Reading what a well-formed list of entries is rendered as gives the list back.
pub fn renderings_read_back() -> bool
    ensures answer { result ≡ true }
    ensures law { ReadsBack }
{
    every_rendering();
    true
}

fn every_fault()
    ensures { FirstFault }
{}

// In a faulted text every line before the faulted one is good where it stands.
pub fn faults_are_first() -> bool
    ensures answer { result ≡ true }
    ensures law { FirstFault }
{
    every_fault();
    true
}
