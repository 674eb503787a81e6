// What the Fade does with a message.
ghost use Rattle.std.specs.Prelude.{◌≡◌, ◌==◌, if◌then◌else◌};
ghost use Rattle.carriers.specs.declared.fade.mark.Mark.TheVariants.{Loses, Passes, Repeats};

#[derive(Clone, Copy)]
pub(super) enum Mark {
    Passes,
    Loses,
    Repeats,
}

impl From<u8> for Mark {
    ghost from_gives = { λ byte mark. mark ≡ (if byte == 1 then Loses else if byte == 2 then Repeats else Passes) };

    fn from(byte: u8) -> Mark {
        match byte {
            1 => Mark::Loses,
            2 => Mark::Repeats,
            _ => Mark::Passes,
        }
    }
}
