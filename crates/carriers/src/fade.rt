// The Fade, a carrier over any other, for lost and repeated messages. It means what the carrier under it means.
ghost use Rattle.std.specs.Prelude.{◌<◌};

mod mark;
mod marks;

// Message number n, from 0, uses mark n modulo 64: 1 loses it, 2 says it twice, any other lets it pass.
#[derive(Drop)]
pub struct Fade<C> {
    under: C,
    marks: [u8; 64],
    // the number of the next message, modulo 64
    next: usize,
    ghost turn: { next < 64 },
}
