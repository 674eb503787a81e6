// Why a session gives no answers.
ghost use Rattle.std.specs.Prelude.{◌≡◌};
ghost use Rattle.session.specs.declared.error.SessionError.TheVariants.{Refused, Memory};

use call::Refusal;
use std::alloc::AllocError;

#[derive(Clone, Copy, Debug)]
pub enum SessionError {
    // by a check of the opening, for too few places for answers, or by the roles
    Refused(Refusal),
    // for want of memory
    Memory(AllocError),
}

impl From<Refusal> for SessionError {
    ghost from_gives = { λ refusal error. error ≡ Refused refusal };

    fn from(refusal: Refusal) -> SessionError {
        SessionError::Refused(refusal)
    }
}

impl From<AllocError> for SessionError {
    ghost from_gives = { λ failed error. error ≡ Memory failed };

    fn from(failed: AllocError) -> SessionError {
        SessionError::Memory(failed)
    }
}
