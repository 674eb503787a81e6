// Why a text could not be read.
ghost use Rattle.std.specs.Prelude.{◌≡◌, alloc_error};
ghost use Rattle.playlist.specs.declared.read_error.ReadError.TheVariants as errors;

use super::fault::Fault;
use std::alloc::{AllocError, AllocFailed};

#[derive(Clone, Copy, PartialEq, Eq, Debug)]
pub enum ReadError {
    // it is no playlist
    Fault(Fault),
    Memory(AllocError),
}

impl From<Fault> for ReadError {
    ghost from_gives = { λ fault error. error ≡ errors.Fault fault };

    fn from(fault: Fault) -> ReadError {
        ReadError::Fault(fault)
    }
}

impl From<AllocError> for ReadError {
    ghost from_gives = { λ failed error. error ≡ errors.Memory failed };

    fn from(failed: AllocError) -> ReadError {
        ReadError::Memory(failed)
    }
}
