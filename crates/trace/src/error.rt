//! Why a trace is not read.
ghost use Rattle.std.specs.Prelude.{◌≡◌, alloc_error};
ghost use Rattle.trace.specs.declared.error.ReadError.TheVariants.{Fault as faulty, NoMemory};

use crate::fault::Fault;
use std::alloc::{AllocError, AllocFailed};

/// A fault of the trace, or want of memory.
#[derive(Clone, Copy, Debug)]
pub enum ReadError {
    Fault(Fault),
    NoMemory(AllocError),
}

impl From<Fault> for ReadError {
    ghost from_gives = { λ f r. r ≡ faulty f };

    fn from(fault: Fault) -> ReadError {
        ReadError::Fault(fault)
    }
}

impl<T: Drop> From<AllocFailed<T>> for ReadError {
    ghost from_gives = { λ _ r. r ≡ NoMemory alloc_error };

    fn from(refused: AllocFailed<T>) -> ReadError {
        ReadError::NoMemory(AllocError::from(refused))
    }
}
