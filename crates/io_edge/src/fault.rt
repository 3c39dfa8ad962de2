//! Why a call on the outside was refused.
ghost use Rattle.std.specs.Prelude.{◌≡◌};

use hl_base::OutOfMemory;
use std::alloc::{AllocError, AllocFailed};
use thiserror::Error;

/// The outside refused a call. Its count of faults says so too.
#[derive(Clone, Copy, Debug, PartialEq, Eq, Error)]
#[error("the outside refused a call")]
pub struct Failed;

/// Why a library did not answer.
#[derive(Clone, Copy, Debug, PartialEq, Eq, Error)]
pub enum LibraryFault {
    /// The library refused the call. Its count of faults says so too.
    #[error("the library refused a call")]
    Failed,
    #[error("out of memory")]
    OutOfMemory,
}

impl From<OutOfMemory> for LibraryFault {
    ghost use Rattle.io_edge.specs.declared.fault.LibraryFault.TheVariants.{OutOfMemory as no_memory};

    ghost from_gives = { λ _ e. e ≡ no_memory };

    fn from(_refused: OutOfMemory) -> LibraryFault {
        LibraryFault::OutOfMemory
    }
}

impl From<AllocError> for LibraryFault {
    ghost use Rattle.io_edge.specs.declared.fault.LibraryFault.TheVariants.{OutOfMemory as no_memory};

    ghost from_gives = { λ _ e. e ≡ no_memory };

    fn from(_refused: AllocError) -> LibraryFault {
        LibraryFault::OutOfMemory
    }
}

impl<T: Drop> From<AllocFailed<T>> for LibraryFault {
    ghost use Rattle.io_edge.specs.declared.fault.LibraryFault.TheVariants.{OutOfMemory as no_memory};

    ghost from_gives = { λ _ e. e ≡ no_memory };

    fn from(_refused: AllocFailed<T>) -> LibraryFault {
        LibraryFault::OutOfMemory
    }
}
