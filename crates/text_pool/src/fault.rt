//! Why a text is not taken into the pool.
ghost use Rattle.std.specs.Prelude.{◌≡◌};
ghost use Rattle.text_pool.specs.declared.fault.PoolFault.TheVariants.{OutOfMemory};

use std::alloc::{AllocError, AllocFailed};
use thiserror::Error;

/// Why a text is not taken into the pool, which is then as it was.
#[derive(Clone, Copy, Debug, PartialEq, Eq, Error)]
pub enum PoolFault {
    /// The text has more than 4 MiB.
    #[error("the text has more than 4 MiB")]
    TooLong,

    /// There was no memory for the text, no number, or no room in the count of its owners.
    #[error("out of memory")]
    OutOfMemory,
}

impl From<AllocError> for PoolFault {
    ghost from_gives = { λ _ fault. fault ≡ OutOfMemory };

    fn from(_refused: AllocError) -> PoolFault {
        PoolFault::OutOfMemory
    }
}

impl<T: Drop> From<AllocFailed<T>> for PoolFault {
    ghost from_gives = { λ _ fault. fault ≡ OutOfMemory };

    fn from(_refused: AllocFailed<T>) -> PoolFault {
        PoolFault::OutOfMemory
    }
}

impl From<hl_base::OutOfMemory> for PoolFault {
    ghost from_gives = { λ _ fault. fault ≡ OutOfMemory };

    fn from(_refused: hl_base::OutOfMemory) -> PoolFault {
        PoolFault::OutOfMemory
    }
}
