//! Why a SET symbol is not declared, read or set.
ghost use Rattle.std.specs.Prelude.{◌≡◌};
ghost use Rattle.set_symbols.specs.declared.fault.SetFault.TheVariants.{OutOfMemory};

use std::alloc::{AllocError, AllocFailed};
use thiserror::Error;

/// Why a SET symbol is not declared, read or set. The table is then as it was.
#[derive(Clone, Copy, Debug, PartialEq, Eq, Error)]
pub enum SetFault {
    /// The table has a symbol of this name already, of whatever type, declared or set.
    #[error("the symbol is already declared")]
    AlreadyDeclared,

    /// The table has no symbol of this name.
    #[error("the symbol is not declared")]
    NotDeclared,

    /// The symbol has another type than the value.
    #[error("the symbol has another type")]
    WrongType,

    /// The element is 0 or above 4,096.
    #[error("the subscript is out of range")]
    BadSubscript,

    /// There was no memory.
    #[error("out of memory")]
    OutOfMemory,
}

impl From<AllocError> for SetFault {
    ghost from_gives = { λ _ fault. fault ≡ OutOfMemory };

    fn from(_refused: AllocError) -> SetFault {
        SetFault::OutOfMemory
    }
}

impl<T: Drop> From<AllocFailed<T>> for SetFault {
    ghost from_gives = { λ _ fault. fault ≡ OutOfMemory };

    fn from(_refused: AllocFailed<T>) -> SetFault {
        SetFault::OutOfMemory
    }
}

impl From<hl_base::OutOfMemory> for SetFault {
    ghost from_gives = { λ _ fault. fault ≡ OutOfMemory };

    fn from(_refused: hl_base::OutOfMemory) -> SetFault {
        SetFault::OutOfMemory
    }
}
