//! Why a definition is refused.
ghost use Rattle.std.specs.Prelude.{◌≡◌};
ghost use Rattle.macro_library.specs.declared.fault.DefFault.TheVariants.{OutOfMemory};

use hl_base::Name;
use std::alloc::{AllocError, AllocFailed};

/// Why a definition is refused, or what has to be told first.
#[derive(Drop)]
pub enum DefFault {
    /// No MEND ends it, and nothing else is wrong with it.
    NoMend,

    /// The statement behind MACRO cannot be read as a prototype.
    BadPrototype,

    /// It copies this member, of which there is none.
    CopyAbsent(Name),

    /// It copies this member, which cannot be read.
    CopyUnreadable(Name),

    /// It copies this member within itself.
    CopyCycle(Name),

    /// The macro of this name would have more statements than a definition may have.
    TooLong(Name),

    /// It copies this member, of which nothing was told.
    Asks(Name),

    /// There was no memory.
    OutOfMemory,
}

impl From<hl_base::OutOfMemory> for DefFault {
    ghost from_gives = { λ _ fault. fault ≡ OutOfMemory };

    fn from(_refused: hl_base::OutOfMemory) -> DefFault {
        DefFault::OutOfMemory
    }
}

impl From<AllocError> for DefFault {
    ghost from_gives = { λ _ fault. fault ≡ OutOfMemory };

    fn from(_refused: AllocError) -> DefFault {
        DefFault::OutOfMemory
    }
}

impl<T: Drop> From<AllocFailed<T>> for DefFault {
    ghost from_gives = { λ _ fault. fault ≡ OutOfMemory };

    fn from(_refused: AllocFailed<T>) -> DefFault {
        DefFault::OutOfMemory
    }
}
