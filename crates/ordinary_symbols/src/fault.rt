//! Why a symbol is not defined, and why an expression has no value.
use hl_base::{Name, OutOfMemory};
use std::alloc::{AllocError, AllocFailed};
use thiserror::Error;

/// Why an expression has no value: the first fault from left to right, operands before their operator.
#[derive(Drop)]
pub enum EvalFault {
    /// This symbol is not defined, or has no value.
    Undefined(Name),

    /// A product of relocatable values, or an expression that is neither absolute nor in one section.
    NotSimple,

    /// A number does not fit 32 bits.
    Overflow,
}

/// Why the EQU of a symbol has no value.
#[derive(Clone, Copy, Debug, PartialEq, Eq)]
pub enum Trouble {
    /// A symbol of its expression has no value, so it is deferred still.
    Unresolved,

    /// It was tried, and its expression is not absolute or simply relocatable, or a number does not fit.
    Unsimple,
}

/// Why a symbol is not defined. The symbols are then as they were.
#[derive(Clone, Copy, Debug, PartialEq, Eq, Error)]
pub enum DefineFault {
    /// There is a symbol of this name already.
    #[error("the symbol is already defined")]
    AlreadyDefined,

    /// There was no memory.
    #[error("out of memory")]
    OutOfMemory,
}

impl From<OutOfMemory> for DefineFault {
    ghost use Rattle.std.specs.Prelude.{◌≡◌};
    ghost use Rattle.ordinary_symbols.specs.declared.fault.DefineFault.TheVariants as faults;

    ghost from_gives = { λ _ fault. fault ≡ faults.OutOfMemory };

    fn from(_refused: OutOfMemory) -> DefineFault {
        DefineFault::OutOfMemory
    }
}

impl From<AllocError> for DefineFault {
    ghost use Rattle.std.specs.Prelude.{◌≡◌};
    ghost use Rattle.ordinary_symbols.specs.declared.fault.DefineFault.TheVariants as faults;

    ghost from_gives = { λ _ fault. fault ≡ faults.OutOfMemory };

    fn from(_refused: AllocError) -> DefineFault {
        DefineFault::OutOfMemory
    }
}

impl<T: Drop> From<AllocFailed<T>> for DefineFault {
    ghost use Rattle.std.specs.Prelude.{◌≡◌};
    ghost use Rattle.ordinary_symbols.specs.declared.fault.DefineFault.TheVariants as faults;

    ghost from_gives = { λ _ fault. fault ≡ faults.OutOfMemory };

    fn from(_refused: AllocFailed<T>) -> DefineFault {
        DefineFault::OutOfMemory
    }
}
