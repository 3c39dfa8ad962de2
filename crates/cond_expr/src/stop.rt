//! Why an evaluation ends before its value is known.
ghost use Rattle.std.specs.Prelude.{◌≡◌};

use hl_base::Key;
use std::alloc::{AllocError, AllocFailed};

/// The answer to a key is needed and was not given, or there was no memory.
#[derive(Drop)]
pub enum Stop {
    Asked(Key),
    OutOfMemory,
}

impl From<hl_base::OutOfMemory> for Stop {
    ghost use Rattle.cond_expr.specs.declared.stop.Stop.TheVariants.{OutOfMemory};

    ghost from_gives = { λ _ stop. stop ≡ OutOfMemory };

    fn from(_refused: hl_base::OutOfMemory) -> Stop {
        Stop::OutOfMemory
    }
}

impl From<AllocError> for Stop {
    ghost use Rattle.cond_expr.specs.declared.stop.Stop.TheVariants.{OutOfMemory};

    ghost from_gives = { λ _ stop. stop ≡ OutOfMemory };

    fn from(_refused: AllocError) -> Stop {
        Stop::OutOfMemory
    }
}

impl<T: Drop> From<AllocFailed<T>> for Stop {
    ghost use Rattle.cond_expr.specs.declared.stop.Stop.TheVariants.{OutOfMemory};

    ghost from_gives = { λ _ stop. stop ≡ OutOfMemory };

    fn from(_refused: AllocFailed<T>) -> Stop {
        Stop::OutOfMemory
    }
}
