//! Why words are not read.
ghost use Rattle.std.specs.Prelude.{◌≡◌};

use clap::error::ErrorKind;
use hl_base::OutOfMemory;
use thiserror::Error;

/// Why words are not read.
#[derive(Clone, Copy, Debug, PartialEq, Eq, Error)]
pub enum WordsFault {
    /// The words are no command.
    #[error("no command")]
    BadWords,

    /// There was no memory for them.
    #[error("out of memory")]
    OutOfMemory,
}

impl From<OutOfMemory> for WordsFault {
    ghost use Rattle.command_words.specs.declared.fault.WordsFault.TheVariants.{OutOfMemory as no_memory};

    ghost from_gives = { λ _ fault. fault ≡ no_memory };

    fn from(_refused: OutOfMemory) -> WordsFault {
        WordsFault::OutOfMemory
    }
}

/// What a refusal of the command line means: words that it does not take, unless memory ran out.
pub(crate) fn fault_of_kind(kind: ErrorKind) -> WordsFault
    ensures words { result ≡ WordsFault.BadWords → kind ≡ ErrorKind.OutOfMemory → ⊥ }
{
    match kind {
        ErrorKind::OutOfMemory => WordsFault::OutOfMemory,
        _ => WordsFault::BadWords,
    }
}
