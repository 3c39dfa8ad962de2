//! Why the store refuses a call.
ghost use Rattle.std.specs.Prelude.{◌≡◌};
ghost use Rattle.document_store.specs.declared.fault.StoreFault.TheVariants.{OutOfMemory};
ghost use Rattle.document_store.specs.Faults.{of_uri, of_pool};

use file_uri::UriFault;
use std::alloc::{AllocError, AllocFailed};
use text_pool::PoolFault;
use thiserror::Error;

/// Why a call is refused. The store is then as it was.
#[derive(Clone, Copy, Debug, PartialEq, Eq, Error)]
pub enum StoreFault {
    /// The URI is no URL, has another scheme than `file`, names a host, or its path is not UTF-8.
    #[error("the URI names no file of this machine")]
    BadUri,

    /// A document of this path is open.
    #[error("the document is open")]
    AlreadyOpen,

    /// 64 documents are open.
    #[error("too many documents are open")]
    TooMany,

    /// The text would have more than 4 MiB in UTF-8.
    #[error("the text is too long")]
    TextTooLong,

    /// No document of this path is open.
    #[error("the document is not open")]
    NotOpen,

    /// The start of the change of this number, counted from 0, lies behind its end.
    #[error("the range of change {0} ends before it begins")]
    BadRange(u32),

    /// With this file there would be more than 16,000 files of members, or more than 64 MiB of them in UTF-8.
    #[error("the files of members are too many or too large")]
    LibraryTooLarge,

    /// There was no memory, or no number of 32 bits is left.
    #[error("out of memory")]
    OutOfMemory,
}

impl From<AllocError> for StoreFault {
    ghost from_gives = { λ _ fault. fault ≡ OutOfMemory };

    fn from(_refused: AllocError) -> StoreFault {
        StoreFault::OutOfMemory
    }
}

impl<T: Drop> From<AllocFailed<T>> for StoreFault {
    ghost from_gives = { λ _ fault. fault ≡ OutOfMemory };

    fn from(_refused: AllocFailed<T>) -> StoreFault {
        StoreFault::OutOfMemory
    }
}

impl From<hl_base::OutOfMemory> for StoreFault {
    ghost from_gives = { λ _ fault. fault ≡ OutOfMemory };

    fn from(_refused: hl_base::OutOfMemory) -> StoreFault {
        StoreFault::OutOfMemory
    }
}

impl From<UriFault> for StoreFault {
    ghost from_gives = { λ refused fault. fault ≡ of_uri refused };

    fn from(refused: UriFault) -> StoreFault {
        match refused {
            UriFault::BadUri => StoreFault::BadUri,
            UriFault::OutOfMemory => StoreFault::OutOfMemory,
        }
    }
}

impl From<PoolFault> for StoreFault {
    ghost from_gives = { λ refused fault. fault ≡ of_pool refused };

    fn from(refused: PoolFault) -> StoreFault {
        match refused {
            PoolFault::TooLong => StoreFault::TextTooLong,
            PoolFault::OutOfMemory => StoreFault::OutOfMemory,
        }
    }
}
