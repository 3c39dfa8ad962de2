//! Why a piece of the stream is not read.
ghost use Rattle.std.specs.Prelude.{◌≡◌};
ghost use Rattle.rpc_framing.specs.Faults.{fault_at};
ghost use Rattle.rpc_framing.specs.declared.fault.FrameFault.TheVariants.{OutOfMemory};

use crate::place::Departure;
use thiserror::Error;

/// Why a piece of the stream is not read. The number is that of the bytes, over all that were fed, up to the first with
/// which they begin no sequence of frames. The reader stays at this fault.
#[derive(Clone, Copy, Debug, PartialEq, Eq, Error)]
pub enum FrameFault {
    /// No header goes on with that byte.
    #[error("no header at byte {0}")]
    BadHeader(u64),

    /// With that digit the length of a body passes 16,777,216.
    #[error("a body that is too long at byte {0}")]
    TooLong(u64),

    /// There was no memory for what the piece completes, and the reader is as it was.
    #[error("out of memory")]
    OutOfMemory,
}

impl FrameFault {
    /// The fault of a departure at a place of the stream.
    pub(crate) fn of(departure: Departure, place: u64) -> FrameFault
        ensures { result ≡ fault_at departure place }
    {
        match departure {
            Departure::BadHeader => FrameFault::BadHeader(place),
            Departure::TooLong => FrameFault::TooLong(place),
        }
    }
}

impl From<hl_base::OutOfMemory> for FrameFault {
    ghost from_gives = { λ _ fault. fault ≡ OutOfMemory };

    fn from(_refused: hl_base::OutOfMemory) -> FrameFault {
        FrameFault::OutOfMemory
    }
}
