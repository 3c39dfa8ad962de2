//! Calls that a signal interrupted.
use std::io::{Error, ErrorKind};

/// How often a call that a signal interrupted is made before it counts as a fault.
pub(crate) const TRIES: u32 = 64;

/// Whether a signal interrupted a call, so that it may be made again.
pub(crate) fn is_interrupted(error: &Error) -> bool {
    matches!(error.kind(), ErrorKind::Interrupted)
}
