//! Pieces of bytes.
ghost use Rattle.std.specs.Prelude.{◌≡◌, ◌≤◌, length, take, min};
ghost use Rattle.io_edge.specs.Told.{overwritten};

/// Copies at most so many bytes into the front of a buffer.
pub(crate) fn give(bytes: &[u8], most: usize, buf: &mut [u8]) -> usize
    requires { most ≤ length buf.old }
    ensures count { result ≡ min most (length bytes.now) }
    ensures buffer { buf.new ≡ overwritten (take result bytes.now) buf.old }
{
    let count = most.min(bytes.len());
    buf[..count].copy_from_slice(&bytes[..count]);
    count
}
