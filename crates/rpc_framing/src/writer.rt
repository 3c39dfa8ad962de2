//! Frames as they are written.
ghost use Rattle.std.specs.Prelude.{◌≡◌, ◌++◌, OnOk, OnErr};
ghost use Rattle.rpc_framing.specs.Frames.{frame};

use hl_base::OutOfMemory;
use std::alloc::Global;

/// Writes the frame of a body at the end. An `Err` changes nothing. What is read again is a body of at most
/// 16,777,216 bytes; a longer one is written all the same.
pub fn write_frame(alloc: Global, body: &[u8], out: &mut Vec<u8>) -> Result<(), OutOfMemory>
    ensures ok { OnOk result (out.new.items ≡ out.old.items ++ frame body.now) }
    ensures err { OnErr result (out.new.items ≡ out.old.items) }
{
    let length = body.len();
    let header = format!(in alloc; "Content-Length: {length}\r\n\r\n")?;
    out.reserve(header.len() + body.len())?;
    out.extend_from_slice(header.as_bytes()).unwrap();
    out.extend_from_slice(body).unwrap();
    Ok(())
}
