//! Frames of a stream: what is read of it, whatever its pieces, and what is written.
ghost use Rattle.std.specs.Prelude.{◌<◌, ◌≤◌, length};

use hl_base::OutOfMemory;
use rpc_framing::{FrameFault, FrameReader, write_frame};
use std::alloc::{AllocError, Global};

/// More than the bytes of any row.
const MANY: u64 = 10_000;

/// The most bytes of a row that is read in every cutting.
const LONGEST_CUT: usize = 100;

/// What a fault says.
fn fault(alloc: Global, fault: FrameFault) -> Result<String, OutOfMemory> {
    match fault {
        FrameFault::BadHeader(at) => Ok(format!(in alloc; "bad header at {at}")?),
        FrameFault::TooLong(at) => Ok(format!(in alloc; "too long at {at}")?),
        FrameFault::OutOfMemory => Err(OutOfMemory),
    }
}

/// Bodies that wait, each with a bar behind it.
fn bodies(alloc: Global, reader: &mut FrameReader) -> Result<String, AllocError> {
    let mut bodies = String::new(alloc);
    for _ in 0..MANY {
        match reader.next() {
            None => break,
            Some(body) => {
                let body = String::from_utf8_lossy(alloc, body.as_slice())?;
                bodies.push_str(body.as_str())?;
                bodies.push_str("|")?;
            }
        }
    }
    Ok(bodies)
}

/// Feeds a piece, and says what that answers.
fn feed(alloc: Global, reader: &mut FrameReader, piece: &[u8]) -> Result<String, OutOfMemory> {
    if reader.fed() > MANY || piece.len() as u64 > MANY {
        return Ok(String::from_str(alloc, "a row is too long")?);
    }
    match reader.feed(alloc, piece) {
        Ok(()) => Ok(String::from_str(alloc, "ok")?),
        Err(stop) => fault(alloc, stop),
    }
}

/// What was read: bodies, the fault, and how many bytes are wanted.
fn outcome(alloc: Global, reader: &mut FrameReader) -> Result<String, OutOfMemory> {
    let bodies = bodies(alloc, reader)?;
    let fault = match reader.fault() {
        Some(stop) => fault(alloc, stop)?,
        None => String::from_str(alloc, "-")?,
    };
    let wanted = reader.wanted();
    Ok(format!(in alloc; "{bodies}; {fault}; {wanted}")?)
}

/// What is read in pieces of one size.
fn read_in(alloc: Global, bytes: &[u8], size: usize) -> Result<String, OutOfMemory>
    requires { 0 < size }
{
    let mut reader = FrameReader::new(alloc);
    for piece in bytes.chunks(size) {
        feed(alloc, &mut reader, piece)?;
    }
    outcome(alloc, &mut reader)
}

/// What is read in two pieces.
fn read_cut(alloc: Global, bytes: &[u8], at: usize) -> Result<String, OutOfMemory>
    requires { at ≤ length bytes.now }
{
    let mut reader = FrameReader::new(alloc);
    let (front, back) = bytes.split_at(at);
    feed(alloc, &mut reader, front)?;
    feed(alloc, &mut reader, back)?;
    outcome(alloc, &mut reader)
}

/// What is read in pieces of some size up to the greatest, where that is not what was read of the whole.
fn differing_in(
    alloc: Global,
    bytes: &[u8],
    greatest: usize,
    whole: &str,
) -> Result<Option<String>, OutOfMemory> {
    for size in 1..=greatest {
        let read = read_in(alloc, bytes, size)?;
        if read.as_str() != whole {
            return Ok(Some(read));
        }
    }
    Ok(None)
}

/// What is read in some two pieces, where that is not what was read of the whole.
fn differing_cut(alloc: Global, bytes: &[u8], whole: &str) -> Result<Option<String>, OutOfMemory> {
    for at in 0..=bytes.len() {
        let read = read_cut(alloc, bytes, at)?;
        if read.as_str() != whole {
            return Ok(Some(read));
        }
    }
    Ok(None)
}

/// What is read of a short row in some cutting, or of a long one byte by byte, where that is not what was read of the whole.
fn differing(alloc: Global, bytes: &[u8], whole: &str) -> Result<Option<String>, OutOfMemory> {
    if bytes.len() > LONGEST_CUT {
        return differing_in(alloc, bytes, 1, whole);
    }
    match differing_in(alloc, bytes, bytes.len(), whole)? {
        Some(other) => Ok(Some(other)),
        None => differing_cut(alloc, bytes, whole),
    }
}

/// What is read, and, where a cutting of the bytes is read otherwise, that too.
pub fn read(alloc: Global, bytes: &[u8]) -> Result<String, OutOfMemory> {
    let whole = read_cut(alloc, bytes, 0)?;
    match differing(alloc, bytes, whole.as_str())? {
        Some(other) => Ok(format!(in alloc; "{whole}, but in pieces {other}")?),
        None => Ok(whole),
    }
}

/// What each piece is answered, how many bytes were fed, and what was read.
pub fn answers(alloc: Global, pieces: &[String]) -> Result<String, OutOfMemory> {
    let mut reader = FrameReader::new(alloc);
    let mut said = String::new(alloc);
    for piece in pieces {
        said.push_str(feed(alloc, &mut reader, piece.as_bytes())?.as_str())?;
        said.push_str("; ")?;
    }
    let (fed, outcome) = (reader.fed(), outcome(alloc, &mut reader)?);
    Ok(format!(in alloc; "{said}{fed}; {outcome}")?)
}

/// The frames of bodies.
pub fn written(alloc: Global, bodies: &[String]) -> Result<String, OutOfMemory> {
    let mut out = Vec::new(alloc);
    for body in bodies {
        write_frame(alloc, body.as_bytes(), &mut out)?;
    }
    Ok(String::from_utf8_lossy(alloc, out.as_slice())?)
}
