//! The next body of the input.
ghost use Rattle.std.specs.Prelude.{◌≡◌, ◌≤◌, ◌+◌, ◌<◌, ◌^◌, [], None, length};
ghost use Rattle.hlasm_server.specs.Feeding.{IsBetweenFrames, Finds, Takes};

use io_edge::Source;
use rpc_framing::{FrameFault, FrameReader};
use std::alloc::Global;

/// What the input has next.
#[derive(Drop)]
pub enum Next {
    /// A whole frame with this body.
    Body(Vec<u8>),
    /// Less than a whole frame, and nothing more.
    End,
    /// Bytes that begin no frame, the last of which is the first fault: so many bytes were fed by then.
    Broken(u64),
    /// Less than a whole frame, where as many bytes were fed as may be.
    TooLong,
    /// The source refused a call.
    ReadFault,
    /// There was no memory.
    OutOfMemory,
}

/// What one piece more of a frame came to.
#[derive(Clone, Copy)]
enum Piece {
    /// The frame has grown, and may be whole.
    Came,
    /// There was no piece left.
    End,
    /// With it no frame begins so: so many bytes were fed by then.
    Broken(u64),
    /// No byte more may be fed.
    TooLong,
    /// The source refused the call.
    ReadFault,
    /// There was no memory.
    OutOfMemory,
}

/// The most bytes that are asked for at once.
pub const LARGEST_PIECE: usize = 8_192;

/// How many bytes to ask for, of those that are wanted and those that may still be fed.
fn piece_size(wanted: usize, left: u64) -> usize
    requires { 0 < wanted × (0 < left) }
    ensures some { 0 < result }
    ensures wanted { result ≤ wanted }
    ensures left { result ≤ left }
    ensures buffer { result ≤ LARGEST_PIECE }
{
    wanted.min(LARGEST_PIECE).min(left as usize)
}

/// Takes one piece more of a frame that is not yet whole, and nothing of the one behind it, where fewer than `most` bytes
/// were fed.
fn take_piece<S: Source>(
    alloc: Global,
    source: &mut S,
    reader: &mut FrameReader,
    buffer: &mut [u8],
    most: u64,
) -> Piece
    requires sound { reader.old.fault ≡ None }
    requires room { reader.old.fed ≤ most }
    requires most { most < 2 ^ 62 }
    requires buffer { length buffer.old ≡ LARGEST_PIECE }
    ensures comes { Takes most result (S.left source.old) (S.left source.new) (S.faults source.old) (S.faults source.new) reader.old reader.new }
    ensures waits { S.waits source.new ≡ S.waits source.old }
    ensures later { S.faults source.old ≤ S.faults source.new }
{
    let asked = reader.wanted();
    let left = most - reader.fed();
    if left == 0 {
        return Piece::TooLong;
    }
    let size = piece_size(asked, left);
    let room = &mut buffer[..size];
    let taken = match source.take(room) {
        Ok(0) => return Piece::End,
        Ok(taken) => taken,
        Err(_) => return Piece::ReadFault,
    };
    match reader.feed(alloc, &room[..taken]) {
        Ok(()) => Piece::Came,
        Err(FrameFault::BadHeader(at)) => Piece::Broken(at),
        Err(FrameFault::TooLong(at)) => Piece::Broken(at),
        Err(FrameFault::OutOfMemory) => Piece::OutOfMemory,
    }
}

/// Takes the next frame of the source, byte by byte in its header and then at most the missing bytes of its body. No more
/// than `most` bytes are fed over all calls; that is looked at before each take, so a frame may end with the last of them.
pub fn next_body<S: Source>(
    alloc: Global,
    source: &mut S,
    reader: &mut FrameReader,
    buffer: &mut [u8],
    most: u64,
) -> Next
    requires between { IsBetweenFrames reader.old }
    requires room { reader.old.fed ≤ most }
    requires most { most < 2 ^ 62 }
    requires buffer { length buffer.old ≡ LARGEST_PIECE }
    ensures found { Finds most result (S.left source.old) (S.left source.new) (S.faults source.old) (S.faults source.new) reader.old reader.new }
    ensures waits { S.waits source.new ≡ S.waits source.old }
    ensures later { S.faults source.old ≤ S.faults source.new }
{
    'frame: loop {
        match take_piece(alloc, source, reader, buffer, most) {
            Piece::Came => {}
            Piece::End => return Next::End,
            Piece::Broken(at) => return Next::Broken(at),
            Piece::TooLong => return Next::TooLong,
            Piece::ReadFault => return Next::ReadFault,
            Piece::OutOfMemory => return Next::OutOfMemory,
        }
        if let Some(body) = reader.next() {
            return Next::Body(body);
        }
    }
}
