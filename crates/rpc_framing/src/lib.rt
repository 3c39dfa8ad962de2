//! Frames of the base protocol, from bytes to bodies and back.
//!
//! A `FrameReader` is fed the bytes of a stream in any pieces, and gives the bodies of the frames that are whole; it
//! says how many bytes it may be fed without passing the end of a frame. `write_frame` is the way back. The contracts
//! speak of the grammar alone (LSP 3.17, "Base Protocol"): a stream is the frames of some bodies and then less than a
//! whole frame, or the frames of some bodies and then bytes that begin none. `laws` says that there is one way to read
//! a stream. The crate knows nothing of what a body says, and does not read or write anything itself.
#![tactic(auto)]

mod fault;
mod header;
pub mod laws;
mod place;
mod reader;
mod unfinished;
mod writer;

pub use fault::FrameFault;
pub use place::Departure;
pub use reader::FrameReader;
pub use writer::write_frame;
