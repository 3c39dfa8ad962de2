//! The outside as the language server sees it: a source of bytes, a sink of bytes and a library of files, and the
//! forms that stand behind them.
//!
//! What an object tells of itself is optional: the bytes left, the bytes held, the calls made. An object that tells is
//! one whose contents contracts can follow; one that tells nothing keeps only the counts. Each object counts its
//! faults, the count never falls, and a call is refused only where it rose (or stands at the greatest u64). So no body
//! above this crate can claim a fault that the outside did not have.
//!
//! It knows nothing of frames, messages or files' meaning. The memory forms hold all that they give and take, and
//! refuse exactly the calls whose numbers they were made with; the `Sure` forms refuse none; the `Std` forms stand over
//! std's `Read` and `Write`, and `FolderLibrary` over its file system.
#![tactic(auto)]

mod fault;
mod folder_library;
mod interrupted;
mod laws;
mod library;
mod memory_library;
mod memory_sink;
mod memory_source;
mod number;
mod piece;
mod sink;
mod source;
mod std_sink;
mod std_source;
mod sure_library;
mod sure_sink;
mod sure_source;

pub use fault::{Failed, LibraryFault};
pub use folder_library::FolderLibrary;
pub use laws::calls_join;
pub use library::Library;
pub use memory_library::{MemoryCall, MemoryFile, MemoryFolder, MemoryLibrary};
pub use memory_sink::MemorySink;
pub use memory_source::MemorySource;
pub use sink::Sink;
pub use source::Source;
pub use std_sink::StdSink;
pub use std_source::StdSource;
pub use sure_library::SureLibrary;
pub use sure_sink::SureSink;
pub use sure_source::SureSource;
