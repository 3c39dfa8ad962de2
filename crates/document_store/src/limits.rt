//! How much the store holds.

/// The greatest number of open documents.
pub const MOST_DOCUMENTS: usize = 64;

/// The greatest number of files of members, those that cannot be read among them.
pub const MOST_MEMBERS: u32 = 16_000;

/// How many bytes of UTF-8 the files of members have together at most.
pub const MOST_MEMBER_BYTES: u64 = 64 * 1024 * 1024;
