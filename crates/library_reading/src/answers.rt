//! What a library answers, where there was memory.

/// What is known of the folder of a path.
#[derive(Drop)]
pub(crate) enum FolderAnswer {
    /// There is none.
    Absent,
    /// The names of its files.
    Found(Vec<String>),
    /// The library refused the call.
    Refused,
}

/// What is known of the file of a path.
#[derive(Drop)]
pub(crate) enum FileAnswer {
    /// There is none.
    Absent,
    /// Its bytes.
    Found(Vec<u8>),
    /// The library refused the call.
    Refused,
}
