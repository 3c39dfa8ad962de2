//! Paths of library folders and of the members in them.
//!
//! `folder_of` and `file_name_of` part a path at its last `/`, `member_name` tells which member a file is, and
//! `folder_path` where a folder of the configuration lies. Paths are texts: `..` is resolved nowhere, and letters match in
//! their case alone. The crate knows no file system and no configuration.
#![tactic(auto)]

mod folder;
mod name;
mod parts;

pub use folder::folder_path;
pub use name::member_name;
pub use parts::{file_name_of, folder_of};
