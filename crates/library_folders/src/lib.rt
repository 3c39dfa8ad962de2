//! The library folders of a configuration, and what a program has of its group.
//!
//! `folders_of` lists each folder that a group names once, `is_member` tells whether a file lies in one, and `parm_for` and
//! `folders_for` say which `&SYSPARM` a program has and where its members are searched. A program without a group has an
//! empty `&SYSPARM` and no folders.
//!
//! It knows no file system and reads no files: a configuration is handed in, and paths are texts.
#![tactic(auto)]

mod configuration;
mod folders;
mod group;

pub use configuration::Configuration;
pub use folders::{Folder, folders_of, is_library_folder, is_member};
pub use group::{folders_for, group_of, parm_for};
