//! The two configuration files of the Che4z HLASM plug-in, `proc_grps.json` and `pgm_conf.json`, read as they are.
//!
//! `read_groups` reads which groups of library folders there are, `read_programs` which programs have which group, and
//! `group_of` tells the group of a program. The crate knows no file system: it reads bytes, and paths are texts.
//!
//! Its one contract in words: bytes are read as the files' form says, members in the order in which the form names them,
//! lists from the first element on, so that the first member that is missing or wrong is the one that is named; members
//! that the form does not name are not looked at. The first entry whose pattern matches a path decides, and of several
//! groups of one name the first.
#![tactic(auto)]

mod choice;
mod files;
mod groups;
mod members;
mod pattern;
mod programs;

pub use choice::{GroupId, group_of};
pub use files::{ConfigFault, read_groups, read_programs};
pub use groups::{Group, Groups, Libraries, Library};
pub use programs::{Entry, Programs};
