//! The members that a program's group has, as an assembly asks for them.
//!
//! `MemberIndex` tells which path each folder's member of a name has, over all paths of a store at which something is
//! present: of several files of one name in a folder the first by bytes of the path stands. `GroupMembers` finds a member in
//! the first of the group's folders that has its name, and answers what is present there: a member that cannot be read is not
//! passed over. A question takes no memory and goes over no list but that of the group's folders.
//!
//! It reads no files and knows no configuration: a store and the paths of folders are handed in.
#![tactic(auto)]

mod gathering;
mod index;
mod members;

pub use index::MemberIndex;
pub use members::GroupMembers;
