//! Nodes of points, shared by their numbers: a node holds items and links to other nodes between them.
//!
//! Contracts see an arena as the list of its nodes, each with its items, links and owners. A node means a list of points:
//! its items, with the points of each linked node at the place of its link. A point is an item together with the items
//! after which the nodes that it stands in were linked. A node that is appended to, or linked to as a parent, has no
//! parent and no owner but its maker, so links make no circle. A node is live as long as it has an owner, and is freed
//! with its last.
//!
//! It knows nothing of statements, files and of what an item says.
#![tactic(auto)]

mod arena;
mod laws;
mod node;
mod release;
mod slot;

pub use arena::TraceArena;
pub use laws::{arena_is_whole, live_nodes_are_reached};
pub use node::{Link, NodeId};
