//! The numbers of nodes, and the links between them.

/// The number of a node. It may be given out again once the node is freed.
#[derive(Clone, Copy, Debug, PartialEq, Eq)]
pub struct NodeId(pub u32);

/// A node at its place in another one.
#[derive(Clone, Copy, Debug, PartialEq, Eq)]
pub struct Link {
    /// How many of the parent's own items stand before the child's points.
    pub at: usize,
    /// How many of the parent's points stand before the child's.
    pub before: u32,
    pub child: NodeId,
}
