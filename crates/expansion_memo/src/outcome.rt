//! What running a call comes to.

use trace_arena::NodeId;

/// How a call ended.
#[derive(Clone, Copy, Debug, PartialEq, Eq)]
pub enum Ended {
    /// It came back to its caller.
    Returned,
    /// Fuel was wanting.
    Budget,
    /// It ended all.
    End,
}

/// What a call came to: the node of its points, the units of fuel that it took, how it ended, and the frames of the
/// statements at which fuel was wanting, those of the innermost call first.
#[derive(Drop)]
pub struct Outcome<F: Drop> {
    pub node: NodeId,
    pub cost: u32,
    pub ended: Ended,
    pub unpaid: Vec<F>,
}
