//! One kept outcome, and whether it holds.
ghost use Rattle.std.specs.Prelude.{◌≡◌, ◌↔◌, ℕ, ◌≤◌, IfOk, IsTrue};
ghost use Rattle.asking_core.specs.Runs.{deepest_depth};
ghost use Rattle.kept_outcomes.specs.Outcomes.{HasRoom};
ghost use Rattle.expansion_memo.specs.Kept.{HoldsOf};

use crate::Ended;
use asking_core::World;
use hl_base::OutOfMemory;
use kept_outcomes::CallSummary;
use kept_values::Kept;
use std::alloc::Global;
use trace_arena::NodeId;

/// Calls and frames stand in one another so deep at most.
pub(crate) const DEEPEST: u32 = 128;

/// An outcome that is kept: its call and the depth at which it ran, the node of its points, how it ended, and what else
/// it left.
#[derive(Drop)]
pub(crate) struct Entry<C: Kept, K: Kept, V: Kept> {
    pub(crate) call: C,
    pub(crate) depth: u32,
    pub(crate) node: NodeId,
    pub(crate) ended: Ended,
    pub(crate) summary: CallSummary<K, V>,
}

impl<C: Kept, K: Kept, V: Kept> Entry<C, K, V> {
    ghost use Rattle.expansion_memo.specs.Entries.{kept_by};

    /// Whether there is room for it at a depth.
    fn has_room(&self, depth: u32) -> bool
        requires depth { depth ≤ deepest_depth }
        ensures { IsTrue result ↔ HasRoom self.now.summary.no_room self.now.depth self.now.summary.levels depth }
    {
        if self.summary.found_no_room() {
            self.depth == depth
        } else {
            self.summary.levels() <= DEEPEST - depth
        }
    }

    /// Whether it is one of this call and holds. It asks no further than the first answer that differs.
    pub(crate) fn holds<W: World<Key = K, Value = V>>(
        &self,
        alloc: Global,
        call: &C,
        world: &mut W,
        fuel: u32,
        depth: u32,
    ) -> Result<bool, OutOfMemory>
        requires depth { depth ≤ deepest_depth }
        ensures answer { IfOk result (λ b. IsTrue b ↔ HoldsOf W.model (W.state world.old) fuel depth (C.code call.now) (kept_by C.code self.now)) }
        ensures kept { W.state world.new ≡ W.state world.old }
    {
        if self.summary.units() > fuel || !self.has_room(depth) || !self.call.same(call) {
            return Ok(false);
        }
        self.summary.read().holds_in(alloc, world)
    }
}
