//! What holds of the outcomes of every machine, over every world that fits it.
ghost use Rattle.asking_core.specs.Worlds.{Fits};
ghost use Rattle.kept_outcomes.specs.Laws.{OutcomesStand, RunsAreOutcomes, PointsAreItems, EveryMoveLeads, EveryCallJoins};

use asking_core::{AskMachine, World};

/// Where an outcome holds, the plain run of its call has its points, its end and its cost, and leaves the world so. It
/// does nothing; its contract is the claim, as with all functions of this module.
pub fn outcomes_stand<M: AskMachine, W: World>()
    requires { Fits W.model M.moving M.writable M.rebased }
    ensures { OutcomesStand M.model W.model M.rebased }
{}

/// What a plain run comes to is an outcome, unless fuel was wanting or an outermost statement came. It holds where the
/// run began.
pub fn runs_are_outcomes<M: AskMachine, W: World>()
    requires { Fits W.model M.moving M.writable M.rebased }
    ensures { RunsAreOutcomes M.model W.model M.rebased }
{}

/// The points of a run are the items that it emitted, in order.
pub fn points_are_items<M: AskMachine>()
    ensures { PointsAreItems (M.model).Call (M.model).Item }
{}

/// Each move of a machine leads from a moment of its call to the next one, or to its finish.
pub fn moves_lead<M: AskMachine, W: World>()
    ensures { EveryMoveLeads M.model W.model M.rebased }
{}

/// What a nested call comes to is joined with what came before it.
pub fn nested_calls_join<M: AskMachine, W: World>()
    ensures { EveryCallJoins M.model W.model M.rebased }
{}
