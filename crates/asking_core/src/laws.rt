//! What holds of every machine and every world that fits it.
ghost use Rattle.asking_core.specs.Worlds.{Fits};
ghost use Rattle.asking_core.specs.Laws.{FootprintLaw, ReadIsAnswered, RunLeaves, OneRun, FuelShifts, DepthShifts, MergedSays};

use crate::{AskMachine, World};

/// The law of footprints: a run within which no outermost statement came stands for every state of the world that
/// answers alike what the run read; and what it read is what its own state answers. It does nothing; its contract is
/// the claim, as with all functions of this module.
pub fn footprints_suffice<M: AskMachine, W: World>()
    requires { Fits W.model M.moving M.writable M.rebased }
    ensures suffices { FootprintLaw M.model W.model M.rebased }
    ensures answered { ReadIsAnswered M.model W.model M.rebased }
{}

/// What a run leaves of the world is what it put, in order, and how many calls it counted.
pub fn run_leaves<M: AskMachine, W: World>()
    requires { Fits W.model M.moving M.writable M.rebased }
    ensures { RunLeaves M.model W.model }
{}

/// A call has one plain run only, of every world, fuel and depth.
pub fn one_run<M: AskMachine, W: World>()
    ensures { OneRun M.model W.model }
{}

/// A run that did not end for want of fuel goes as far with any fuel that covers its cost.
pub fn fuel_shifts<M: AskMachine>()
    ensures { FuelShifts (M.model).Call (M.model).Item }
{}

/// A run that found room for each frame and call goes as far at any depth that leaves room for its deepest one.
pub fn depth_shifts<M: AskMachine>()
    ensures { DepthShifts (M.model).Call (M.model).Item }
{}

/// A merged footprint says of each key what the first said of it, and else what the second did.
pub fn merged_footprints_say_both()
    ensures { MergedSays }
{}
