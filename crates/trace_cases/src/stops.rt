//! Steps through nested nodes, and what is shown where they end.
ghost use Rattle.std.specs.Prelude.{◌≡◌};
ghost use Rattle.trace_arena.specs.Nodes.{IsLive};
ghost use Rattle.macro_debugger.specs.Walks.{HasTrace};

use crate::nodes::link;
use crate::points::item;
use hl_base::{Frames, Ledger, OutOfMemory, PathId, Steps};
use macro_debugger::{Debug, Reason, StepRule};
use std::alloc::Global;
use std::marker::Brand;
use std::sync::ledger::Blank;
use trace_arena::{NodeId, TraceArena};
use trace_values::TraceItem;

/// What is reported of an end.
fn why(reason: Reason) -> &'static str {
    match reason {
        Reason::Breakpoint => "breakpoint",
        Reason::Step => "step",
    }
}

/// The lines of frames, outermost first.
fn lines(alloc: Global, frames: &Frames) -> Result<String, OutOfMemory> {
    let mut said = String::new(alloc);
    for frame in frames.as_slice() {
        said.push_str(format!(in alloc; " {}", frame.origin.line)?.as_str())?;
    }
    Ok(said)
}

/// Where a step ends and why, and the lines of the frames there.
fn end(
    alloc: Global,
    arena: &TraceArena<TraceItem>,
    walk: &mut Debug,
    rule: StepRule,
) -> Result<String, OutOfMemory>
    requires trace { HasTrace arena.now.nodes walk.old }
    ensures trace { HasTrace arena.now.nodes walk.new }
{
    let Some(stop) = walk.next_stop(arena, rule) else {
        return Ok(String::from_str(alloc, " none;")?);
    };
    let frames = walk.stack(alloc, arena)?;
    let lines = lines(alloc, &frames)?;
    Ok(format!(in alloc; " {} {} at{lines};", stop.index, why(stop.reason))?)
}

/// Where the steps by these rules end.
fn ends(
    alloc: Global,
    arena: &TraceArena<TraceItem>,
    walk: &mut Debug,
    rules: &[StepRule],
) -> Result<String, OutOfMemory>
    requires trace { HasTrace arena.now.nodes walk.old }
{
    let mut said = String::new(alloc);
    for rule in rules {
        said.push_str(end(alloc, arena, walk, *rule)?.as_str())?;
    }
    Ok(said)
}

/// Steps from before the first point, and then past breakpoints.
fn step(alloc: Global, arena: &TraceArena<TraceItem>, root: NodeId) -> Result<String, OutOfMemory>
    requires { IsLive arena.now.nodes root.0 }
{
    let points = arena.points(root);
    let rules = [
        StepRule::In,
        StepRule::In,
        StepRule::Over,
        StepRule::Out,
        StepRule::Continue,
    ];
    let mut said = String::from_str(alloc, "without breakpoints:")?;
    said.push_str(ends(alloc, arena, &mut Debug::launch(root, points), &rules)?.as_str())?;
    let mut walk = Debug::launch(root, points);
    walk.set_breakpoints(alloc, PathId(0), &[1])?;
    walk.set_breakpoints(alloc, PathId(1), &[10])?;
    walk.set_breakpoints(alloc, PathId(0), &[11])?;
    let rules = [
        StepRule::Continue,
        StepRule::In,
        StepRule::Out,
        StepRule::Continue,
    ];
    said.push_str(" with them:")?;
    said.push_str(ends(alloc, arena, &mut walk, &rules)?.as_str())?;
    Ok(said)
}

/// A root of an item, a node of two items twice, and an item.
fn step_nested<L: Ledger>(alloc: Global, blank: Blank) -> Result<String, OutOfMemory>
    requires name { blank.name ≡ L.name }
    requires parts { blank.parts ≡ L.parts }
    requires one { blank.parts ≡ 1 }
{
    let mut arena: TraceArena<TraceItem> = TraceArena::new(alloc);
    let mut steps = Steps::<L>::open(blank);
    let child = arena.begin(alloc)?;
    arena.append(child, item(alloc, 10)?, &mut steps)?;
    arena.append(child, item(alloc, 11)?, &mut steps)?;
    let root = arena.begin(alloc)?;
    arena.append(root, item(alloc, 1)?, &mut steps)?;
    link(&mut arena, root, child)?;
    link(&mut arena, root, child)?;
    arena.append(root, item(alloc, 2)?, &mut steps)?;
    step(alloc, &arena, root)
}

/// Where steps through nested nodes end.
pub fn stepped(alloc: Global) -> Result<String, OutOfMemory> {
    step_nested::<Brand>(alloc, Blank::new(1))
}
