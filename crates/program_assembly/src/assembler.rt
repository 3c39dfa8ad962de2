//! What is kept from one assembly to the next.
ghost use Rattle.std.specs.Prelude.{◌≡◌, ◌<◌, [], IfOk};
ghost use Rattle.std.specs.Str.{chars};
ghost use Rattle.text_pool.specs.Pool.{IsLive as IsLiveText, text_of};
ghost use Rattle.trace_arena.specs.Nodes.{outside};
ghost use Rattle.trace_arena.specs.Changes.{Releases};
ghost use Rattle.expansion_memo.specs.Running.{IsHandedOut};
ghost use Rattle.call_sites.specs.Rules.{is_moving, is_writable, rebased};
ghost use Rattle.program_assembly.specs.Runs.{IsAssembly};

use crate::{Assembly, assemble};
use asking_core::AskMachine;
use call_sites::{CallSite, Known};
use expansion_memo::Memo;
use hl_base::{Frames, Key, Ledger, OutOfMemory, PathId, Steps, TextId};
use std::alloc::Global;
use std::marker::Model;
use std::mem;
use text_pool::Present;
use trace_arena::{NodeId, TraceArena};
use trace_values::TraceItem;

/// Kept expansions, and the points of assemblies that somebody owns. Contracts see the points. All that is kept stands, always.
#[derive(Drop)]
pub struct Assembler<M: AskMachine<Item = TraceItem>> {
    memo: Memo<M>,
    arena: TraceArena<TraceItem>,
}

impl<M: AskMachine<Item = TraceItem>> Model for Assembler<M> {
    ghost use Rattle.trace_arena.specs.Nodes.{Arena};
    ghost use Rattle.trace_values.specs.declared.item.TraceItem.{TraceItem};
    ghost use Rattle.expansion_memo.specs.Kept.{AllStand};

    ghost Value = { Arena TraceItem };

    ghost view = { λ a. a.arena };

    ghost invariant = { λ a. AllStand M.model M.rebased M.call_of M.item_of a.arena.nodes a.memo };
}

impl<
    M: AskMachine<Key = Key, Value = Known, Call = CallSite, Item = TraceItem, Frames = Frames>,
> Assembler<M> {
    /// Nothing is kept, and nobody owns anything.
    pub fn new(alloc: Global) -> Assembler<M>
        ensures { result.nodes ≡ [] }
    {
        Assembler {
            memo: Memo::new(alloc),
            arena: TraceArena::new(alloc),
        }
    }

    /// The points.
    pub fn arena(&self) -> &TraceArena<TraceItem>
        ensures { result.now ≡ self.now }
    {
        &self.arena
    }

    /// Assembles a program, as `assemble` does. After want of memory it starts anew: nothing is kept, and whoever owned a root
    /// owns nothing.
    pub fn assemble<P: Present, L: Ledger>(
        &mut self,
        machine: &M,
        alloc: Global,
        path: PathId,
        text: TextId,
        parm: &str,
        present: &P,
        budget: u32,
        steps: &mut Steps<L>,
    ) -> Result<Assembly, OutOfMemory>
        requires live { IsLiveText (P.texts present.now) text.0 }
        requires moving { M.moving ≡ is_moving }
        requires writable { M.writable ≡ is_writable }
        requires rebased { M.rebased ≡ rebased }
        ensures assembly { IfOk result (λ a. IsAssembly M.model M.rebased M.call_of M.item_of M.frames_of
            path.0 (text_of (P.texts present.now) text.0) (chars parm.now) (P.members present.now) budget self.new.nodes a) }
        ensures handed { IfOk result (λ a. IsHandedOut self.old.nodes self.new.nodes a.root.0) }
    {
        let Assembler {
            mut memo,
            mut arena,
        } = mem::replace(self, Assembler::new(alloc));
        let made = assemble(
            machine, alloc, path, text, parm, present, &mut memo, &mut arena, budget, steps,
        )?;
        *self = Assembler { memo, arena };
        Ok(made)
    }

    /// Gives up an owner of the root of an assembly, with all that nobody reaches then. It takes no memory.
    pub fn retire(&mut self, root: NodeId)
        requires owned { 0 < outside self.old.nodes root.0 }
        ensures released { Releases self.old.nodes self.new.nodes root.0 }
    {
        self.memo.retire(root, &mut self.arena);
    }
}
