//! Assembling one program after another, each with what the one before it expanded.
ghost use Rattle.std.specs.Prelude.{◌≡◌, ℕ, None, IfOk};
ghost use Rattle.std.specs.Rc.{rc_str_bytes};
ghost use Rattle.std.specs.Str.{chars};
ghost use Rattle.text_pool.specs.Pool.{IsLive as IsLiveText, text_of};
ghost use Rattle.trace_arena.specs.Nodes.{outside};
ghost use Rattle.program_assembly.specs.Assembly.{assembly_notes};
ghost use Rattle.program_assembly.specs.Figures.{figures_of};
ghost use Rattle.program_assembly.specs.KeptRoots.{AreKept, owners_without};

use crate::assembled_figures::figures_in;
use crate::column_notes::columns_of_file;
use crate::report::report_of;
use crate::{Figures, assemble, assemblies_are_plain};
use expansion_memo::Memo;
use expansion_step::runs_are_expansions;
use hl_base::{Ledger, Notes, OutOfMemory, PathId, Steps, TextId};
use macro_expand::{Expander, HlasmLanguage};
use macro_library::MemberFile;
use program_world::ProgramWorld;
use std::alloc::Global;
use std::marker::Model;
use std::mem;
use std::rc::RcStr;
use text_pool::Present;
use trace_arena::{NodeId, TraceArena};
use trace_values::TraceItem;

/// So many points may be made before all that is kept is given up.
const MOST_POINTS: u64 = 1_000_000;

/// What the last assembly expanded. A call that is met again, and reads what it read then, is taken from it and is not run once
/// more; nor is a statement of its program read once more. Contracts see how many points were made.
#[derive(Drop)]
pub struct KeptExpansions {
    memo: Memo<Expander>,
    arena: TraceArena<TraceItem>,
    // The root of the last assembly. With it the points of that assembly stay, and what the memo keeps of its calls.
    root: Option<NodeId>,
    // How many points were made since nothing was kept: a place of the memo that was given up is not taken again, so they bound it.
    made: u64,
    // The program of the last assembly whose notes were wanted.
    read: Option<MemberFile>,
}

impl Model for KeptExpansions {
    ghost use Rattle.std.specs.Prelude.{ℕ};
    ghost use Rattle.program_assembly.specs.KeptRoots.{AreKept};

    ghost Value = { ℕ };

    ghost view = { λ k. k.made };

    ghost invariant = { λ k. AreKept k.arena.nodes k.memo k.root };
}

/// Gives up a root, if there is one, and what is kept of its calls alone. It takes no memory.
#[tactic(auto, using(crate::proofs::KeptRootLaws::kept_without_root))]
fn retire_root(memo: &mut Memo<Expander>, arena: &mut TraceArena<TraceItem>, root: Option<NodeId>)
    requires kept { AreKept arena.old.nodes memo.old root }
    ensures owners { (x : ℕ) → outside arena.new.nodes x ≡ owners_without root (outside arena.old.nodes) x }
    ensures kept { AreKept arena.new.nodes memo.new None }
{
    match root {
        Some(root) => memo.retire(root, arena),
        None => {}
    }
}

/// The file of a path and a text, where one may have been read before, which is given up.
fn file_after(
    alloc: Global,
    path: PathId,
    text: RcStr,
    read: Option<MemberFile>,
) -> Result<MemberFile, OutOfMemory>
    ensures path { IfOk result (λ f. f.path ≡ path) }
    ensures text { IfOk result (λ f. f.text ≡ chars (rc_str_bytes text)) }
{
    match read {
        Some(earlier) => MemberFile::after(alloc, path, text, &earlier),
        None => MemberFile::of(alloc, path, text),
    }
}

impl KeptExpansions {
    /// Nothing is kept.
    #[tactic(auto, using(crate::proofs::KeptRootLaws::nothing_kept))]
    pub fn new(alloc: Global) -> KeptExpansions {
        KeptExpansions {
            memo: Memo::new(alloc),
            arena: TraceArena::new(alloc),
            root: None,
            made: 0,
            read: None,
        }
    }

    /// What is kept, out of its place; nothing, if enough points were made.
    fn taken(&mut self, alloc: Global) -> KeptExpansions {
        let kept = mem::replace(self, KeptExpansions::new(alloc));
        if kept.made > MOST_POINTS {
            return KeptExpansions::new(alloc);
        }
        kept
    }

    /// What is reported of the program of a path and a text, with this SYSPARM, these members and this budget, whatever is kept.
    /// After want of memory nothing is kept.
    pub fn notes<P: Present, L: Ledger>(
        &mut self,
        alloc: Global,
        path: PathId,
        text: &RcStr,
        parm: &str,
        present: &P,
        budget: u32,
        steps: &mut Steps<L>,
    ) -> Result<Notes, OutOfMemory>
        ensures { IfOk result (λ notes. notes
            ≡ assembly_notes path.0 (chars (rc_str_bytes text.now)) (chars parm.now) (P.members present.now) budget) }
    {
        runs_are_expansions::<HlasmLanguage, ProgramWorld<P>>();
        let KeptExpansions {
            mut memo,
            mut arena,
            root,
            made,
            read,
        } = self.taken(alloc);
        let file = file_after(alloc, path, text.clone()?, read)?;
        let columns = columns_of_file(alloc, &file)?;
        let machine = Expander::new(HlasmLanguage::having_read(file.share()?));
        let report = report_of(
            &machine, alloc, path, text, columns, parm, present, &mut memo, &mut arena, budget,
            steps,
        )?;
        let made = made.saturating_add(u64::from(arena.points(report.root)));
        retire_root(&mut memo, &mut arena, root);
        *self = KeptExpansions {
            memo,
            arena,
            root: Some(report.root),
            made,
            read: Some(file),
        };
        Ok(report.notes)
    }

    /// The figures of an assembly of the program of a path and a text, with this SYSPARM, these members and this budget, whatever is
    /// kept. After want of memory nothing is kept.
    pub fn figures<P: Present, L: Ledger>(
        &mut self,
        alloc: Global,
        path: PathId,
        text: TextId,
        parm: &str,
        present: &P,
        budget: u32,
        steps: &mut Steps<L>,
    ) -> Result<Figures, OutOfMemory>
        requires live { IsLiveText (P.texts present.now) text.0 }
        ensures { IfOk result (λ figures. figures
            ≡ figures_of path.0 (text_of (P.texts present.now) text.0) (chars parm.now) (P.members present.now) budget) }
    {
        assemblies_are_plain::<P>();
        let expander = Expander::new(HlasmLanguage::new());
        let KeptExpansions {
            mut memo,
            mut arena,
            root,
            made,
            read,
        } = self.taken(alloc);
        let assembly = assemble(
            &expander, alloc, path, text, parm, present, &mut memo, &mut arena, budget, steps,
        )?;
        let next = assembly.root;
        let made = made.saturating_add(u64::from(assembly.points));
        let figures = figures_in(alloc, &arena, assembly)?;
        retire_root(&mut memo, &mut arena, root);
        *self = KeptExpansions {
            memo,
            arena,
            root: Some(next),
            made,
            read,
        };
        Ok(figures)
    }
}
