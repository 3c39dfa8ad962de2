//! The list of a program, its trace as it is launched, and what it tells of names.
ghost use Rattle.std.specs.Prelude.{◌≡◌, ◌<◌, length, Some, None, IfOk, IfSome, slice_get};
ghost use Rattle.std.specs.Option.{option_copied};
ghost use Rattle.std.specs.Rc.{rc_str_bytes};
ghost use Rattle.std.specs.Str.{chars};
ghost use Rattle.document_store.specs.Store.{OpenDocument};
ghost use Rattle.document_store.specs.Shown.{IsShown, Shows};
ghost use Rattle.group_members.specs.Members.{Indexes};
ghost use Rattle.library_folders.specs.Folders.{parm_for};
ghost use Rattle.program_names.specs.Assembly.{assembly_notes};
ghost use Rattle.program_names.specs.Traces as launches;
ghost use Rattle.program_names.specs.Names as assembled;
ghost use Rattle.text_pool.specs.Pool.{IsLive, text_of};
ghost use Rattle.session_core.specs.Debugging.{trace_in};
ghost use Rattle.session_core.specs.Diagnostics.{diagnostics_of, members_of};
ghost use Rattle.session_core.specs.Names.{names_of};
ghost use Rattle.session_core.specs.State.{document_at, libraries_of};

use crate::programs::text_at;
use answers_feed::published;
use debug_sessions::Launched;
use document_store::{Document, DocumentStore, MemberText};
use group_members::{GroupMembers, MemberIndex};
use hl_base::{Ledger, Notes, OutOfMemory, PathId, Steps, Text, TextId};
use library_folders::{Configuration, Folder, folders_for, parm_for};
use lsp_messages::Diagnostics;
use program_names::program_assembly::KeptExpansions;
use program_names::program_launch::launch;
use program_names::{AssembledNames, assemble_names};
use std::alloc::Global;
use std::rc::RcStr;

/// What surrounds the programs of a session: the folder of the client, the configuration with its library folders, the
/// documents and files, where members are found, and how many statements a program may be given.
#[derive(Drop)]
pub(crate) struct Surroundings<'a> {
    pub(crate) root: Option<&'a Text>,
    pub(crate) configuration: &'a Configuration,
    pub(crate) folders: &'a [Folder],
    pub(crate) store: &'a DocumentStore,
    pub(crate) index: &'a MemberIndex,
    pub(crate) budget: u32,
}

/// Where members are found, out of its place: as it was kept, or made anew.
pub(crate) fn taken_index(
    alloc: Global,
    kept: &mut Option<MemberIndex>,
    store: &DocumentStore,
) -> Result<MemberIndex, OutOfMemory>
    requires kept { IfSome kept.old (Indexes store.now.store) }
    ensures index { IfOk result (Indexes store.now.store) }
    ensures taken { kept.new ≡ None }
{
    match kept.take() {
        Some(index) => Ok(index),
        None => MemberIndex::of(alloc, store),
    }
}

impl Surroundings<'_> {
    /// What is reported of the program of a path and a text.
    fn notes<L: Ledger>(
        &self,
        alloc: Global,
        path: PathId,
        text: &RcStr,
        expansions: &mut KeptExpansions,
        steps: &mut Steps<L>,
    ) -> Result<Notes, OutOfMemory>
        requires given { path.0 < length self.now.store.now.store.paths }
        requires index { Indexes self.now.store.now.store self.now.index.now }
        ensures { IfOk result (λ notes. (document : OpenDocument) → slice_get self.now.store.now.store.paths path.0 ≡ Some document.path
            → chars (rc_str_bytes text.now) ≡ document.text
            → notes ≡ assembly_notes path.0 document.text (parm_for (option_copied self.now.root) self.now.configuration.now document.path)
            (members_of (option_copied self.now.root) self.now.configuration.now self.now.store.now.store document) self.now.budget) }
    {
        let place = self.store.path_text(path);
        let root = self.root.map(|root| root.as_str());
        let folders = folders_for(alloc, root, self.configuration, place)?;
        let parm = parm_for(root, self.configuration, place);
        let members = GroupMembers::new(self.store, self.index, &folders);
        expansions.notes(alloc, path, text, parm, &members, self.budget, steps)
    }

    /// The list of a program, as its document is shown.
    pub(crate) fn list_of<L: Ledger>(
        &self,
        alloc: Global,
        path: PathId,
        document: &Document<'_>,
        expansions: &mut KeptExpansions,
        steps: &mut Steps<L>,
    ) -> Result<Diagnostics, OutOfMemory>
        requires given { path.0 < length self.now.store.now.store.paths }
        requires index { Indexes self.now.store.now.store self.now.index.now }
        requires folders { self.now.folders.now ≡ libraries_of (option_copied self.now.root) self.now.configuration.now }
        ensures { IfOk result (λ list. (shown : OpenDocument) → document_at self.now.store.now.store path ≡ Some shown
            → Shows self.now.store.now.store.paths shown document.now
            → list ≡ diagnostics_of (option_copied self.now.root) self.now.configuration.now self.now.store.now.store
            self.now.budget path shown) }
    {
        let text = text_at(alloc, self.store, path)?;
        let notes = self.notes(alloc, path, &text, expansions, steps)?;
        published(alloc, notes.as_slice(), path, self.folders, self.store)
    }

    /// The trace of the program of a path and a text.
    fn trace<L: Ledger>(
        &self,
        alloc: Global,
        path: PathId,
        text: TextId,
        steps: &mut Steps<L>,
    ) -> Result<Launched, OutOfMemory>
        requires given { path.0 < length self.now.store.now.store.paths }
        requires index { Indexes self.now.store.now.store self.now.index.now }
        requires live { IsLive self.now.store.now.pool text.0 }
        ensures { IfOk result (λ trace. (document : OpenDocument) → slice_get self.now.store.now.store.paths path.0 ≡ Some document.path
            → text_of self.now.store.now.pool text.0 ≡ document.text
            → trace ≡ launches.trace_of path.0 document.text
            (parm_for (option_copied self.now.root) self.now.configuration.now document.path)
            (members_of (option_copied self.now.root) self.now.configuration.now self.now.store.now.store document) self.now.budget) }
    {
        let place = self.store.path_text(path);
        let root = self.root.map(|root| root.as_str());
        let folders = folders_for(alloc, root, self.configuration, place)?;
        let parm = parm_for(root, self.configuration, place);
        let members = GroupMembers::new(self.store, self.index, &folders);
        launch(alloc, path, text, parm, &members, self.budget, steps)
    }

    /// The trace of the program of a document, as it is shown.
    pub(crate) fn trace_of<L: Ledger>(
        &self,
        alloc: Global,
        path: PathId,
        document: &Document<'_>,
        steps: &mut Steps<L>,
    ) -> Result<Launched, OutOfMemory>
        requires given { path.0 < length self.now.store.now.store.paths }
        requires index { Indexes self.now.store.now.store self.now.index.now }
        requires shown { IsShown self.now.store.now.store.paths (document_at self.now.store.now.store path) (Some document.now) }
        ensures { IfOk result (λ trace. (shown : OpenDocument) → document_at self.now.store.now.store path ≡ Some shown
            → Shows self.now.store.now.store.paths shown document.now
            → trace ≡ trace_in (option_copied self.now.root) self.now.configuration.now self.now.store.now.store
            self.now.budget path shown) }
    {
        match self.store.present(path) {
            Some(MemberText::File(text)) => self.trace(alloc, path, text, steps),
            Some(MemberText::Unreadable) => unreachable!(),
            None => unreachable!(),
        }
    }

    /// What the program of a path and a text tells of names.
    fn names<L: Ledger>(
        &self,
        alloc: Global,
        path: PathId,
        text: TextId,
        steps: &mut Steps<L>,
    ) -> Result<AssembledNames, OutOfMemory>
        requires given { path.0 < length self.now.store.now.store.paths }
        requires index { Indexes self.now.store.now.store self.now.index.now }
        requires live { IsLive self.now.store.now.pool text.0 }
        ensures { IfOk result (λ names. (document : OpenDocument) → slice_get self.now.store.now.store.paths path.0 ≡ Some document.path
            → text_of self.now.store.now.pool text.0 ≡ document.text
            → names ≡ assembled.names_of self.now.store.now.store path.0 document.text
            (parm_for (option_copied self.now.root) self.now.configuration.now document.path)
            (members_of (option_copied self.now.root) self.now.configuration.now self.now.store.now.store document) self.now.budget) }
    {
        let place = self.store.path_text(path);
        let root = self.root.map(|root| root.as_str());
        let folders = folders_for(alloc, root, self.configuration, place)?;
        let parm = parm_for(root, self.configuration, place);
        let members = GroupMembers::new(self.store, self.index, &folders);
        assemble_names(
            alloc,
            path,
            text,
            parm,
            self.store,
            &members,
            self.budget,
            steps,
        )
    }

    /// What the program of a document tells of names, as it is shown.
    pub(crate) fn names_of<L: Ledger>(
        &self,
        alloc: Global,
        path: PathId,
        document: &Document<'_>,
        steps: &mut Steps<L>,
    ) -> Result<AssembledNames, OutOfMemory>
        requires given { path.0 < length self.now.store.now.store.paths }
        requires index { Indexes self.now.store.now.store self.now.index.now }
        requires shown { IsShown self.now.store.now.store.paths (document_at self.now.store.now.store path) (Some document.now) }
        ensures { IfOk result (λ names. (shown : OpenDocument) → document_at self.now.store.now.store path ≡ Some shown
            → Shows self.now.store.now.store.paths shown document.now
            → names ≡ names_of (option_copied self.now.root) self.now.configuration.now self.now.store.now.store
            self.now.budget path shown) }
    {
        match self.store.present(path) {
            Some(MemberText::File(text)) => self.names(alloc, path, text, steps),
            Some(MemberText::Unreadable) => unreachable!(),
            None => unreachable!(),
        }
    }
}
