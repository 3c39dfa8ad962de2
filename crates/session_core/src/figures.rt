//! The figures of an assembled program: its points, symbols and notes, and what its global SET symbols hold in the end.
ghost use Rattle.std.specs.Prelude.{◌≡◌, ◌<◌, length, Some, None, IfOk, slice_get};
ghost use Rattle.std.specs.Option.{option_copied};
ghost use Rattle.std.specs.Str.{chars};
ghost use Rattle.document_store.specs.Store.{OpenDocument};
ghost use Rattle.document_store.specs.Shown.{IsShown, Shows};
ghost use Rattle.group_members.specs.Members.{Indexes};
ghost use Rattle.library_folders.specs.Folders.{parm_for};
ghost use Rattle.program_names.specs.Figures as assembled;
ghost use Rattle.text_pool.specs.Pool.{IsLive, text_of};
ghost use Rattle.session_core.specs.Diagnostics.{members_of};
ghost use Rattle.session_core.specs.Figures.{figures_over, is_assembled, figures_at, figures_named, TellsFigures};
ghost use Rattle.session_core.specs.State.{document_at};

use crate::lists::Surroundings;
use crate::programs::{document_at, is_queued, last_list, number_named};
use crate::session_state::SessionState;
use document_store::{Document, MemberText};
use group_members::{GroupMembers, MemberIndex};
use hl_base::{Ledger, OutOfMemory, PathId, Steps, TextId};
use library_folders::{folders_for, parm_for};
use program_names::program_assembly::{Figures, KeptExpansions};
use std::alloc::Global;
use std::mem;

impl Surroundings<'_> {
    /// The figures of the program of a path and a text.
    fn figures<L: Ledger>(
        &self,
        alloc: Global,
        path: PathId,
        text: TextId,
        expansions: &mut KeptExpansions,
        steps: &mut Steps<L>,
    ) -> Result<Figures, OutOfMemory>
        requires given { path.0 < length self.now.store.now.store.paths }
        requires index { Indexes self.now.store.now.store self.now.index.now }
        requires live { IsLive self.now.store.now.pool text.0 }
        ensures { IfOk result (λ figures. (document : OpenDocument) → slice_get self.now.store.now.store.paths path.0 ≡ Some document.path
            → text_of self.now.store.now.pool text.0 ≡ document.text
            → figures ≡ assembled.figures_of path.0 document.text
            (parm_for (option_copied self.now.root) self.now.configuration.now document.path)
            (members_of (option_copied self.now.root) self.now.configuration.now self.now.store.now.store document) self.now.budget) }
    {
        let place = self.store.path_text(path);
        let root = self.root.map(|root| root.as_str());
        let folders = folders_for(alloc, root, self.configuration, place)?;
        let parm = parm_for(root, self.configuration, place);
        let members = GroupMembers::new(self.store, self.index, &folders);
        expansions.figures(alloc, path, text, parm, &members, self.budget, steps)
    }

    /// The figures of the program of a document, as it is shown.
    fn figures_of<L: Ledger>(
        &self,
        alloc: Global,
        path: PathId,
        document: &Document<'_>,
        expansions: &mut KeptExpansions,
        steps: &mut Steps<L>,
    ) -> Result<Figures, OutOfMemory>
        requires given { path.0 < length self.now.store.now.store.paths }
        requires index { Indexes self.now.store.now.store self.now.index.now }
        requires shown { IsShown self.now.store.now.store.paths (document_at self.now.store.now.store path) (Some document.now) }
        ensures { IfOk result (λ figures. (shown : OpenDocument) → document_at self.now.store.now.store path ≡ Some shown
            → Shows self.now.store.now.store.paths shown document.now
            → figures ≡ figures_over (option_copied self.now.root) self.now.configuration.now self.now.store.now.store
            self.now.budget path shown) }
    {
        match self.store.present(path) {
            Some(MemberText::File(text)) => self.figures(alloc, path, text, expansions, steps),
            Some(MemberText::Unreadable) => unreachable!(),
            None => unreachable!(),
        }
    }
}

impl SessionState {
    /// Whether a program's list was published and it is not queued.
    fn is_assembled(&self, path: PathId) -> bool
        ensures { result ≡ is_assembled self.now path }
    {
        last_list(&self.published, path).is_some() && !is_queued(&self.queue, path)
    }

    /// The figures of the program of a document, as it is shown, where members are found so.
    fn figures_with<L: Ledger>(
        &self,
        alloc: Global,
        index: &MemberIndex,
        path: PathId,
        document: &Document<'_>,
        expansions: &mut KeptExpansions,
        steps: &mut Steps<L>,
    ) -> Result<Figures, OutOfMemory>
        requires given { path.0 < length self.now.store.paths }
        requires shown { IsShown self.now.store.paths (document_at self.now.store path) (Some document.now) }
        requires index { Indexes self.now.store index.now }
        ensures { IfOk result (λ figures. TellsFigures self.now path document.now figures) }
    {
        let around = Surroundings {
            root: self.root.as_ref(),
            configuration: &self.configuration,
            folders: &self.folders,
            store: &self.store,
            index,
            budget: self.budget,
        };
        around.figures_of(alloc, path, document, expansions, steps)
    }

    /// The figures of the program of a document, as it is shown.
    fn figures_shown<L: Ledger>(
        &self,
        alloc: Global,
        path: PathId,
        document: &Document<'_>,
        expansions: &mut KeptExpansions,
        steps: &mut Steps<L>,
    ) -> Result<Figures, OutOfMemory>
        requires given { path.0 < length self.now.store.paths }
        requires shown { IsShown self.now.store.paths (document_at self.now.store path) (Some document.now) }
        ensures { IfOk result (λ figures. TellsFigures self.now path document.now figures) }
    {
        match &self.index {
            Some(index) => self.figures_with(alloc, index, path, document, expansions, steps),
            None => {
                let index = MemberIndex::of(alloc, &self.store)?;
                self.figures_with(alloc, &index, path, document, expansions, steps)
            }
        }
    }

    /// The figures of the document of a number, if it is an assembled program.
    fn figures_at<L: Ledger>(
        &self,
        alloc: Global,
        path: PathId,
        expansions: &mut KeptExpansions,
        steps: &mut Steps<L>,
    ) -> Result<Option<Figures>, OutOfMemory>
        ensures { IfOk result (λ figures. figures ≡ figures_at self.now path) }
    {
        if !self.is_assembled(path) {
            return Ok(None);
        }
        let Some(document) = document_at(&self.store, path) else {
            return Ok(None);
        };
        let figures = self.figures_shown(alloc, path, &document, expansions, steps)?;
        Ok(Some(figures))
    }

    /// The figures of the program that a URI names, if it is an assembled one.
    pub(crate) fn figures_named<L: Ledger>(
        &self,
        alloc: Global,
        uri: &str,
        expansions: &mut KeptExpansions,
        steps: &mut Steps<L>,
    ) -> Result<Option<Figures>, OutOfMemory>
        ensures { IfOk result (λ figures. figures ≡ figures_named self.now (chars uri.now)) }
    {
        let number = number_named(alloc, &self.store, uri)?;
        match number {
            Some(path) => self.figures_at(alloc, path, expansions, steps),
            None => Ok(None),
        }
    }

    /// The figures of the program that a URI names, if it is an assembled one. What the last Turn expanded is not expanded again.
    pub(crate) fn figures_kept<L: Ledger>(
        &mut self,
        alloc: Global,
        uri: &str,
        steps: &mut Steps<L>,
    ) -> Result<Option<Figures>, OutOfMemory>
        ensures figures { IfOk result (λ figures. figures ≡ figures_named self.old (chars uri.now)) }
        ensures state { self.new ≡ self.old }
    {
        let mut expansions = mem::replace(&mut self.expansions, KeptExpansions::new(alloc));
        let figures = self.figures_named(alloc, uri, &mut expansions, steps)?;
        self.expansions = expansions;
        Ok(figures)
    }
}
