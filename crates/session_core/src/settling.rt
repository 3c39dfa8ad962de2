//! Documents that are not programs any more, where the library folders have changed.
ghost use Rattle.std.specs.Prelude.{◌≡◌, ◌≤◌, ◌++◌, length, IfOk, OnOk, filter};
ghost use Rattle.document_store.specs.Store.{OpenDocument};
ghost use Rattle.document_store.specs.Shown.{Shows};
ghost use Rattle.session_core.specs.Inside.{farewell_unless};
ghost use Rattle.session_core.specs.Message.{farewells, settled};
ghost use Rattle.session_core.specs.State.{is_queued, programs};
ghost use Rattle.session_core.specs.declared.state.LastList.{LastList as Last};
ghost use Rattle.session_core.specs.Step.{IsEffect};

use crate::bodies::Bodies;
use crate::programs::{forget_members, is_program_shown, is_queued, last_list, queue_programs};
use crate::replies;
use crate::session_state::SessionState;
use crate::state::LastList;
use document_store::{Document, DocumentStore, MOST_DOCUMENTS};
use hl_base::{OutOfMemory, PathId};
use library_folders::Folder;
use lsp_messages::Diagnostics;
use std::alloc::Global;

/// Keeps what is of these programs.
fn keep_queued(queue: &mut Vec<PathId>, programs: &[PathId])
    ensures { queue.new.items ≡ filter (is_queued programs.now) queue.old.items }
{
    queue.retain(|path| is_queued(programs, *path));
}

/// Keeps what was published of these programs.
fn keep_published(published: &mut Vec<LastList>, programs: &[PathId])
    ensures { published.new.items ≡ filter (λ (last : Last). is_queued programs.now last.path) published.old.items }
{
    published.retain(|last| is_queued(programs, last.path));
}

/// The open programs, in order of opening.
pub(crate) fn open_programs(
    alloc: Global,
    folders: &[Folder],
    store: &DocumentStore,
) -> Result<Vec<PathId>, OutOfMemory>
    requires few { length store.now.store.documents ≤ MOST_DOCUMENTS }
    ensures { IfOk result (λ all. all.items ≡ programs folders.now store.now.store) }
{
    let mut programs = Vec::new(alloc);
    queue_programs(folders, store, &mut programs)?;
    Ok(programs)
}

impl SessionState {
    /// Takes leave of a document, if it is no program and a list of it was published.
    fn leave(
        &self,
        alloc: Global,
        document: &Document<'_>,
        bodies: &mut Bodies,
    ) -> Result<(), OutOfMemory>
        requires shown { (shown : OpenDocument) × Shows self.now.store.paths shown document.now }
        ensures { OnOk result ((shown : OpenDocument) → Shows self.now.store.paths shown document.now
            → bodies.new ≡ bodies.old ++ farewell_unless self.now shown document.now.path) }
    {
        if is_program_shown(&self.folders, &self.store, document) {
            return Ok(());
        }
        let Some(last) = last_list(&self.published, document.path) else {
            return Ok(());
        };
        if last.list.as_slice().is_empty() {
            return Ok(());
        }
        let (body, _) = replies::list_body(alloc, document.uri, None, Diagnostics::new(alloc))?;
        bodies.push(body)
    }

    /// What is written for each document that is no program, in order of opening.
    fn farewells(&self, alloc: Global) -> Result<Bodies, OutOfMemory>
        ensures { IfOk result (λ bodies. bodies ≡ farewells self.now) }
    {
        let mut bodies = Bodies::none(alloc);
        for index in 0..MOST_DOCUMENTS as u32 {
            let Some(document) = self.store.document(index) else {
                return Ok(bodies);
            };
            self.leave(alloc, &document, &mut bodies)?;
        }
        Ok(bodies)
    }

    /// Documents that are no programs any more leave the queue, and nothing is published of them.
    pub(crate) fn settle(&mut self, alloc: Global) -> Result<Bodies, OutOfMemory>
        ensures { IfOk result (λ bodies. IsEffect (settled self.old) self.new bodies) }
    {
        let bodies = self.farewells(alloc)?;
        let programs = open_programs(alloc, &self.folders, &self.store)?;
        forget_members(&mut self.listed, &mut self.index, &mut self.names);
        keep_queued(&mut self.queue, &programs);
        keep_published(&mut self.published, &programs);
        Ok(bodies)
    }
}
