//! What a session is between two events, and its Turns.
ghost use Rattle.std.specs.Prelude.{◌≡◌, ◌≢◌, [], Some, MatchBool, IfOk};
ghost use Rattle.std.specs.Str.{chars};
ghost use Rattle.session_core.specs.Replies.{list_body};
ghost use Rattle.session_core.specs.Message.{farewell_at};
ghost use Rattle.session_core.specs.State.{start, document_at, last_list};
ghost use Rattle.session_core.specs.Step.{IsEffect};
ghost use Rattle.session_core.specs.Turn.{turn, turn_at, assemble_first, assemble_all, is_published};

use crate::bodies::Bodies;
use crate::lists::{Surroundings, taken_index};
use crate::programs::{document_at, is_queued, keep_list, last_list};
use crate::replies;
use crate::state::{LastList, Stage};
use debug_sessions::DebugSessions;
use document_store::{Document, DocumentStore};
use group_members::MemberIndex;
use hl_base::{Ledger, OutOfMemory, PathId, Steps, Text};
use library_folders::{Configuration, Folder};
use lsp_messages::{Diagnostic, Diagnostics};
use program_names::AssembledNames;
use program_names::program_assembly::KeptExpansions;
use std::alloc::Global;
use std::marker::Model;
use waiting_requests::Waiting;

/// How far the session has come, the folder of the client, the budget of a program, the configuration, the documents and
/// files, the queue, what was published, of which programs that is the list as it is now, where members are found, what the
/// programs tell of names, the debug sessions, and the requests that wait. Contracts see the state.
#[derive(Drop)]
pub(crate) struct SessionState {
    pub(crate) stage: Stage,
    pub(crate) root: Option<Text>,
    pub(crate) budget: u32,
    pub(crate) configuration: Configuration,
    // The library folders of the configuration.
    pub(crate) folders: Vec<Folder>,
    pub(crate) store: DocumentStore,
    pub(crate) queue: Vec<PathId>,
    pub(crate) published: Vec<LastList>,
    // The programs whose last list is that of their version, their text and the members as they are: their Turns make none.
    pub(crate) listed: Vec<PathId>,
    // Where each folder's members are found, unless it is to be made anew.
    pub(crate) index: Option<MemberIndex>,
    // What the open programs tell of names, unless it is to be found anew.
    pub(crate) names: Option<Vec<AssembledNames>>,
    pub(crate) debuggers: DebugSessions,
    pub(crate) waiting: Waiting,
    // What the last Turn expanded, for the next one.
    pub(crate) expansions: KeptExpansions,
}

impl Model for SessionState {
    ghost use Rattle.std.specs.Option.{option_map};
    ghost use Rattle.session_core.specs.Codes.{state_code};
    ghost use Rattle.session_core.specs.Inside.{IsWhole};
    ghost use Rattle.session_core.specs.State.{State};

    ghost Value = { State };

    ghost coded = { state_code };

    ghost view = { λ s. record {
      stage = s.stage;
      root = s.root;
      budget = s.budget;
      configuration = s.configuration;
      store = s.store.store;
      queue = s.queue.items;
      published = s.published.items;
      debuggers = s.debuggers;
      waiting = s.waiting;
    } };

    ghost invariant = { λ s. IsWhole s.listed.items s.folders.items s.index (option_map (λ names. names.items) s.names)
        (record { root = s.root; configuration = s.configuration; budget = s.budget }) s.store.store s.published.items };
}

/// Whether this version and this list of a program were the last to be published.
fn is_published(
    published: &[LastList],
    path: PathId,
    document: &Document<'_>,
    list: &Diagnostics,
) -> bool
    ensures { result ≡ is_published (last_list published.now path) document.now.version list.now }
{
    match last_list(published, path) {
        Some(last) => last.version == document.version && last.list == *list,
        None => false,
    }
}

/// The list of a document of the version that it has now, as it is published, and the list itself.
fn listed_body(
    alloc: Global,
    document: &Document<'_>,
    list: Diagnostics,
) -> Result<(Vec<u8>, Diagnostics), OutOfMemory>
    ensures body { IfOk result (λ told. told.0.items ≡ list_body (chars document.now.uri.now) (Some document.now.version) list) }
    ensures list { IfOk result (λ told. told.1 ≡ list) }
{
    replies::list_body(alloc, document.uri, Some(document.version), list)
}

/// This list as the last of a program, of the version that it has now.
fn listed_as(path: PathId, document: &Document<'_>, list: Diagnostics) -> LastList
    ensures { result ≡ record { path = path; version = document.now.version; list = list } }
{
    LastList {
        path,
        version: document.version,
        list,
    }
}

impl SessionState {
    /// Before the first message, where a program may be given so many statements.
    pub(crate) fn new(alloc: Global, budget: u32) -> SessionState
        ensures { result ≡ start budget }
    {
        SessionState {
            stage: Stage::Fresh,
            root: None,
            budget,
            configuration: Configuration::new(alloc),
            folders: Vec::new(alloc),
            store: DocumentStore::new(alloc),
            queue: Vec::new(alloc),
            published: Vec::new(alloc),
            listed: Vec::new(alloc),
            index: None,
            names: None,
            debuggers: DebugSessions::new(alloc),
            waiting: Waiting::new(alloc),
            expansions: KeptExpansions::new(alloc),
        }
    }

    /// How far the session has come.
    pub(crate) fn stage(&self) -> Stage
        ensures { result ≡ self.now.stage }
    {
        self.stage
    }

    /// Whether a program is queued.
    pub(crate) fn has_work(&self) -> bool
        ensures { MatchBool result (self.now.queue ≢ []) (self.now.queue ≡ []) }
    {
        !self.queue.is_empty()
    }

    /// Makes one Turn, and answers what is written for it. After an `Err` the state is not to be used.
    pub(crate) fn turn<L: Ledger>(
        &mut self,
        alloc: Global,
        steps: &mut Steps<L>,
    ) -> Result<Bodies, OutOfMemory>
        ensures { IfOk result (λ bodies. IsEffect (turn self.old) self.new bodies) }
    {
        let bodies = self.assemble_first(alloc, steps)?;
        self.conclude(alloc, bodies, steps)
    }

    /// Takes the first program from the queue, and publishes its list. After an `Err` the state is not to be used.
    fn assemble_first<L: Ledger>(
        &mut self,
        alloc: Global,
        steps: &mut Steps<L>,
    ) -> Result<Bodies, OutOfMemory>
        ensures { IfOk result (λ bodies. IsEffect (assemble_first self.old) self.new bodies) }
    {
        let Some(path) = self.queue.first().copied() else {
            return Ok(Bodies::none(alloc));
        };
        let bodies = self.publish(alloc, path, steps)?;
        let _ = self.queue.remove(0);
        Ok(bodies)
    }

    /// Publishes the list of a program, unless it was already. Where its last list is that of its version and its text as
    /// they are, none is made, and the text is not read.
    fn publish<L: Ledger>(
        &mut self,
        alloc: Global,
        path: PathId,
        steps: &mut Steps<L>,
    ) -> Result<Bodies, OutOfMemory>
        ensures { IfOk result (λ bodies. IsEffect (turn_at self.old path (document_at self.old.store path)) self.new bodies) }
    {
        let Some(document) = document_at(&self.store, path) else {
            return Ok(Bodies::none(alloc));
        };
        if is_queued(&self.listed, path) {
            return Ok(Bodies::none(alloc));
        }
        let index = taken_index(alloc, &mut self.index, &self.store)?;
        let around = Surroundings {
            root: self.root.as_ref(),
            configuration: &self.configuration,
            folders: &self.folders,
            store: &self.store,
            index: &index,
            budget: self.budget,
        };
        let list = around.list_of(alloc, path, &document, &mut self.expansions, steps)?;
        self.index = Some(index);
        self.listed.reserve(1)?;
        if is_published(&self.published, path, &document, &list) {
            self.listed.push_reserved(path);
            return Ok(Bodies::none(alloc));
        }
        let (body, list) = listed_body(alloc, &document, list)?;
        let bodies = Bodies::one(alloc, body)?;
        keep_list(&mut self.published, listed_as(path, &document, list))?;
        self.listed.push_reserved(path);
        Ok(bodies)
    }

    /// What is written where the document of a number leaves.
    pub(crate) fn farewell_at(
        &self,
        alloc: Global,
        path: Option<PathId>,
    ) -> Result<Bodies, OutOfMemory>
        ensures { IfOk result (λ bodies. bodies ≡ farewell_at self.now path) }
    {
        let Some(path) = path else {
            return Ok(Bodies::none(alloc));
        };
        let Some(document) = document_at(&self.store, path) else {
            return Ok(Bodies::none(alloc));
        };
        let Some(last) = last_list(&self.published, path) else {
            return Ok(Bodies::none(alloc));
        };
        if last.list.as_slice().is_empty() {
            return Ok(Bodies::none(alloc));
        }
        let (body, _) = replies::list_body(alloc, document.uri, None, Diagnostics::new(alloc))?;
        Bodies::one(alloc, body)
    }

    /// Publishes the lists of all queued programs.
    pub(crate) fn assemble_all<L: Ledger>(
        &mut self,
        alloc: Global,
        steps: &mut Steps<L>,
    ) -> Result<Bodies, OutOfMemory>
        ensures { IfOk result (λ bodies. IsEffect (assemble_all self.old) self.new bodies) }
    {
        let mut bodies = Bodies::none(alloc);
        'queue: while self.has_work() {
            let more = self.assemble_first(alloc, steps)?;
            bodies.append(more)?;
        }
        Ok(bodies)
    }
}
