//! How a session begins and ends (LSP 3.17, "Lifecycle Messages").
ghost use Rattle.std.specs.Prelude.{◌≡◌, Ok, IfOk};
ghost use Rattle.std.specs.Option.{option_copied};
ghost use Rattle.std.specs.Str.{chars};
ghost use Rattle.member_paths.specs.Paths.{without_slash};
ghost use Rattle.lsp_messages.specs.declared.incoming.LspIn.TheVariants as said;
ghost use Rattle.session_core.specs.Message as messages;
ghost use Rattle.session_core.specs.Refusals.{is_active};
ghost use Rattle.session_core.specs.State.{libraries_of};
ghost use Rattle.session_core.specs.Step.{Acts, IsEffect};

use crate::bodies::Bodies;
use crate::programs::{forget_members, queue_programs};
use crate::replies;
use crate::requests::{out_of_place, too_early};
use crate::session_state::SessionState;
use crate::state::Stage;
use file_uri::{UriFault, file_path};
use hl_base::{Ledger, OutOfMemory, Steps, Text};
use library_folders::{Configuration, Folder, folders_of};
use lsp_messages::Id;
use std::alloc::Global;
use waiting_requests::Waiting;

/// A path without the slash at its end, if it has one.
fn without_slash(path: &str) -> &str
    ensures { chars result.now ≡ without_slash (chars path.now) }
{
    match path.strip_suffix('/') {
        Some(front) => front,
        None => path,
    }
}

/// The path of the root that a URI names.
fn root_of(alloc: Global, uri: Option<Text>) -> Result<Option<Text>, OutOfMemory>
    ensures { IfOk result (λ root. root ≡ messages.root_of uri) }
{
    let Some(uri) = uri else {
        return Ok(None);
    };
    match file_path(alloc, uri.as_str()) {
        Ok(path) => Ok(Some(Text::of(alloc, without_slash(path.as_str()))?)),
        Err(UriFault::BadUri) => Ok(None),
        Err(UriFault::OutOfMemory) => Err(OutOfMemory),
    }
}

/// The library folders of a configuration; without a root there is none.
pub(crate) fn folders_in(
    alloc: Global,
    root: Option<&Text>,
    configuration: &Configuration,
) -> Result<Vec<Folder>, OutOfMemory>
    ensures { IfOk result (λ folders. folders.items ≡ libraries_of (option_copied root.entry) configuration.now) }
{
    match root {
        Some(root) => folders_of(alloc, root.as_str(), configuration.groups.as_slice()),
        None => Ok(Vec::new(alloc)),
    }
}

impl SessionState {
    /// Whether `initialize` was answered, and `shutdown` was not.
    pub(crate) fn is_active(&self) -> bool
        ensures { result ≡ is_active self.now.stage }
    {
        match self.stage {
            Stage::Fresh => false,
            Stage::Active => true,
            Stage::Closing => false,
            Stage::Ended { .. } => false,
        }
    }

    /// `initialize`: what the server offers, once.
    pub(crate) fn initialize(
        &mut self,
        alloc: Global,
        id: Id,
        root: Option<Text>,
    ) -> Result<Bodies, OutOfMemory>
        ensures { IfOk result (λ bodies. Acts (messages.asked self.old (Ok (said.Initialize id root))) self.new bodies) }
    {
        match self.stage {
            Stage::Fresh => {
                if self.waiting.waits(&id) {
                    return out_of_place(alloc, id);
                }
                self.begin(alloc, id, root)
            }
            Stage::Active => out_of_place(alloc, id),
            Stage::Closing => out_of_place(alloc, id),
            Stage::Ended { .. } => out_of_place(alloc, id),
        }
    }

    /// The session begins in the folder of a URI, if the client names one.
    fn begin(&mut self, alloc: Global, id: Id, root: Option<Text>) -> Result<Bodies, OutOfMemory>
        ensures { IfOk result (λ bodies. Acts (messages.effect self.old (said.Initialize id root)) self.new bodies) }
    {
        let reply = replies::initialize_reply(alloc, id)?;
        let bodies = Bodies::one(alloc, reply)?;
        let root = root_of(alloc, root)?;
        let folders = folders_in(alloc, root.as_ref(), &self.configuration)?;
        queue_programs(&folders, &self.store, &mut self.queue)?;
        forget_members(&mut self.listed, &mut self.index, &mut self.names);
        self.stage = Stage::Active;
        self.root = root;
        self.folders = folders;
        Ok(bodies)
    }

    /// `shutdown`: the lists of all queued programs, the answers to the requests that wait, and then the reply.
    pub(crate) fn shutdown<L: Ledger>(
        &mut self,
        alloc: Global,
        id: Id,
        steps: &mut Steps<L>,
    ) -> Result<Bodies, OutOfMemory>
        ensures { IfOk result (λ bodies. Acts (messages.asked self.old (Ok (said.Shutdown id))) self.new bodies) }
    {
        match self.stage {
            Stage::Fresh => too_early(alloc, id),
            Stage::Active => {
                if self.waiting.waits(&id) {
                    return out_of_place(alloc, id);
                }
                self.shut(alloc, id, steps)
            }
            Stage::Closing => out_of_place(alloc, id),
            Stage::Ended { .. } => out_of_place(alloc, id),
        }
    }

    /// The lists, then the answers, and then the reply.
    fn shut<L: Ledger>(
        &mut self,
        alloc: Global,
        id: Id,
        steps: &mut Steps<L>,
    ) -> Result<Bodies, OutOfMemory>
        ensures { IfOk result (λ bodies. IsEffect (messages.shut self.old id) self.new bodies) }
    {
        let bodies = self.assemble_all(alloc, steps)?;
        let mut bodies = self.conclude(alloc, bodies, steps)?;
        let reply = replies::shutdown_reply(alloc, id)?;
        bodies.push(reply)?;
        self.stage = Stage::Closing;
        Ok(bodies)
    }

    /// `exit`, at every stage.
    pub(crate) fn exit(&mut self, alloc: Global) -> Bodies
        ensures { Acts (messages.asked self.old (Ok said.Exit)) self.new result }
    {
        let closed = self.stage == Stage::Closing;
        self.stage = Stage::Ended { closed };
        self.queue.clear();
        self.waiting = Waiting::new(alloc);
        Bodies::none(alloc)
    }
}
