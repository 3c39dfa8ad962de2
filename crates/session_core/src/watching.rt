//! Messages on files: the configuration, and the members of library folders (LSP 3.17, "Initialized Notification",
//! "DidChangeWatchedFiles Notification"). After an `Err` the state is not to be used.
ghost use Rattle.std.specs.Prelude.{◌≡◌, ◌≤◌, ◌++◌, [], length, Some, Ok, true, false, IfOk, OnOk, map};
ghost use Rattle.std.specs.Str.{bytes_eq, chars};
ghost use Rattle.document_store.specs.Store.{empty_store};
ghost use Rattle.file_uri.specs.Paths.{path_of};
ghost use Rattle.library_reading.specs.Asked.{AsksOver};
ghost use Rattle.library_reading.specs.Log.{empty_log, without_lines};
ghost use Rattle.library_reading.specs.Taking.{path_dropped};
ghost use Rattle.lsp_messages.specs.declared.incoming.LspIn.TheVariants as said;
ghost use Rattle.session_core.specs.Inside.{configured_where, watched_so_far};
ghost use Rattle.session_core.specs.Message as messages;
ghost use Rattle.session_core.specs.Message.{settled};
ghost use Rattle.session_core.specs.Replies.{logged_line};
ghost use Rattle.session_core.specs.State.{libraries};
ghost use Rattle.session_core.specs.Step.{IsEffect};

use crate::bodies::Bodies;
use crate::lifecycle::folders_in;
use crate::programs::{forget_members, queue_programs};
use crate::replies;
use crate::session_state::SessionState;
use document_store::{DocumentStore, MOST_DOCUMENTS, documents_have_numbers};
use file_uri::{UriFault, file_path};
use hl_base::{OutOfMemory, Text};
use io_edge::Library;
use library_folders::{Configuration, is_member};
use library_reading::{
    Logs, drop_path, groups_path, programs_path, read_configuration, read_member,
};
use lsp_messages::{ChangeKind, FileChange};
use member_paths::{file_name_of, member_name};
use std::alloc::Global;

/// A message on files, as far as it has come: what is written, what was said of the library, and whether it concerned the
/// configuration or a member.
#[derive(Drop)]
struct Watch {
    bodies: Bodies,
    logs: Logs,
    concerned: bool,
}

impl Watch {
    /// Before anything is looked at.
    fn new(alloc: Global) -> Watch
        ensures bodies { result.bodies ≡ [] }
        ensures logs { result.logs ≡ empty_log }
        ensures concerned { result.concerned ≡ false }
    {
        Watch {
            bodies: Bodies::none(alloc),
            logs: Logs::new(alloc),
            concerned: false,
        }
    }

    /// The lines that were said of the library, each as a body.
    fn lines(&self, alloc: Global) -> Result<Bodies, OutOfMemory>
        ensures { IfOk result (λ bodies. bodies ≡ map logged_line self.now.logs.lines) }
    {
        let mut bodies = Bodies::none(alloc);
        for line in self.logs.lines() {
            bodies.push(replies::logged_line(alloc, line)?)?;
        }
        Ok(bodies)
    }

    /// Takes the lines that were said, and then these bodies, of an event that concerned the configuration or a member.
    fn take(&mut self, alloc: Global, bodies: Bodies) -> Result<(), OutOfMemory>
        ensures bodies { OnOk result (self.new.bodies ≡ self.old.bodies ++ (map logged_line self.old.logs.lines ++ bodies)) }
        ensures logs { OnOk result (self.new.logs ≡ without_lines self.old.logs) }
        ensures concerned { OnOk result (self.new.concerned ≡ true) }
    {
        let lines = self.lines(alloc)?;
        self.bodies.append(lines)?;
        self.bodies.append(bodies)?;
        self.logs.clear();
        self.concerned = true;
        Ok(())
    }
}

/// The path that a URI names, if it names a file.
fn path_named(alloc: Global, uri: &Text) -> Result<Option<Text>, OutOfMemory>
    ensures { IfOk result (λ path. path ≡ path_of uri.now) }
{
    match file_path(alloc, uri.as_str()) {
        Ok(path) => Ok(Some(path)),
        Err(UriFault::BadUri) => Ok(None),
        Err(UriFault::OutOfMemory) => Err(OutOfMemory),
    }
}

/// Whether a path is this one.
fn is_path(path: &str, other: &Text) -> bool
    ensures { result ≡ bytes_eq (chars path.now) other.now }
{
    path == other.as_str()
}

/// Whether a path is that of a configuration file of a root.
fn is_configuration(alloc: Global, root: &str, path: &str) -> Result<bool, OutOfMemory>
    ensures { IfOk result (λ is. is ≡ messages.is_configuration (chars root.now) (chars path.now)) }
{
    let groups = groups_path(alloc, root)?;
    let programs = programs_path(alloc, root)?;
    Ok(is_path(path, &groups) || is_path(path, &programs))
}

impl SessionState {
    /// Whether a path is that of a file of a library folder whose name spells a symbol.
    fn is_member_file(&self, path: &str) -> bool
        ensures { result ≡ messages.is_member_file (libraries self.now) (chars path.now) }
    {
        is_member(&self.folders, path) && member_name(file_name_of(path)).is_some()
    }

    /// Takes the documents and files out of their place. No list counts as that of what is there any more.
    fn take_store(&mut self, alloc: Global) -> DocumentStore
        ensures taken { result.store ≡ self.old.store }
        ensures few { length result.store.documents ≤ MOST_DOCUMENTS }
        ensures left { self.new ≡ record self.old { store = empty_store } }
    {
        forget_members(&mut self.listed, &mut self.index, &mut self.names);
        std::mem::replace(&mut self.store, DocumentStore::new(alloc))
    }

    /// A configuration that was read stands in place of the one before, with its documents and files.
    fn put_configuration(
        &mut self,
        alloc: Global,
        configuration: Configuration,
        store: DocumentStore,
    ) -> Result<Bodies, OutOfMemory>
        requires few { length store.store.documents ≤ MOST_DOCUMENTS }
        ensures { IfOk result (λ bodies.
            IsEffect (settled (record self.old { configuration = configuration; store = store.store })) self.new bodies) }
    {
        let folders = folders_in(alloc, self.root.as_ref(), &configuration)?;
        documents_have_numbers(&store);
        forget_members(&mut self.listed, &mut self.index, &mut self.names);
        self.store = store;
        self.configuration = configuration;
        self.folders = folders;
        self.settle(alloc)
    }

    /// Documents and files stand in their place, where a member was read or dropped.
    fn put_members(
        &mut self,
        alloc: Global,
        store: DocumentStore,
        watch: &mut Watch,
    ) -> Result<(), OutOfMemory>
        requires few { length store.store.documents ≤ MOST_DOCUMENTS }
        ensures { IfOk result (λ _. messages.after_member (watched_so_far self.old watch.old)
            (record { store = store.store; log = watch.old.logs })
            ≡ watched_so_far self.new watch.new) }
    {
        documents_have_numbers(&store);
        forget_members(&mut self.listed, &mut self.index, &mut self.names);
        self.store = store;
        watch.take(alloc, Bodies::none(alloc))
    }

    /// The configuration of a root is read.
    fn read_root<B: Library>(
        &mut self,
        alloc: Global,
        root: &str,
        library: &mut B,
        watch: &mut Watch,
    ) -> Result<(), OutOfMemory>
        ensures { AsksOver (messages.configured (chars root.now) (watched_so_far self.old watch.old))
            (λ _. watched_so_far self.new watch.new) result
            (B.calls library.old) (B.calls library.new) (B.faults library.old) (B.faults library.new) }
    {
        let mut store = self.take_store(alloc);
        let configuration = read_configuration(alloc, root, library, &mut store, &mut watch.logs)?;
        let farewells = self.put_configuration(alloc, configuration, store)?;
        watch.take(alloc, farewells)
    }

    /// The configuration is read, where there is a root.
    fn configure<B: Library>(
        &mut self,
        alloc: Global,
        library: &mut B,
        watch: &mut Watch,
    ) -> Result<(), OutOfMemory>
        ensures { AsksOver (configured_where self.old.root (watched_so_far self.old watch.old))
            (λ _. watched_so_far self.new watch.new) result
            (B.calls library.old) (B.calls library.new) (B.faults library.old) (B.faults library.new) }
    {
        let Some(root) = &self.root else {
            return Ok(());
        };
        let root = root.copy(alloc)?;
        self.read_root(alloc, root.as_str(), library, watch)
    }

    /// A file of a library folder is read again.
    fn read_again<B: Library>(
        &mut self,
        alloc: Global,
        path: &str,
        library: &mut B,
        watch: &mut Watch,
    ) -> Result<(), OutOfMemory>
        ensures { AsksOver (messages.member_changed (chars path.now) ChangeKind.Changed (watched_so_far self.old watch.old))
            (λ _. watched_so_far self.new watch.new) result
            (B.calls library.old) (B.calls library.new) (B.faults library.old) (B.faults library.new) }
    {
        let mut store = self.take_store(alloc);
        read_member(alloc, path, library, &mut store, &mut watch.logs)?;
        self.put_members(alloc, store, watch)
    }

    /// A file of a library folder was deleted.
    fn drop_deleted(
        &mut self,
        alloc: Global,
        path: &str,
        watch: &mut Watch,
    ) -> Result<(), OutOfMemory>
        ensures { IfOk result (λ _. messages.after_member (watched_so_far self.old watch.old)
            (record { store = path_dropped self.old.store (chars path.now); log = watch.old.logs }) ≡ watched_so_far self.new watch.new) }
    {
        let mut store = self.take_store(alloc);
        drop_path(&mut store, path);
        self.put_members(alloc, store, watch)
    }

    /// A file of a library folder has changed: it is read again, or dropped where it was deleted.
    fn change_member<B: Library>(
        &mut self,
        alloc: Global,
        path: &str,
        kind: ChangeKind,
        library: &mut B,
        watch: &mut Watch,
    ) -> Result<(), OutOfMemory>
        ensures { AsksOver (messages.member_changed (chars path.now) kind (watched_so_far self.old watch.old))
            (λ _. watched_so_far self.new watch.new) result
            (B.calls library.old) (B.calls library.new) (B.faults library.old) (B.faults library.new) }
    {
        match kind {
            ChangeKind::Created => self.read_again(alloc, path, library, watch),
            ChangeKind::Changed => self.read_again(alloc, path, library, watch),
            ChangeKind::Deleted => self.drop_deleted(alloc, path, watch),
        }
    }

    /// A file has changed, where the session has a root.
    fn change_file<B: Library>(
        &mut self,
        alloc: Global,
        path: &str,
        kind: ChangeKind,
        library: &mut B,
        watch: &mut Watch,
    ) -> Result<(), OutOfMemory>
        ensures { AsksOver (messages.change_told self.old.root (Some (chars path.now)) kind (watched_so_far self.old watch.old))
            (λ _. watched_so_far self.new watch.new) result
            (B.calls library.old) (B.calls library.new) (B.faults library.old) (B.faults library.new) }
    {
        let Some(root) = &self.root else {
            return Ok(());
        };
        let of_configuration = is_configuration(alloc, root.as_str(), path)?;
        if of_configuration {
            self.configure(alloc, library, watch)
        } else if self.is_member_file(path) {
            self.change_member(alloc, path, kind, library, watch)
        } else {
            Ok(())
        }
    }

    /// What one change says.
    fn take_change<B: Library>(
        &mut self,
        alloc: Global,
        change: &FileChange,
        library: &mut B,
        watch: &mut Watch,
    ) -> Result<(), OutOfMemory>
        ensures { AsksOver (messages.change_told self.old.root (path_of change.now.uri) change.now.kind (watched_so_far self.old watch.old))
            (λ _. watched_so_far self.new watch.new) result
            (B.calls library.old) (B.calls library.new) (B.faults library.old) (B.faults library.new) }
    {
        let named = path_named(alloc, &change.uri)?;
        match named {
            Some(path) => self.change_file(alloc, path.as_str(), change.kind, library, watch),
            None => Ok(()),
        }
    }

    /// Every open program is queued.
    fn queue_all(&mut self) -> Result<(), OutOfMemory>
        ensures { OnOk result (self.new ≡ messages.queue_all self.old) }
    {
        queue_programs(&self.folders, &self.store, &mut self.queue)
    }

    /// Behind a message on files: where it concerned any, every open program is queued.
    fn after_watching(&mut self, watch: Watch) -> Result<Bodies, OutOfMemory>
        ensures { IfOk result (λ bodies. IsEffect (messages.after_watching (watched_so_far self.old watch)) self.new bodies) }
    {
        if !watch.concerned {
            return Ok(watch.bodies);
        }
        self.queue_all()?;
        Ok(watch.bodies)
    }

    /// The changes of a message, in turn.
    fn take_changes<B: Library>(
        &mut self,
        alloc: Global,
        changes: &[FileChange],
        library: &mut B,
        watch: &mut Watch,
    ) -> Result<(), OutOfMemory>
        ensures { AsksOver (messages.changes_told changes.now (watched_so_far self.old watch.old))
            (λ _. watched_so_far self.new watch.new) result
            (B.calls library.old) (B.calls library.new) (B.faults library.old) (B.faults library.new) }
    {
        for change in changes {
            self.take_change(alloc, change, library, watch)?;
        }
        Ok(())
    }

    /// `workspace/didChangeWatchedFiles`, of a session that is active.
    fn take_watched<B: Library>(
        &mut self,
        alloc: Global,
        changes: &[FileChange],
        library: &mut B,
    ) -> Result<Bodies, OutOfMemory>
        ensures { AsksOver (messages.effect self.old (said.DidChangeWatchedFiles changes.now))
            (λ bodies. record { state = self.new; bodies = bodies }) result
            (B.calls library.old) (B.calls library.new) (B.faults library.old) (B.faults library.new) }
    {
        let mut watch = Watch::new(alloc);
        self.take_changes(alloc, changes, library, &mut watch)?;
        self.after_watching(watch)
    }

    /// `workspace/didChangeWatchedFiles`.
    pub(crate) fn watched<B: Library>(
        &mut self,
        alloc: Global,
        changes: &[FileChange],
        library: &mut B,
    ) -> Result<Bodies, OutOfMemory>
        ensures { AsksOver (messages.asked self.old (Ok (said.DidChangeWatchedFiles changes.now)))
            (λ bodies. record { state = self.new; bodies = bodies }) result
            (B.calls library.old) (B.calls library.new) (B.faults library.old) (B.faults library.new) }
    {
        if !self.is_active() {
            return Ok(Bodies::none(alloc));
        }
        self.take_watched(alloc, changes, library)
    }

    /// `initialized`, of a session that is active.
    fn begin_work<B: Library>(
        &mut self,
        alloc: Global,
        library: &mut B,
    ) -> Result<Bodies, OutOfMemory>
        ensures { AsksOver (messages.begun self.old.root self.old) (λ bodies. record { state = self.new; bodies = bodies }) result
            (B.calls library.old) (B.calls library.new) (B.faults library.old) (B.faults library.new) }
    {
        if self.root.is_none() {
            self.queue_all()?;
            return Ok(Bodies::none(alloc));
        }
        let mut watch = Watch::new(alloc);
        self.configure(alloc, library, &mut watch)?;
        self.after_watching(watch)
    }

    /// `initialized`.
    pub(crate) fn initialized<B: Library>(
        &mut self,
        alloc: Global,
        library: &mut B,
    ) -> Result<Bodies, OutOfMemory>
        ensures { AsksOver (messages.asked self.old (Ok said.Initialized)) (λ bodies. record { state = self.new; bodies = bodies }) result
            (B.calls library.old) (B.calls library.new) (B.faults library.old) (B.faults library.new) }
    {
        if !self.is_active() {
            return Ok(Bodies::none(alloc));
        }
        self.begin_work(alloc, library)
    }
}
