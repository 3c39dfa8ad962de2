//! Notifications (LSP 3.17, "Text Document Synchronization"). While the session is not active they are passed over.
ghost use Rattle.std.specs.Prelude.{◌≡◌, ◌≢◌, [], ◌∷◌, ℕ, List, Some, None, Ok, true, IfOk, codes, encode_utf8_all, if◌then◌else◌};
ghost use Rattle.std.specs.Str.{chars};
ghost use Rattle.file_uri.specs.Paths.{path_of};
ghost use Rattle.hl_base.specs.declared.edit.Edit.{Edit};
ghost use Rattle.document_store.specs.Changes.{opened, changed, closed};
ghost use Rattle.lsp_messages.specs.declared.incoming.LspIn.TheVariants as said;
ghost use Rattle.session_core.specs.Inside.{unknown_asked, wrong_asked, change_asked, closing_asked};
ghost use Rattle.session_core.specs.Message as messages;
ghost use Rattle.session_core.specs.Replies.{log_line, refusal_of};
ghost use Rattle.library_folders.specs.Folders as rules;
ghost use Rattle.session_core.specs.State.{number_named, without};
ghost use Rattle.session_core.specs.Step.{Acts};

use crate::bodies::Bodies;
use crate::programs::{drop_named, forget, number_named, queue_programs};
use crate::replies;
use crate::session_state::SessionState;
use document_store::{MOST_DOCUMENTS, StoreFault};
use file_uri::{UriFault, file_path};
use hl_base::{Edit, OutOfMemory, PathId, Text};
use library_folders::{Folder, is_member};
use std::alloc::Global;

/// Whether a notification of this method may be passed over.
fn is_optional(method: &Text) -> bool
    ensures { result ≡ messages.is_optional method.now }
{
    method.as_str().as_bytes().starts_with(b"$/")
}

/// A line of the log: why a notification of this method was refused.
fn log_method(alloc: Global, method: &Text, why: &str) -> Result<Bodies, OutOfMemory>
    ensures { IfOk result (λ bodies. bodies ≡ log_line (encode_utf8_all method.now) why.now ∷ []) }
{
    let line = replies::log_line(alloc, method.as_str(), why)?;
    Bodies::one(alloc, line)
}

/// A line of the log: why the documents stay as they are.
fn log_refusal(alloc: Global, method: &str, fault: StoreFault) -> Result<Bodies, OutOfMemory>
    ensures { IfOk result (λ bodies. (fault ≢ StoreFault.OutOfMemory) × (bodies ≡ log_line method.now (refusal_of fault) ∷ [])) }
{
    let why = replies::refusal_of(alloc, fault)?;
    let line = replies::log_line(alloc, method, &why)?;
    Bodies::one(alloc, line)
}

/// Whether a URI names a file of a library folder.
fn is_member_named(alloc: Global, folders: &[Folder], uri: &str) -> Result<bool, OutOfMemory>
    ensures { IfOk result (λ member. (path : List ℕ) → path_of (chars uri.now) ≡ Some path → member ≡ rules.is_member folders.now path) }
{
    match file_path(alloc, uri) {
        Ok(path) => Ok(is_member(folders, path.as_str())),
        Err(UriFault::BadUri) => Ok(false),
        Err(UriFault::OutOfMemory) => Err(OutOfMemory),
    }
}

/// The lists that no longer count as those of what is there, where a document has changed: of all programs if it is a member,
/// and else of that document.
fn forget_lists(listed: &mut Vec<PathId>, member: bool, path: Option<PathId>)
    ensures { listed.new.items ≡ (if member then [] else without listed.old.items path) }
{
    if member {
        listed.clear();
    } else {
        drop_named(listed, path);
    }
}

impl SessionState {
    pub(crate) fn unknown_notification(
        &mut self,
        alloc: Global,
        method: &Text,
    ) -> Result<Bodies, OutOfMemory>
        ensures { IfOk result (λ bodies. Acts (unknown_asked self.old None method.now) self.new bodies) }
    {
        if !self.is_active() {
            return Ok(Bodies::none(alloc));
        }
        if is_optional(method) {
            return Ok(Bodies::none(alloc));
        }
        log_method(alloc, method, "UnknownMethod")
    }

    pub(crate) fn bad_notification(
        &mut self,
        alloc: Global,
        method: &Text,
        name: &Text,
    ) -> Result<Bodies, OutOfMemory>
        ensures { IfOk result (λ bodies. Acts (wrong_asked self.old None method.now name.now) self.new bodies) }
    {
        if !self.is_active() {
            return Ok(Bodies::none(alloc));
        }
        let why = replies::bad_params(alloc, name)?;
        log_method(alloc, method, &why)
    }

    /// `textDocument/didOpen`.
    pub(crate) fn opened(
        &mut self,
        alloc: Global,
        uri: &Text,
        language: &Text,
        version: i32,
        text: &Text,
    ) -> Result<Bodies, OutOfMemory>
        ensures { IfOk result (λ bodies. Acts (messages.asked self.old (Ok (said.DidOpen uri.now language.now version text.now)))
            self.new bodies) }
    {
        if !self.is_active() {
            return Ok(Bodies::none(alloc));
        }
        self.open(alloc, uri, language, version, text)
    }

    fn open(
        &mut self,
        alloc: Global,
        uri: &Text,
        language: &Text,
        version: i32,
        text: &Text,
    ) -> Result<Bodies, OutOfMemory>
        ensures { IfOk result (λ bodies.
            Acts (change_asked self.old (codes "textDocument/didOpen") (opened self.old.store uri.now language.now version text.now))
            self.new bodies) }
    {
        let (uri, language, text) = (uri.as_str(), language.as_str(), text.as_str());
        let path = number_named(alloc, &self.store, uri)?;
        let member = is_member_named(alloc, &self.folders, uri)?;
        self.queue.reserve(MOST_DOCUMENTS)?;
        match self.store.open_text(alloc, uri, language, version, text) {
            Ok(()) => {
                forget_lists(&mut self.listed, member, path);
                self.index = None;
                self.names = None;
                queue_programs(&self.folders, &self.store, &mut self.queue)?;
                Ok(Bodies::none(alloc))
            }
            Err(fault) => log_refusal(alloc, "textDocument/didOpen", fault),
        }
    }

    /// `textDocument/didChange`.
    pub(crate) fn changed(
        &mut self,
        alloc: Global,
        uri: &Text,
        version: i32,
        edits: &[Edit],
    ) -> Result<Bodies, OutOfMemory>
        ensures { IfOk result (λ bodies. Acts (messages.asked self.old (Ok (said.DidChange uri.now version edits.now))) self.new bodies) }
    {
        if !self.is_active() {
            return Ok(Bodies::none(alloc));
        }
        self.change(alloc, uri, version, edits)
    }

    fn change(
        &mut self,
        alloc: Global,
        uri: &Text,
        version: i32,
        edits: &[Edit],
    ) -> Result<Bodies, OutOfMemory>
        ensures { IfOk result (λ bodies.
            Acts (change_asked self.old (codes "textDocument/didChange") (changed self.old.store uri.now version edits.now))
            self.new bodies) }
    {
        let path = number_named(alloc, &self.store, uri.as_str())?;
        let member = is_member_named(alloc, &self.folders, uri.as_str())?;
        self.queue.reserve(MOST_DOCUMENTS)?;
        match self.store.change(alloc, uri.as_str(), version, edits) {
            Ok(()) => {
                forget_lists(&mut self.listed, member, path);
                self.names = None;
                queue_programs(&self.folders, &self.store, &mut self.queue)?;
                Ok(Bodies::none(alloc))
            }
            Err(fault) => log_refusal(alloc, "textDocument/didChange", fault),
        }
    }

    /// `textDocument/didClose`.
    pub(crate) fn closed(&mut self, alloc: Global, uri: &Text) -> Result<Bodies, OutOfMemory>
        ensures { IfOk result (λ bodies. Acts (messages.asked self.old (Ok (said.DidClose uri.now))) self.new bodies) }
    {
        if !self.is_active() {
            return Ok(Bodies::none(alloc));
        }
        self.close(alloc, uri)
    }

    fn close(&mut self, alloc: Global, uri: &Text) -> Result<Bodies, OutOfMemory>
        ensures { IfOk result (λ bodies.
            Acts (closing_asked self.old (codes "textDocument/didClose") (number_named self.old.store uri.now)
            (closed self.old.store uri.now))
            self.new bodies) }
    {
        let path = number_named(alloc, &self.store, uri.as_str())?;
        let member = is_member_named(alloc, &self.folders, uri.as_str())?;
        let farewell = self.farewell_at(alloc, path)?;
        self.queue.reserve(MOST_DOCUMENTS)?;
        match self.store.close(alloc, uri.as_str()) {
            Ok(()) => {
                forget(&mut self.queue, &mut self.published, path);
                forget_lists(&mut self.listed, member, path);
                self.index = None;
                self.names = None;
                queue_programs(&self.folders, &self.store, &mut self.queue)?;
                Ok(farewell)
            }
            Err(fault) => log_refusal(alloc, "textDocument/didClose", fault),
        }
    }
}
