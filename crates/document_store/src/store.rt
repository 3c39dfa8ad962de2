//! The store of open documents and of files of members.
ghost use Rattle.std.specs.Prelude.{◌≡◌, ◌+◌, ◌<◌, ◌≤◌, ℕ, length, IfOk, IfErr, IfSome, OnOk, OnErr, IsSome, ◌==◌, ◌^◌, Some, None, position, slice_get, slice_set, true};
ghost use Rattle.std.specs.Option.{option_map, option_and_then};
ghost use Rattle.std.specs.Str.{chars};
ghost use Rattle.std.specs.String.{string_bytes, string_len};
ghost use Rattle.document_store.specs.Store as store;
ghost use Rattle.document_store.specs.Changes.{opened, changed, closed, with_document, with_text, Answers, MayOpen};
ghost use Rattle.document_store.specs.Holdings as holdings;
ghost use Rattle.document_store.specs.Shown.{HaveNumbers, IsShown, IsPresent, HasTexts, HasFileTexts, HasNoOtherTexts, IsOwnedByHolders, PathsDiffer};
ghost use Rattle.document_store.specs.Members.{file_read, file_given, size_of, placed, fits, with_file, file_set, file_dropped, files_dropped};
ghost use Rattle.document_store.specs.Inside.{AreCounted, AreWithin};
ghost use Rattle.document_store.specs.Positions as positions;
ghost use Rattle.text_pool.specs.Pool.{TextsDiffer};

use crate::changes::after_edits;
use crate::kept::{KeptDocument, append, place_in};
use crate::members::{Totals, copied, let_go, size_kept, size_read, take_in};
use crate::opening::prepare;
use crate::paths::{enter, number_for, number_in};
use crate::{Document, MOST_DOCUMENTS, MemberText, StoreFault, place};
use file_uri::file_path;
use hl_base::{Answer, Edit, Name, PathId, Position};
use indexmap::IndexSet;
use std::alloc::Global;
use std::marker::Model;
use text_pool::{LONGEST_TEXT, Present, TextPool, live_texts_differ};

/// The open documents in order of opening, the numbers of paths, and what was last read of their files. Contracts see its
/// `Store` and its pool.
#[derive(Drop)]
pub struct DocumentStore {
    // The paths in the order of their numbers. A path keeps its number for good.
    paths: IndexSet<String>,
    // What is kept of the file of each path, in the same order, and how much that is together.
    files: Vec<Option<MemberText>>,
    totals: Totals,
    documents: Vec<KeptDocument>,
    pool: TextPool,
}

impl Model for DocumentStore {
    ghost use Rattle.document_store.specs.Holdings.{Holdings, holdings_code};

    ghost Value = { Holdings };

    ghost coded = { holdings_code };

    ghost use Rattle.std.specs.Prelude.{map};
    ghost use Rattle.document_store.specs.Inside.{holdings_of, file_in, IsKept, AreWithin};

    ghost view = { λ s. holdings_of s.paths.keys s.files.items s.documents.items s.pool };

    ghost invariant = { λ s. IsKept s.paths.keys s.files.items s.documents.items s.pool × AreWithin s.totals (map (file_in s.pool) s.files.items) };
}

impl DocumentStore {
    /// A store without documents and files. It takes no memory.
    pub fn new(alloc: Global) -> DocumentStore
        ensures { result.store ≡ store.empty_store }
    {
        DocumentStore {
            paths: IndexSet::new(alloc),
            files: Vec::new(alloc),
            totals: Totals::new(),
            documents: Vec::new(alloc),
            pool: TextPool::new(alloc),
        }
    }

    /// The pool of the texts that are present.
    pub fn pool(&self) -> &TextPool
        ensures { result.now ≡ self.now.pool }
    {
        &self.pool
    }

    /// How many paths have a number: those below it.
    pub fn path_count(&self) -> usize
        ensures count { result ≡ length self.now.store.paths }
        ensures few { result ≤ 2 ^ 32 }
    {
        self.paths.len()
    }

    /// The number of a path; none where no document of it was ever opened and no file of it ever kept.
    pub fn path_id(&self, path: &str) -> Option<PathId>
        ensures { option_map (λ id. id.0) result ≡ store.number_of self.now.store.paths (chars path.now) }
    {
        let number = number_in(&self.paths, path)?;
        Some(PathId(number as u32))
    }

    /// The path of a number that was given.
    pub fn path_text(&self, path: PathId) -> &str
        requires given { path.0 < length self.now.store.paths }
        ensures { Some (chars result.now) ≡ slice_get self.now.store.paths path.0 }
    {
        self.paths.as_slice()[path.0 as usize].as_str()
    }

    /// The open document of a place in the order of opening, counted from 0.
    pub fn document(&self, index: u32) -> Option<Document<'_>>
        ensures { IsShown self.now.store.paths (slice_get self.now.store.documents index) result }
    {
        self.shown(index as usize)
    }

    /// The open document at the path of a number, found without a scan over numbers.
    pub fn document_at(&self, path: PathId) -> Option<Document<'_>>
        ensures { IsShown self.now.store.paths (option_and_then (store.document_of self.now.store) (slice_get self.now.store.paths path.0)) result }
    {
        match self.place(path) {
            Some(at) => self.shown(at),
            None => None,
        }
    }

    /// The open document of a place.
    fn shown(&self, at: usize) -> Option<Document<'_>>
        ensures { IsShown self.now.store.paths (slice_get self.now.store.documents at) result }
    {
        match self.documents.get(at) {
            Some(kept) => Some(kept.shown()),
            None => None,
        }
    }

    /// What is present at the path of a number: the text of the open document, else what was last read of the file.
    pub fn present(&self, path: PathId) -> Option<MemberText>
        ensures { IsPresent self.now.pool (store.present_at self.now.store path.0) result }
    {
        match self.place(path) {
            Some(at) => Some(MemberText::File(self.documents[at].text)),
            None => self.file(path),
        }
    }

    /// What was last read of the file of the path of a number.
    fn file(&self, path: PathId) -> Option<MemberText>
        ensures { IsPresent self.now.pool (store.file_at self.now.store path.0) result }
    {
        match self.files.get(path.0 as usize) {
            Some(file) => *file,
            None => None,
        }
    }

    /// The line, counted from 0, and the column, counted from 1 in characters, of a position in the text that is present
    /// at a path (Language Server Protocol 3.17, "Position").
    pub fn column(&self, path: PathId, at: Position) -> (u32, u32)
        requires present { IsSome (holdings.present_text self.now.store path.0) }
        ensures line { IfSome (holdings.present_text self.now.store path.0) (λ text. result.0 ≡ (positions.column_of text at).0) }
        ensures column { IfSome (holdings.present_text self.now.store path.0) (λ text. result.1 ≡ (positions.column_of text at).1) }
    {
        match self.present(path) {
            Some(MemberText::File(text)) => {
                place::column_in(self.pool.text(text), self.pool.line(text, at.line), at)
            }
            Some(MemberText::Unreadable) => unreachable!(),
            None => unreachable!(),
        }
    }

    /// The position of a column, counted from 1 in characters, of a line, counted from 0, of the text that is present at a
    /// path. Column 0 is read as column 1.
    pub fn position(&self, path: PathId, line: u32, column: u32) -> Position
        requires present { IsSome (holdings.present_text self.now.store path.0) }
        ensures { IfSome (holdings.present_text self.now.store path.0) (λ text. result ≡ positions.position_of text line column) }
    {
        place::position(self.present_text(path), line, column)
    }

    /// The text that is present at a path.
    fn present_text(&self, path: PathId) -> &str
        requires present { IsSome (holdings.present_text self.now.store path.0) }
        ensures text { holdings.present_text self.now.store path.0 ≡ Some (chars result.now) }
        ensures short { length result.now ≤ LONGEST_TEXT }
    {
        match self.present(path) {
            Some(MemberText::File(text)) => self.pool.text(text),
            Some(MemberText::Unreadable) => unreachable!(),
            None => unreachable!(),
        }
    }

    /// The place of the open document of a path.
    fn find(&self, path: &str) -> Option<usize>
        ensures { result ≡ position (store.is_at (chars path.now)) self.now.store.documents }
    {
        place_in(self.documents.as_slice(), path)
    }

    /// The place of the open document at the path of a number.
    fn place(&self, path: PathId) -> Option<usize>
        ensures { result ≡ option_and_then (λ p. position (store.is_at p) self.now.store.documents) (slice_get self.now.store.paths path.0) }
    {
        let path = self.paths.get_index(path.0 as usize)?;
        self.find(path.as_str())
    }

    /// Whether a document of a path may be opened with a text.
    fn may_open(&self, path: &str, text: &str) -> Result<(), StoreFault>
        ensures { MayOpen self.now.store (chars path.now) (chars text.now) result }
    {
        if self.find(path).is_some() {
            return Err(StoreFault::AlreadyOpen);
        }
        if self.documents.as_slice().len() >= MOST_DOCUMENTS {
            return Err(StoreFault::TooMany);
        }
        if text.len() > LONGEST_TEXT {
            return Err(StoreFault::TextTooLong);
        }
        Ok(())
    }

    /// Takes in a document of a path at which none is open, with a text that is not too long.
    fn admit(
        &mut self,
        alloc: Global,
        path: &str,
        uri: &str,
        language: &str,
        version: i32,
        text: &str,
    ) -> Result<(), StoreFault>
        requires absent { store.document_of self.old.store (chars path.now) ≡ None }
        requires short { length text.now ≤ LONGEST_TEXT }
        ensures taken { OnOk result (self.new.store ≡ with_document self.old.store (record { path = chars path.now; uri = chars uri.now; language = chars language.now; version = version; text = chars text.now })) }
        ensures memory { IfErr result (λ fault. fault ≡ StoreFault.OutOfMemory) }
        ensures kept { OnErr result (self.new ≡ self.old) }
    {
        let opening = prepare(alloc, &self.paths, path, uri, language, version)?;
        self.documents.reserve(1)?;
        self.paths.reserve(1)?;
        self.files.reserve(1)?;
        let text = self.pool.intern(alloc, text)?;
        let (key, kept) = opening.keep(text);
        enter(&mut self.paths, &mut self.files, key, None);
        append(&mut self.documents, kept);
        Ok(())
    }

    /// Opens a document (Language Server Protocol 3.17, "DidOpenTextDocument Notification"). An `Err` changes nothing.
    pub fn open_text(
        &mut self,
        alloc: Global,
        uri: &str,
        language: &str,
        version: i32,
        text: &str,
    ) -> Result<(), StoreFault>
        ensures answer { Answers (opened self.old.store (chars uri.now) (chars language.now) version (chars text.now)) result self.new.store }
        ensures kept { OnErr result (self.new ≡ self.old) }
    {
        let path = file_path(alloc, uri)?;
        self.may_open(path.as_str(), text)?;
        self.admit(alloc, path.as_str(), uri, language, version, text)
    }

    /// The text of the open document of a place.
    fn text_at(&self, at: usize) -> &str
        requires { at < length self.now.store.documents }
        ensures text { IfSome (slice_get self.now.store.documents at) (λ document. chars result.now ≡ document.text) }
        ensures short { length result.now ≤ LONGEST_TEXT }
    {
        self.pool.text(self.documents[at].text)
    }

    /// Gives the document of a path, which is at a place, another version and text. The path is for the contract alone.
    fn replace(
        &mut self,
        _path: &str,
        at: usize,
        version: i32,
        text: String,
    ) -> Result<(), StoreFault>
        requires found { position (store.is_at (chars _path.now)) self.old.store.documents ≡ Some at }
        requires short { string_len text ≤ LONGEST_TEXT }
        ensures replaced { OnOk result (self.new.store ≡ with_text self.old.store (chars _path.now) version (chars (string_bytes text))) }
        ensures memory { IfErr result (λ fault. fault ≡ StoreFault.OutOfMemory) }
        ensures kept { OnErr result (self.new ≡ self.old) }
    {
        let old = self.documents[at].text;
        let new = self.pool.intern_owned(text)?;
        self.pool.release(old);
        self.documents[at].rewrite(version, new);
        Ok(())
    }

    /// Changes the text of a document and gives it a version (Language Server Protocol 3.17, "DidChangeTextDocument
    /// Notification"): the changes apply in turn, each to the text that the one before left. An `Err` changes nothing.
    pub fn change(
        &mut self,
        alloc: Global,
        uri: &str,
        version: i32,
        edits: &[Edit],
    ) -> Result<(), StoreFault>
        ensures answer { Answers (changed self.old.store (chars uri.now) version edits.now) result self.new.store }
        ensures kept { OnErr result (self.new ≡ self.old) }
    {
        let path = file_path(alloc, uri)?;
        let Some(at) = self.find(path.as_str()) else {
            return Err(StoreFault::NotOpen);
        };
        match after_edits(alloc, self.text_at(at), edits) {
            Ok(text) => self.replace(path.as_str(), at, version, text),
            Err(fault) => Err(fault),
        }
    }

    /// Closes a document (Language Server Protocol 3.17, "DidCloseTextDocument Notification"). An `Err` changes nothing.
    pub fn close(&mut self, alloc: Global, uri: &str) -> Result<(), StoreFault>
        ensures answer { Answers (closed self.old.store (chars uri.now)) result self.new.store }
        ensures kept { OnErr result (self.new ≡ self.old) }
    {
        let path = file_path(alloc, uri)?;
        let Some(at) = place_in(self.documents.as_slice(), path.as_str()) else {
            return Err(StoreFault::NotOpen);
        };
        let document = self.documents.remove(at);
        self.pool.release(document.text);
        Ok(())
    }

    /// How many paths have a place for their files.
    fn file_count(&self) -> usize
        ensures count { result ≡ length self.now.store.files }
        ensures few { result ≤ 2 ^ 32 }
    {
        self.files.len()
    }

    /// How many files there are without the one of a number, and how many bytes they have.
    fn totals_without(&self, at: usize) -> Totals
        requires { at < length self.now.store.files }
        ensures { AreCounted result (slice_set self.now.store.files at None) }
    {
        let file = self.files[at];
        match file {
            Some(_) => self.totals.without(size_kept(&self.pool, file)),
            None => self.totals,
        }
    }

    /// The same with a file of so many bytes: at its number, or as the last.
    fn totals_with(&self, at: Option<usize>, size: u64) -> Totals
        requires within { IfSome at (λ number. number < length self.now.store.files) }
        requires small { size ≤ LONGEST_TEXT }
        ensures { (file : store.File) → size_of file ≡ size → AreCounted result (placed self.now.store.files at file) }
    {
        match at {
            Some(number) => self.totals_without(number).with(size),
            None => self.totals.with(size),
        }
    }

    /// Keeps what was read of the file of a number.
    fn replace_file(
        &mut self,
        at: usize,
        text: Option<String>,
        totals: Totals,
    ) -> Result<(), StoreFault>
        requires there { at < length self.old.store.files }
        requires short { IfSome text (λ text. string_len text ≤ LONGEST_TEXT) }
        requires within { AreWithin totals (placed self.old.store.files (Some at) (file_given text)) }
        ensures replaced { OnOk result (self.new.store ≡ record self.old.store { files = placed self.old.store.files (Some at) (file_given text) }) }
        ensures memory { IfErr result (λ fault. fault ≡ StoreFault.OutOfMemory) }
        ensures kept { OnErr result (self.new ≡ self.old) }
    {
        let old = self.files[at];
        let file = take_in(&mut self.pool, text)?;
        let_go(&mut self.pool, old);
        self.files[at] = Some(file);
        self.totals = totals;
        Ok(())
    }

    /// Keeps what was read of the file of a path that has no number, which gets one.
    fn add_file(
        &mut self,
        alloc: Global,
        path: &str,
        text: Option<String>,
        totals: Totals,
    ) -> Result<PathId, StoreFault>
        requires absent { store.number_of self.old.store.paths (chars path.now) ≡ None }
        requires short { IfSome text (λ text. string_len text ≤ LONGEST_TEXT) }
        requires within { AreWithin totals (placed self.old.store.files None (file_given text)) }
        ensures added { OnOk result (self.new.store ≡ with_file self.old.store (chars path.now) (file_given text)) }
        ensures number { IfOk result (λ id. store.number_of self.new.store.paths (chars path.now) ≡ Some id.0) }
        ensures memory { IfErr result (λ fault. fault ≡ StoreFault.OutOfMemory) }
        ensures kept { OnErr result (self.new ≡ self.old) }
    {
        let number = number_for(&self.paths, path)?;
        let key = String::from_str(alloc, path)?;
        self.paths.reserve(1)?;
        self.files.reserve(1)?;
        let file = take_in(&mut self.pool, text)?;
        enter(&mut self.paths, &mut self.files, key, Some(file));
        self.totals = totals;
        Ok(number)
    }

    /// Keeps what was read of the file of a path: its text, or that it cannot be read. The path then has a number. An `Err`
    /// changes nothing, the numbers neither.
    pub fn set_member(
        &mut self,
        alloc: Global,
        path: &str,
        text: Option<&str>,
    ) -> Result<PathId, StoreFault>
        requires short { IfSome text (λ text. length text.now ≤ LONGEST_TEXT) }
        ensures answer { Answers (file_set self.old.store (chars path.now) (file_read text.entry)) result self.new.store }
        ensures number { IfOk result (λ id. store.number_of self.new.store.paths (chars path.now) ≡ Some id.0) }
        ensures kept { OnErr result (self.new ≡ self.old) }
    {
        let text = copied(alloc, text)?;
        self.keep_member(alloc, path, text)
    }

    /// The same of a text that is given away: it is kept without a copy.
    pub fn keep_member(
        &mut self,
        alloc: Global,
        path: &str,
        text: Option<String>,
    ) -> Result<PathId, StoreFault>
        requires short { IfSome text (λ text. string_len text ≤ LONGEST_TEXT) }
        ensures answer { Answers (file_set self.old.store (chars path.now) (file_given text)) result self.new.store }
        ensures number { IfOk result (λ id. store.number_of self.new.store.paths (chars path.now) ≡ Some id.0) }
        ensures kept { OnErr result (self.new ≡ self.old) }
    {
        let at = number_in(&self.paths, path);
        let totals = self.totals_with(at, size_read(&text));
        if !totals.may_stand() {
            return Err(StoreFault::LibraryTooLarge);
        }
        match at {
            Some(number) => {
                self.replace_file(number, text, totals)?;
                Ok(PathId(number as u32))
            }
            None => self.add_file(alloc, path, text, totals),
        }
    }

    /// Drops what is kept of the file of the path of a number, if anything is.
    pub fn drop_member(&mut self, path: PathId)
        ensures { self.new.store ≡ file_dropped self.old.store path.0 }
    {
        let at = path.0 as usize;
        if at < self.file_count() {
            let totals = self.totals_without(at);
            let_go(&mut self.pool, self.files[at]);
            self.files[at] = None;
            self.totals = totals;
        }
    }

    /// Drops what is kept of all files. Paths keep their numbers.
    pub fn drop_members(&mut self)
        ensures { self.new.store ≡ files_dropped self.old.store }
    {
        let mut number = 0;
        while number < self.file_count() {
            self.drop_member(PathId(number as u32));
            number += 1;
        }
    }
}

impl Present for DocumentStore {
    ghost use Rattle.text_pool.specs.Members.{Absent};

    ghost members = { λ _ _. Absent };

    ghost texts = { λ s. s.pool };

    /// None is found by its name: which folders have it is for others to say.
    fn member(&self, _name: &Name) -> Answer {
        Answer::Nothing
    }

    fn pool(&self) -> &TextPool {
        &self.pool
    }
}

/// Each open document's text and that of each file that was read is in the pool, and each text there has as many owners as
/// open documents and files have it, at least one: it is gone with the last. Equal texts have equal numbers. It does nothing;
/// its contract is the claim.
pub fn documents_own_their_texts(store: &DocumentStore)
    ensures texts { HasTexts store.now }
    ensures files { HasFileTexts store.now }
    ensures owners { IsOwnedByHolders store.now }
    ensures others { HasNoOtherTexts store.now }
    ensures differ { TextsDiffer store.now.pool }
{
    live_texts_differ(&store.pool);
}

/// Each path has one number and a place for its file, and no more files are kept than may be. It does nothing; its contract
/// is the claim.
pub fn paths_have_files(store: &DocumentStore)
    ensures files { length store.now.store.files ≡ length store.now.store.paths }
    ensures differ { PathsDiffer store.now.store.paths }
    ensures few { length store.now.store.paths ≤ 2 ^ 32 }
    ensures fit { fits store.now.store.files ≡ true }
{
    let _ = &store.paths;
}

/// The path of each open document has a number. It does nothing; its contract is the claim.
pub fn documents_have_numbers(store: &DocumentStore)
    ensures { HaveNumbers store.now.store }
{
    let _ = &store.documents;
}
