//! What is kept of the files of members: their texts, how many they are, and how many bytes they have.
ghost use Rattle.std.specs.Prelude.{◌≡◌, ◌+◌, ◌-◌, ◌≤◌, ◌<◌, ◌^◌, length, IfOk, IfErr, IfSome, OnErr, Some};
ghost use Rattle.std.specs.Str.{chars};
ghost use Rattle.std.specs.String.{string_len};
ghost use Rattle.document_store.specs.Store.{Readable};
ghost use Rattle.document_store.specs.Members.{file_read, file_given, size_of, size_kept, may_keep};
ghost use Rattle.document_store.specs.Inside.{file_in, IsOwnedIn, IsTakenIn, IsLetGo};

use crate::limits::{MOST_MEMBER_BYTES, MOST_MEMBERS};
use crate::{MemberText, StoreFault};
use std::alloc::Global;
use text_pool::{LONGEST_TEXT, TextPool};

/// How many files are kept, and how many bytes of UTF-8 they have together.
#[derive(Clone, Copy, Debug)]
pub(crate) struct Totals {
    files: u32,
    bytes: u64,
}

impl Totals {
    /// Of no file.
    pub(crate) fn new() -> Totals
        ensures { result ≡ record { files = 0; bytes = 0 } }
    {
        Totals { files: 0, bytes: 0 }
    }

    /// Whether so many files may be kept.
    pub(crate) fn may_stand(self) -> bool
        ensures { result ≡ may_keep self.files self.bytes }
    {
        self.files <= MOST_MEMBERS && self.bytes <= MOST_MEMBER_BYTES
    }

    /// With one file more, of so many bytes.
    pub(crate) fn with(self, bytes: u64) -> Totals
        requires files { self.files + 1 < 2 ^ 32 }
        requires bytes { self.bytes + bytes < 2 ^ 64 }
        ensures { result ≡ record { files = self.files + 1; bytes = self.bytes + bytes } }
    {
        Totals {
            files: self.files + 1,
            bytes: self.bytes + bytes,
        }
    }

    /// With one file less, which has so many bytes.
    pub(crate) fn without(self, bytes: u64) -> Totals
        requires files { 1 ≤ self.files }
        requires bytes { bytes ≤ self.bytes }
        ensures { result ≡ record { files = self.files - 1; bytes = self.bytes - bytes } }
    {
        Totals {
            files: self.files - 1,
            bytes: self.bytes - bytes,
        }
    }
}

/// A copy of what was read of a file.
pub(crate) fn copied(alloc: Global, text: Option<&str>) -> Result<Option<String>, StoreFault>
    requires { IfSome text (λ text. length text.now ≤ LONGEST_TEXT) }
    ensures copy { IfOk result (λ copy. file_given copy ≡ file_read text.entry) }
    ensures short { IfOk result (λ copy. IfSome copy (λ text. string_len text ≤ LONGEST_TEXT)) }
    ensures memory { IfErr result (λ fault. fault ≡ StoreFault.OutOfMemory) }
{
    match text {
        Some(text) => Ok(Some(String::from_str(alloc, text)?)),
        None => Ok(None),
    }
}

/// How many bytes of UTF-8 a file has of which this was read.
pub(crate) fn size_read(text: &Option<String>) -> u64
    requires { IfSome text.now (λ text. string_len text ≤ LONGEST_TEXT) }
    ensures size { result ≡ size_of (file_given text.now) }
    ensures small { result ≤ LONGEST_TEXT }
{
    match text {
        Some(text) => bytes_of(text.as_str()),
        None => 0,
    }
}

/// How many bytes of UTF-8 a text has.
fn bytes_of(text: &str) -> u64
    requires { length text.now ≤ LONGEST_TEXT }
    ensures size { result ≡ size_of (Readable (chars text.now)) }
    ensures small { result ≤ LONGEST_TEXT }
{
    text.len() as u64
}

/// How many bytes of UTF-8 are kept of a file.
pub(crate) fn size_kept(pool: &TextPool, file: Option<MemberText>) -> u64
    requires { IsOwnedIn pool.now file }
    ensures { result ≡ size_kept (file_in pool.now file) }
{
    match file {
        Some(MemberText::File(text)) => pool.text(text).len() as u64,
        Some(MemberText::Unreadable) => 0,
        None => 0,
    }
}

/// Takes what was read of a file into the pool. An `Err` changes nothing.
pub(crate) fn take_in(pool: &mut TextPool, text: Option<String>) -> Result<MemberText, StoreFault>
    requires short { IfSome text (λ text. string_len text ≤ LONGEST_TEXT) }
    ensures taken { IfOk result (λ file. IsTakenIn pool.old pool.new (file_given text) file) }
    ensures memory { IfErr result (λ fault. fault ≡ StoreFault.OutOfMemory) }
    ensures kept { OnErr result (pool.new ≡ pool.old) }
{
    match text {
        Some(text) => {
            let id = pool.intern_owned(text)?;
            Ok(MemberText::File(id))
        }
        None => Ok(MemberText::Unreadable),
    }
}

/// Lets go what was kept of a file.
pub(crate) fn let_go(pool: &mut TextPool, file: Option<MemberText>)
    requires { IsOwnedIn pool.old file }
    ensures { IsLetGo pool.old pool.new file }
{
    match file {
        Some(file) => release(pool, file),
        None => {}
    }
}

/// Lets go what is kept of a file.
fn release(pool: &mut TextPool, file: MemberText)
    requires { IsOwnedIn pool.old (Some file) }
    ensures { IsLetGo pool.old pool.new (Some file) }
{
    match file {
        MemberText::File(text) => pool.release(text),
        MemberText::Unreadable => {}
    }
}
