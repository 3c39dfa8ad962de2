//! Members of a library, as they were told.
ghost use Rattle.std.specs.Prelude.{◌≡◌, ◌↔◌, [], IfOk, IsTrue, OnOk};
ghost use Rattle.std.specs.Option.{option_copied};
ghost use Rattle.std.specs.Rc.{rc_str_bytes};
ghost use Rattle.std.specs.Str.{chars};
ghost use Rattle.macro_library.specs.Members as library;

use hl_base::{Name, OutOfMemory, PathId};
use hlasm_statements::read_statements;
use indexmap::IndexMap;
use statement_listing::Listing;
use std::alloc::Global;
use std::marker::Model;
use std::rc::RcStr;

/// The file of a member, and its statements, which were read once. Contracts see its path and the characters of its text. Both
/// are shared.
#[derive(Drop)]
pub struct MemberFile {
    path: PathId,
    text: RcStr,
    list: Listing,
}

impl Model for MemberFile {
    ghost use Rattle.std.specs.Prelude.{◌≡◌};
    ghost use Rattle.std.specs.Rc.{rc_str_bytes};
    ghost use Rattle.std.specs.Str.{chars};
    ghost use Rattle.hlasm_statements.specs.Statements.{statements_of};
    ghost use Rattle.statement_listing.specs.Listings.{listing_of};
    ghost use Rattle.macro_library.specs.Files.{File};

    ghost Value = { File };

    ghost view = { λ f. record { path = f.path; text = chars (rc_str_bytes f.text) } };

    ghost invariant = { λ f. f.list ≡ listing_of f.path (statements_of (chars (rc_str_bytes f.text))) };
}

/// Whether a shared text has these characters.
fn has_characters(text: &RcStr, characters: &str) -> bool
    ensures { IsTrue result ↔ (chars (rc_str_bytes text.now) ≡ chars characters.now) }
{
    text.as_str() == characters
}

impl MemberFile {
    /// The file of this path and text. `OutOfMemory` also where it has more statements than a `u32` counts.
    pub fn of(alloc: Global, path: PathId, text: RcStr) -> Result<MemberFile, OutOfMemory>
        ensures path { IfOk result (λ f. f.path ≡ path) }
        ensures text { IfOk result (λ f. f.text ≡ chars (rc_str_bytes text)) }
    {
        let statements = read_statements(alloc, text.as_str())?;
        let list = Listing::of(alloc, path, statements)?;
        Ok(MemberFile { path, text, list })
    }

    /// The same, where a file was read before: a statement that stands in it as far from its front or its back is not read again.
    pub fn after(
        alloc: Global,
        path: PathId,
        text: RcStr,
        earlier: &MemberFile,
    ) -> Result<MemberFile, OutOfMemory>
        ensures path { IfOk result (λ f. f.path ≡ path) }
        ensures text { IfOk result (λ f. f.text ≡ chars (rc_str_bytes text)) }
    {
        if earlier.is_of(path, text.as_str()) {
            return earlier.share();
        }
        let statements = read_statements(alloc, text.as_str())?;
        let list = Listing::after(alloc, path, statements, &earlier.list)?;
        Ok(MemberFile { path, text, list })
    }

    /// Its path.
    pub fn path(&self) -> PathId
        ensures { result ≡ self.now.path }
    {
        self.path
    }

    /// Its text.
    pub fn text(&self) -> &str
        ensures { chars result.now ≡ self.now.text }
    {
        self.text.as_str()
    }

    /// Whether it is the file of this path and text.
    pub fn is_of(&self, path: PathId, text: &str) -> bool
        ensures { IsTrue result ↔ (self.now ≡ record { path = path; text = chars text.now }) }
    {
        self.path.0 == path.0 && has_characters(&self.text, text)
    }

    /// Its statements.
    pub fn list(&self) -> &Listing
        ensures { result.now ≡ library.statements_in self.now }
    {
        &self.list
    }

    /// The same file. It takes no memory; an `Err` comes only where it is shared more often than can be counted.
    pub fn share(&self) -> Result<MemberFile, OutOfMemory>
        ensures { IfOk result (λ f. f ≡ self.now) }
    {
        let text = self.text.clone()?;
        let list = self.list.share()?;
        Ok(MemberFile {
            path: self.path,
            text,
            list,
        })
    }
}

/// What a library answers to the name of a member.
#[derive(Drop)]
pub enum Member {
    /// There is none.
    Absent,

    /// It cannot be read.
    Unreadable,

    /// Its path and its text.
    File(MemberFile),
}

/// Members of which something was told. Contracts see the list of them, in the order in which they were told.
#[derive(Drop)]
pub struct Members {
    held: IndexMap<String, Member>,
}

impl Model for Members {
    ghost use Rattle.std.specs.Prelude.{List};
    ghost use Rattle.macro_library.specs.Members.{Told};
    ghost use Rattle.macro_library.specs.Held.{told_in};

    ghost Value = { List Told };

    ghost view = { λ s. told_in s.held };
}

impl Members {
    /// Nothing was told.
    pub fn new(alloc: Global) -> Members
        ensures { result ≡ [] }
    {
        Members {
            held: IndexMap::new(alloc),
        }
    }

    /// Takes in what was told of the member of a name. What was told of it before counts. An `Err` changes nothing.
    pub fn add(&mut self, alloc: Global, name: &Name, member: Member) -> Result<(), OutOfMemory>
        ensures { OnOk result (self.new ≡ library.with_member self.old name.now member) }
    {
        if self.get(name).is_some() {
            return Ok(());
        }
        let key = String::from_str(alloc, name.text())?;
        self.held.insert(key, member)?;
        Ok(())
    }

    /// What was told of the member of a name.
    pub fn get(&self, name: &Name) -> Option<&Member>
        ensures { option_copied result ≡ library.member_of self.now name.now }
    {
        self.held.get(name.text())
    }
}
