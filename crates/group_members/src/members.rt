//! The members of a group.
ghost use Rattle.std.specs.Prelude.{◌≡◌, None};
ghost use Rattle.std.specs.Option.{option_map};
ghost use Rattle.text_pool.specs.Members.{Tells};
ghost use Rattle.document_store.specs.Store.{present_at};
ghost use Rattle.group_members.specs.Members as members;

use crate::MemberIndex;
use document_store::{DocumentStore, MemberText};
use hl_base::{Answer, Name, PathId, Text};
use std::marker::Model;
use text_pool::{Present, TextPool};

/// The members of a group: a store, the index of its members, and the group's folders in the order in which they are
/// searched. Contracts see what the store holds, and the folders.
#[derive(Drop)]
pub struct GroupMembers<'a> {
    store: &'a DocumentStore,
    index: &'a MemberIndex,
    folders: &'a [Text],
}

impl<'a> Model for GroupMembers<'a> {
    ghost use Rattle.group_members.specs.Members.{Available, available_code, Indexes};

    ghost Value = { Available };

    ghost coded = { available_code };

    ghost view = { λ g. record { holdings = g.store.now; folders = g.folders.now } };

    ghost invariant = { λ g. Indexes g.store.now.store g.index.now };
}

/// What is present at the path of a number.
fn answer_at(store: &DocumentStore, path: PathId) -> Answer
    ensures { Tells store.now.pool (members.as_member path.0 (present_at store.now.store path.0)) result }
{
    match store.present(path) {
        Some(MemberText::File(text)) => Answer::File(path, text),
        Some(MemberText::Unreadable) => Answer::Unreadable,
        None => Answer::Nothing,
    }
}

impl<'a> GroupMembers<'a> {
    /// The members of a store in these folders, by an index of that store.
    pub fn new(
        store: &'a DocumentStore,
        index: &'a MemberIndex,
        folders: &'a [Text],
    ) -> GroupMembers<'a>
        requires { members.Indexes store.now.store index.now }
        ensures { result ≡ record { holdings = store.now; folders = folders.now } }
    {
        GroupMembers {
            store,
            index,
            folders,
        }
    }

    /// The number of the path of a member, in the first folder that has it.
    fn number(&self, name: &Name) -> Option<PathId>
        ensures { option_map (λ path. path.0) result ≡ members.first_number self.now.holdings.store self.now.folders name.now }
    {
        for folder in self.folders {
            let found = self.index.number(folder.as_str(), name);
            if found.is_some() {
                return found;
            }
        }
        None
    }
}

impl<'a> Present for GroupMembers<'a> {
    ghost use Rattle.group_members.specs.Members.{member_of};

    ghost members = { λ g name. member_of g.holdings.store g.folders name };

    ghost texts = { λ g. g.holdings.pool };

    fn member(&self, name: &Name) -> Answer {
        match self.number(name) {
            Some(path) => answer_at(self.store, path),
            None => Answer::Nothing,
        }
    }

    fn pool(&self) -> &TextPool {
        self.store.pool()
    }
}
