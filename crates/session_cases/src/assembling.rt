//! The trace of a program of a store.
ghost use Rattle.std.specs.Prelude.{◌≡◌};
ghost use Rattle.text_pool.specs.Pool.{IsLive};

use debug_sessions::Launched;
use document_store::{DocumentStore, MemberText};
use group_members::{GroupMembers, MemberIndex};
use hl_base::{Ledger, OutOfMemory, PathId, Steps, Text, TextId};
use program_launch::launch;
use std::alloc::Global;
use std::marker::Brand;
use std::sync::ledger::Blank;

/// How many statements a program may be given.
const BUDGET: u32 = 100_000;

/// The folder of all members.
const LIBRARY: &str = "/w/lib";

/// The trace of a program of a path and a text of the store.
fn trace<L: Ledger>(
    alloc: Global,
    store: &DocumentStore,
    path: PathId,
    text: TextId,
    blank: Blank,
) -> Result<Launched, OutOfMemory>
    requires live { IsLive store.now.pool text.0 }
    requires name { blank.name ≡ L.name }
    requires parts { blank.parts ≡ L.parts }
    requires one { blank.parts ≡ 1 }
{
    let mut folders = Vec::new(alloc);
    folders.push(Text::of(alloc, LIBRARY)?)?;
    let index = MemberIndex::of(alloc, store)?;
    let members = GroupMembers::new(store, &index, folders.as_slice());
    let mut steps = Steps::<L>::open(blank);
    launch(alloc, path, text, "", &members, BUDGET, &mut steps)
}

/// The trace of the program that is open at a path, if there is one.
pub fn launched(
    alloc: Global,
    store: &DocumentStore,
    path: &str,
) -> Result<Option<Launched>, OutOfMemory> {
    let Some(number) = store.path_id(path) else {
        return Ok(None);
    };
    if store.document_at(number).is_none() {
        return Ok(None);
    }
    let Some(MemberText::File(text)) = store.present(number) else {
        return Ok(None);
    };
    let launched = trace::<Brand>(alloc, store, number, text, Blank::new(1))?;
    Ok(Some(launched))
}
