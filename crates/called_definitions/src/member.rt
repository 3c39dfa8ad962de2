//! Members as definitions are told of them.
ghost use Rattle.std.specs.Prelude.{◌≡◌, IfOk, OnOk};
ghost use Rattle.text_pool.specs.Members as found;
ghost use Rattle.text_pool.specs.Pool.{IsLive, text_of};
ghost use Rattle.called_definitions.specs.Readings.{told_as};
ghost use Rattle.called_definitions.specs.Told.{AreFound};

use hl_base::{Answer, Name, OutOfMemory, PathId, TextId};
use macro_library::{Member, MemberFile, Members};
use std::alloc::Global;
use text_pool::{Present, TextPool};

/// A file whose text has this number.
fn file_of(
    alloc: Global,
    pool: &TextPool,
    path: PathId,
    text: TextId,
) -> Result<Member, OutOfMemory>
    requires live { IsLive pool.now text.0 }
    ensures { IfOk result (λ member. member ≡ told_as (found.File path.0 (text_of pool.now text.0))) }
{
    let text = pool.shared(alloc, text)?;
    let file = MemberFile::of(alloc, path, text)?;
    Ok(Member::File(file))
}

/// What is found under a name.
fn member_of<P: Present>(alloc: Global, present: &P, name: &Name) -> Result<Member, OutOfMemory>
    ensures { IfOk result (λ member. member ≡ told_as (P.members present.now name.now)) }
{
    match present.member(name) {
        Answer::File(path, text) => file_of(alloc, present.pool(), path, text),
        Answer::Unreadable => Ok(Member::Unreadable),
        _ => Ok(Member::Absent),
    }
}

/// Tells what is found under a name.
pub(crate) fn tell<P: Present>(
    alloc: Global,
    present: &P,
    name: &Name,
    members: &mut Members,
) -> Result<(), OutOfMemory>
    requires { AreFound (P.members present.now) members.old }
    ensures { OnOk result (AreFound (P.members present.now) members.new) }
{
    let member = member_of(alloc, present, name)?;
    members.add(alloc, name, member)
}
