//! The texts that surround a program: its own, which is looked through once, when somebody looks ahead; and its members, each of
//! which is looked for once.
ghost use Rattle.std.specs.Prelude.{◌≡◌, IfOk};
ghost use Rattle.std.specs.Rc.{rc_str_bytes};
ghost use Rattle.std.specs.Str.{chars};
ghost use Rattle.hlasm_statements.specs.Statements.{statements_of};
ghost use Rattle.look_places.specs.Places.{look_behind};
ghost use Rattle.call_sites.specs.Values.{known_tree};
ghost use Rattle.program_world.specs.World.{member_tree};

use crate::puts::Puts;
use call_sites::macro_library::MemberFile;
use call_sites::{Known, KnownMember};
use hl_base::{Answer, Attr, Key, Name, OutOfMemory};
use kept_values::Kept;
use look_places::Foresight;
use std::alloc::Global;
use std::marker::Model;
use std::rc::RcStr;
use text_pool::Present;

/// What is present, and what was found there; the text of the program, and what was found ahead in it. Contracts see what is
/// present, and the text.
#[derive(Drop)]
pub(crate) struct Sources<'a, P: Present> {
    present: &'a P,
    found: Puts,
    text: RcStr,
    foresight: Option<Foresight>,
}

impl<'a, P: Present> Model for Sources<'a, P> {
    ghost use Rattle.std.specs.Rc.{rc_str_bytes};
    ghost use Rattle.std.specs.Str.{chars};
    ghost use Rattle.program_world.specs.Puts.{held_by};
    ghost use Rattle.program_world.specs.Found.{IsSound};
    ghost use Rattle.program_world.specs.Sourced.{Sourced};

    ghost Value = { Sourced P };

    ghost view = { λ m. record { present = m.present.now; text = chars (rc_str_bytes m.text) } };

    ghost invariant = { λ m. IsSound (P.members m.present.now) (chars (rc_str_bytes m.text)) (held_by m.found) m.foresight };
}

/// What is found under a name, as it is answered: the statements of a file are read.
fn look_for<P: Present>(alloc: Global, present: &P, name: &Name) -> Result<Known, OutOfMemory>
    ensures { IfOk result (λ v. known_tree v ≡ member_tree (P.members present.now name.now)) }
{
    match present.member(name) {
        Answer::File(path, text) => {
            let text = present.pool().shared(alloc, text)?;
            let file = MemberFile::of(alloc, path, text)?;
            Ok(Known::Member(KnownMember::of(alloc, file)?))
        }
        Answer::Unreadable => Ok(Known::Plain(Answer::Unreadable)),
        _ => Ok(Known::Plain(Answer::Nothing)),
    }
}

impl<'a, P: Present> Sources<'a, P> {
    /// Nothing was looked for yet.
    pub(crate) fn new(alloc: Global, text: RcStr, present: &'a P) -> Sources<'a, P>
        ensures { result ≡ record { present = present.now; text = chars (rc_str_bytes text) } }
    {
        Sources {
            present,
            found: Puts::new(alloc),
            text,
            foresight: None,
        }
    }

    /// What is found under a name, as it is answered. It is looked for only where it was not before.
    pub(crate) fn member(&mut self, alloc: Global, name: &Name) -> Result<Known, OutOfMemory>
        ensures value { IfOk result (λ v. known_tree v ≡ member_tree (P.members self.old.present name.now)) }
        ensures kept { self.new ≡ self.old }
    {
        let key = Key::Member(name.copy());
        if let Some(known) = self.found.get(&key) {
            return known.copy(alloc);
        }
        let known = look_for(alloc, self.present, name)?;
        self.found.put(alloc, key, known.copy(alloc)?)?;
        Ok(known)
    }

    /// What a name means that is looked for behind the statement that is processed at this place. The text is looked through at
    /// the first question.
    pub(crate) fn ahead(
        &mut self,
        alloc: Global,
        name: &Name,
        place: u32,
    ) -> Result<Option<Attr>, OutOfMemory>
        ensures value { IfOk result (λ found. found
            ≡ look_behind (P.members self.old.present) (statements_of self.old.text) name.now place) }
        ensures kept { self.new ≡ self.old }
    {
        if let Some(foresight) = &self.foresight {
            return Ok(foresight.find(name, place));
        }
        let foresight = Foresight::of(alloc, self.text.as_str(), self.present)?;
        let found = foresight.find(name, place);
        self.foresight = Some(foresight);
        Ok(found)
    }
}
