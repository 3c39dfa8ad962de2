//! What is answered to a key.
ghost use Rattle.std.specs.Prelude.{◌≡◌, ◌↔◌, [], IfOk, IfSome, IsTrue, Ok};
ghost use Rattle.hl_base.specs.declared.set.Answer.TheVariants.{Defined, Nothing};
ghost use Rattle.kept_values.specs.Answers.{answer_tree};
ghost use Rattle.macro_library.specs.Contents.{content_of};
ghost use Rattle.macro_library.specs.Definitions.{definition_of};
ghost use Rattle.macro_library.specs.Members.{statements_in};
ghost use Rattle.call_sites.specs.Values.{definition_known, known_tree, member_known};

use crate::own_definition::OwnDefinition;
use hl_base::{Answer, OutOfMemory};
use kept_values::Kept;
use macro_library::{KeptDefinition, MemberFile};
use std::alloc::Global;
use std::marker::Model;
use std::rc::Rc;

/// The macro that an operation is. Contracts see what its definition says.
#[derive(Drop)]
pub struct KnownMacro {
    definition: KeptDefinition,
    /// What expressions are told of it.
    answer: Answer,
}

impl Model for KnownMacro {
    ghost use Rattle.std.specs.Prelude.{◌≡◌};
    ghost use Rattle.hl_base.specs.declared.set.Answer.TheVariants.{Defined};
    ghost use Rattle.macro_library.specs.Contents.{Content, content_of};

    ghost Value = { Content };

    ghost view = { λ m. content_of m.definition.definition.value };

    ghost invariant = { λ m. m.answer ≡ Defined };
}

impl KnownMacro {
    /// The macro of this definition.
    pub fn of(definition: KeptDefinition) -> KnownMacro
        ensures { result ≡ content_of definition.definition.value }
    {
        KnownMacro {
            definition,
            answer: Answer::Defined,
        }
    }

    /// Its definition.
    pub fn definition(&self) -> &KeptDefinition
        ensures { content_of result.now.definition.value ≡ self.now }
    {
        &self.definition
    }

    /// What expressions are told of it: that there is one.
    fn answer(&self) -> &Answer
        ensures { result.now ≡ Defined }
    {
        &self.answer
    }
}

/// What is known of a member of a library.
#[derive(Drop)]
struct MemberKnowledge {
    file: MemberFile,
    /// The definition that it has, so that it is read once and not at each call.
    own: Option<OwnDefinition>,
    /// What expressions are told of it.
    answer: Answer,
}

/// A member of a library. Contracts see its file. All that is known of it is shared, so it is small and takes no memory when it is copied.
#[derive(Drop)]
pub struct KnownMember {
    shared: Rc<MemberKnowledge>,
}

impl Model for KnownMember {
    ghost use Rattle.std.specs.Prelude.{◌≡◌};
    ghost use Rattle.hl_base.specs.declared.set.Answer.TheVariants.{Nothing};
    ghost use Rattle.macro_library.specs.Files.{File};
    ghost use Rattle.macro_library.specs.Members.{statements_in};
    ghost use Rattle.call_sites.specs.Owned.{IsOwn};

    ghost Value = { File };

    ghost view = { λ m. m.shared.value.file };

    ghost invariant = { λ m. (m.shared.value.answer ≡ Nothing) × IsOwn (statements_in m.shared.value.file) m.shared.value.own };
}

impl KnownMember {
    /// The member with this file.
    pub fn of(alloc: Global, file: MemberFile) -> Result<KnownMember, OutOfMemory>
        ensures { IfOk result (λ m. m ≡ file) }
    {
        let own = OwnDefinition::of(alloc, file.list())?;
        let knowledge = MemberKnowledge {
            file,
            own,
            answer: Answer::Nothing,
        };
        Ok(KnownMember {
            shared: Rc::new(alloc, knowledge)?,
        })
    }

    /// The same member. It takes no memory; an `Err` comes only where it is shared more often than can be counted.
    fn share(&self) -> Result<KnownMember, OutOfMemory>
        ensures { IfOk result (λ m. m ≡ self.now) }
    {
        Ok(KnownMember {
            shared: self.shared.clone()?,
        })
    }

    /// The definition that begins at the MACRO of this number in its list, where it is kept: it copies nothing then.
    pub fn definition_at(&self, start: u32) -> Option<&KeptDefinition>
        ensures { IfSome result (λ kept. definition_of [] (statements_in self.now) start ≡ Ok kept.now.definition.value) }
    {
        match &self.shared.own {
            Some(own) => own.at(start),
            None => None,
        }
    }

    /// Its file.
    pub fn file(&self) -> &MemberFile
        ensures { result.now ≡ self.now }
    {
        &self.shared.file
    }

    /// What expressions are told of it: nothing.
    fn answer(&self) -> &Answer
        ensures { result.now ≡ Nothing }
    {
        &self.shared.answer
    }
}

/// What is answered to a key, or put there: what expressions read; the macro that an operation is; or a member.
#[derive(Drop)]
pub enum Known {
    Plain(Answer),
    Macro(KnownMacro),
    Member(KnownMember),
}

impl Known {
    ghost use Rattle.call_sites.specs.Values.{told_of};

    /// What expressions are told.
    pub fn answer(&self) -> &Answer
        ensures { result.now ≡ told_of self.now }
    {
        match self {
            Known::Plain(answer) => answer,
            Known::Macro(known) => known.answer(),
            Known::Member(known) => known.answer(),
        }
    }
}

/// Whether something known is this answer.
fn is_plain(known: &Known, answer: &Answer) -> bool
    ensures { IsTrue result ↔ (known_tree known.now ≡ answer_tree answer.now) }
{
    match known {
        Known::Plain(its_answer) => its_answer.same(answer),
        Known::Macro(_) | Known::Member(_) => false,
    }
}

/// Whether something known is this macro.
fn is_macro(known: &Known, one: &KnownMacro) -> bool
    ensures { IsTrue result ↔ (known_tree known.now ≡ definition_known one.now) }
{
    match known {
        Known::Macro(other) => other.definition.same(&one.definition),
        Known::Plain(_) | Known::Member(_) => false,
    }
}

/// Whether two files have one path and one text.
fn same_file(one: &MemberFile, other: &MemberFile) -> bool
    ensures { IsTrue result ↔ (one.now ≡ other.now) }
{
    if one.path().0 != other.path().0 {
        return false;
    }
    one.text() == other.text()
}

/// Whether something known is this member.
#[tactic(auto, using(crate::proofs::KnownLaws::files_same))]
fn is_member(known: &Known, one: &KnownMember) -> bool
    ensures { IsTrue result ↔ (known_tree known.now ≡ member_known one.now) }
{
    match known {
        Known::Member(other) => same_file(other.file(), one.file()),
        Known::Plain(_) | Known::Macro(_) => false,
    }
}

impl Kept for Known {
    ghost use Rattle.call_sites.specs.Values.{known_tree, known_number};

    ghost code = { known_tree };

    ghost number_of = { known_number };

    fn same(&self, other: &Self) -> bool {
        match self {
            Known::Plain(answer) => is_plain(other, answer),
            Known::Macro(known) => is_macro(other, known),
            Known::Member(known) => is_member(other, known),
        }
    }

    fn number(&self) -> u64 {
        match self {
            Known::Plain(answer) => answer.number(),
            Known::Macro(known) => known.definition.number(),
            Known::Member(known) => u64::from(known.file().path().0),
        }
    }

    fn copy(&self, alloc: Global) -> Result<Self, OutOfMemory> {
        match self {
            Known::Plain(answer) => Ok(Known::Plain(Answer::copy(answer, alloc)?)),
            Known::Macro(known) => {
                let definition = known.definition.copy(alloc)?;
                Ok(Known::Macro(KnownMacro::of(definition)))
            }
            Known::Member(known) => Ok(Known::Member(known.share()?)),
        }
    }
}
