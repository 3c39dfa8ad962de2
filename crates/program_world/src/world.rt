//! The world of a program.
ghost use Rattle.std.specs.Prelude.{◌≡◌, ◌%◌, IfOk, unwrap_or};
ghost use Rattle.std.specs.Rc.{rc_str_bytes};
ghost use Rattle.std.specs.Str.{chars};
ghost use Rattle.kept_values.specs.Keys.{key_tree};
ghost use Rattle.kept_values.specs.Answers.{answer_tree};
ghost use Rattle.asking_core.specs.Counters.{round};
ghost use Rattle.call_sites.specs.Values.{known_tree};
ghost use Rattle.call_sites.specs.Rules.{number_tree};
ghost use Rattle.program_world.specs.Puts.{held_by};
ghost use Rattle.program_world.specs.World.{program_world, first_world, meaning_tree, program_answer};

use crate::puts::Puts;
use crate::sources::Sources;
use asking_core::World;
use call_sites::Known;
use hl_base::{Answer, Attr, Key, OutOfMemory, Text};
use kept_values::Kept;
use std::alloc::Global;
use std::rc::RcStr;
use text_pool::Present;

/// What surrounds the open code of a program, and what is present for it. The counters of calls and of depth go round at 2^32.
#[derive(Drop)]
pub struct ProgramWorld<'a, P: Present> {
    pub(crate) puts: Puts,
    pub(crate) calls: u32,
    pub(crate) depth: u32,
    pub(crate) statement: u32,
    pub(crate) parm: Text,
    pub(crate) sources: Sources<'a, P>,
}

/// A counter as it is answered.
fn counted(bits: u32) -> Known
    ensures { known_tree result ≡ number_tree bits }
{
    Known::Plain(Answer::Number(bits.cast_signed()))
}

/// A counter as a number that goes round.
fn gone_round(number: u32) -> u32
    ensures { result ≡ number % 4294967296 }
{
    number
}

/// What a symbol means, as it is answered.
fn meaning(found: Option<Attr>) -> Known
    ensures { known_tree result ≡ meaning_tree found }
{
    match found {
        Some(attr) => Known::Plain(Answer::Meaning(attr)),
        None => Known::Plain(Answer::Nothing),
    }
}

/// What was put for a key, or else this.
fn put_or(alloc: Global, puts: &Puts, key: &Key, otherwise: Known) -> Result<Known, OutOfMemory>
    ensures { IfOk result (λ v. known_tree v ≡ unwrap_or (held_by puts.now (key_tree key.now)) (known_tree otherwise)) }
{
    match puts.get(key) {
        Some(value) => value.copy(alloc),
        None => Ok(otherwise),
    }
}

impl<'a, P: Present> ProgramWorld<'a, P> {
    ghost use Rattle.program_world.specs.States.{state_of};

    /// The world in which nothing is put and counted, of a program of this text, with this SYSPARM and these members.
    pub fn new(
        alloc: Global,
        text: RcStr,
        parm: &str,
        present: &'a P,
    ) -> Result<ProgramWorld<'a, P>, OutOfMemory>
        ensures { IfOk result (λ w. state_of P.members w ≡ first_world (chars (rc_str_bytes text)) (chars parm.now) (P.members present.now)) }
    {
        Ok(ProgramWorld {
            puts: Puts::new(alloc),
            calls: 0,
            depth: 0,
            statement: 0,
            parm: Text::of(alloc, parm)?,
            sources: Sources::new(alloc, text, present),
        })
    }

    /// What is answered to a key.
    fn answer(&mut self, alloc: Global, key: &Key) -> Result<Known, OutOfMemory>
        ensures value { IfOk result (λ v. known_tree v ≡ program_answer (state_of P.members self.old) (key_tree key.now)) }
        ensures kept { self.new ≡ self.old }
    {
        match key {
            Key::Global(_, _, _) | Key::Op(_) | Key::Sym(_) => {
                put_or(alloc, &self.puts, key, Known::Plain(Answer::Nothing))
            }
            Key::Member(name) => self.sources.member(alloc, name),
            Key::Look(name) => {
                let found = self.sources.ahead(alloc, name, self.statement)?;
                Ok(meaning(found))
            }
            Key::Sect => {
                let none = Known::Plain(Answer::Chars(Text::new(alloc)));
                put_or(alloc, &self.puts, key, none)
            }
            Key::Nest => Ok(counted(gone_round(self.depth))),
            Key::Parm => Ok(Known::Plain(Answer::Chars(self.parm.copy(alloc)?))),
            Key::Counter => Ok(counted(gone_round(self.calls))),
        }
    }
}

impl<'a, P: Present> World for ProgramWorld<'a, P> {
    ghost use Rattle.program_world.specs.States.{state_of};

    type Key = Key;

    type Value = Known;

    ghost model = { program_world };

    ghost state = { state_of P.members };

    fn ask(&mut self, alloc: Global, key: &Self::Key) -> Result<Self::Value, OutOfMemory> {
        self.answer(alloc, key)
    }

    fn put(
        &mut self,
        alloc: Global,
        key: Self::Key,
        value: Self::Value,
    ) -> Result<(), OutOfMemory> {
        self.puts.put(alloc, key, value)
    }

    fn bump(&mut self, calls: u32) {
        self.calls = self.calls.wrapping_add(calls);
    }

    fn enter(&mut self) {
        self.depth = self.depth.wrapping_add(1);
    }

    fn leave(&mut self) {
        self.depth = self.depth.wrapping_add(u32::MAX);
    }

    fn at(&mut self, statement: u32) {
        self.statement = statement;
    }
}
