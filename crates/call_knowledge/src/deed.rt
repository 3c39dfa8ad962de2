//! What a statement does with SET symbols.
ghost use Rattle.std.specs.Prelude.{◌≡◌, ◌++◌, List, [], ◌∷◌, IfOk, OnOk};
ghost use Rattle.hl_base.specs.declared.set.Declaration.{Declaration};
ghost use Rattle.call_knowledge.specs.declared.change.Change.TheVariants.{Nothing, Declare};
ghost use Rattle.call_knowledge.specs.Deeds as deeds;
ghost use Rattle.note_rows.specs.Table.{noted};
ghost use Rattle.note_rows.specs.declared.row.Row.TheVariants.{DeclaredTwice};

use crate::aim::kind_of;
use crate::knowledge::declare_in;
use crate::{Aim, Change, Knowledge};
use hl_base::{
    Answer, Declaration, Declarations, Frames, Key, Name, Note, Notes, OutOfMemory, SetValue,
};
use note_rows::{Row, note};
use set_symbols::SetTable;
use std::alloc::Global;
use trace_values::{Setting, Settings};

/// A key, and the answer that it gets.
#[derive(Drop)]
pub struct Put {
    pub key: Key,
    pub answer: Answer,
}

/// What a statement does with SET symbols: what changes of what its call knows, and of the world; which SET symbols get
/// values, and which are declared; and its notes, with an empty stack.
#[derive(Drop)]
pub struct Deed {
    pub change: Change,
    pub put: Option<Put>,
    pub locals: Settings,
    pub globals: Settings,
    pub declared: Declarations,
    pub notes: Notes,
}

/// Only this changes, and nothing is said.
fn only(alloc: Global, change: Change) -> Deed
    ensures { result ≡ deeds.only change }
{
    Deed {
        change,
        put: None,
        locals: Settings::new(alloc),
        globals: Settings::new(alloc),
        declared: Declarations::new(alloc),
        notes: Notes::new(alloc),
    }
}

/// What the declarations of a statement come to: the symbols that are declared, which make up a table too, and the notes of the others.
#[derive(Drop)]
struct Declaring {
    declared: Declarations,
    notes: Notes,
    earlier: SetTable,
}

/// What declarations do that come to this.
fn declared_by(alloc: Global, all: Declaring) -> Result<Deed, OutOfMemory>
    ensures { IfOk result (λ d. d ≡ record (deeds.only (Declare all.declared)) { declared = all.declared; notes = all.notes }) }
{
    let mut deed = only(alloc, Change::Declare(all.declared.copy(alloc)?));
    let Declaring {
        declared,
        notes,
        ..
    } = all;
    deed.declared = declared;
    deed.notes = notes;
    Ok(deed)
}

/// Nothing changes, and this is said.
fn refused(alloc: Global, row: Row) -> Result<Deed, OutOfMemory>
    ensures { IfOk result (λ d. d ≡ deeds.refused row) }
{
    let note = note(alloc, &row, Frames::new(alloc))?;
    let mut notes = Notes::new(alloc);
    notes.push(note)?;
    Ok(noted_only(alloc, notes))
}

/// Nothing changes, and these notes are made.
fn noted_only(alloc: Global, notes: Notes) -> Deed
    ensures { result ≡ record (deeds.only Nothing) { notes = notes } }
{
    let mut deed = only(alloc, Change::Nothing);
    deed.notes = notes;
    deed
}

/// The note of a name that is declared already.
fn repeated(alloc: Global, name: &Name) -> Result<Note, OutOfMemory>
    ensures { IfOk result (λ n. n ≡ noted (DeclaredTwice name.now) []) }
{
    note(alloc, &Row::DeclaredTwice(name.copy()), Frames::new(alloc))
}

/// A value as an answer.
fn answer_of(value: SetValue) -> Answer
    ensures { result ≡ deeds.answer_of value }
{
    match value {
        SetValue::A(number) => Answer::Number(number),
        SetValue::B(bit) => Answer::Bit(bit),
        SetValue::C(text) => Answer::Chars(text),
    }
}

/// A local SET symbol, or an element of one, gets a value.
fn set_local(
    alloc: Global,
    name: Name,
    element: Option<u32>,
    value: SetValue,
    at: u32,
) -> Result<Deed, OutOfMemory>
    ensures { IfOk result (λ d. d ≡ deeds.set_local name element value at) }
{
    let setting = Setting {
        name: name.copy(),
        element: at,
        value: value.copy(alloc)?,
    };
    let mut deed = only(alloc, Change::Hold(name, element, value));
    deed.locals.push(setting)?;
    Ok(deed)
}

/// A global SET symbol, or an element of one, gets a value.
fn set_global(alloc: Global, name: Name, value: SetValue, at: u32) -> Result<Deed, OutOfMemory>
    ensures { IfOk result (λ d. d ≡ deeds.set_global name value at) }
{
    let mut deed = only(alloc, Change::Nothing);
    deed.globals.push(Setting {
        name: name.copy(),
        element: at,
        value: value.copy(alloc)?,
    })?;
    deed.put = Some(Put {
        key: Key::Global(kind_of(&value), name, at),
        answer: answer_of(value),
    });
    Ok(deed)
}

/// ACTR: so many branches are left, none where the number is below 0.
pub fn counting(alloc: Global, number: i32) -> Deed
    ensures { result ≡ deeds.counting number }
{
    let branches = if number < 0 {
        0
    } else {
        number.cast_unsigned()
    };
    only(alloc, Change::Limit(branches))
}

impl Knowledge {
    /// SETx: a SET symbol, or an element of one, gets a value, or why it does not.
    pub fn setting(
        &self,
        alloc: Global,
        name: Name,
        element: Option<u32>,
        value: SetValue,
    ) -> Result<Deed, OutOfMemory>
        ensures { IfOk result (λ d. d ≡ deeds.setting self.now name element value) }
    {
        match self.aim(&name, element, kind_of(&value)) {
            Aim::OtherType => refused(alloc, Row::OtherType(name)),
            Aim::NoPlace => refused(alloc, Row::BadSubscript(name)),
            Aim::Local(at) => set_local(alloc, name, element, value, at),
            Aim::Global(at) => set_global(alloc, name, value, at),
        }
    }

    /// Whether a name means something, or an earlier declaration of the same statement has it.
    fn is_taken(&self, earlier: &SetTable, name: &Name) -> bool
        ensures { result ≡ deeds.is_taken self.now (deeds.names_of earlier.now) name.now }
    {
        self.is_known(name) || earlier.declared(name).is_some()
    }

    /// One declaration more of a statement: its symbol is declared, or it is noted where its name is taken.
    fn declare_next(
        &self,
        alloc: Global,
        d: &Declaration,
        all: &mut Declaring,
    ) -> Result<(), OutOfMemory>
        ensures declared { OnOk result ((rest : List Declaration)
            → all.old.declared ++ deeds.new_ones self.now (deeds.names_of all.old.earlier) (d.now ∷ rest)
            ≡ all.new.declared ++ deeds.new_ones self.now (deeds.names_of all.new.earlier) rest) }
        ensures notes { OnOk result ((rest : List Declaration)
            → all.old.notes ++ deeds.repeated self.now (deeds.names_of all.old.earlier) (d.now ∷ rest)
            ≡ all.new.notes ++ deeds.repeated self.now (deeds.names_of all.new.earlier) rest) }
    {
        if self.is_taken(&all.earlier, &d.name) {
            let note = repeated(alloc, &d.name)?;
            all.notes.push(note)?;
            return Ok(());
        }
        declare_in(&mut all.earlier, alloc, d)?;
        all.declared.push(d.copy())?;
        Ok(())
    }

    /// A declaration of SET symbols: those of names that mean nothing yet, each name once, and a note for each other one.
    pub fn declaring(&self, alloc: Global, list: &Declarations) -> Result<Deed, OutOfMemory>
        ensures { IfOk result (λ d. d ≡ deeds.declaring self.now list.now) }
    {
        let mut all = Declaring {
            declared: Declarations::new(alloc),
            notes: Notes::new(alloc),
            earlier: SetTable::new(alloc),
        };
        for d in list.as_slice() {
            self.declare_next(alloc, d, &mut all)?;
        }
        declared_by(alloc, all)
    }
}
