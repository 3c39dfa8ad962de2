//! What the operands of a call mean to a prototype (SC26-4940, "Macro call operands").
ghost use Rattle.std.specs.Prelude.{◌≡◌, List, [], ◌∷◌, ◌++◌, IfOk, OnOk, if◌then◌else◌};
ghost use Rattle.std.specs.Str.{chars};
ghost use Rattle.std.specs.Option.{option_copied};
ghost use Rattle.macro_binding.specs.Bindings as bindings;
ghost use Rattle.macro_binding.specs.Bindings.{Given};
ghost use Rattle.macro_binding.specs.Prototypes as prototypes;
ghost use Rattle.macro_binding.specs.Sorting as sorting;
ghost use Rattle.macro_binding.specs.Sorting.{Sorts, given_by};

use crate::parameters::Parameters;
use crate::prototype::{Parted, Prototype, split_at_equals};
use crate::role::Role;
use crate::text::name_of;
use hl_base::{Frames, Name, Note, Notes, OutOfMemory, Text};
use indexmap::IndexMap;
use note_rows::{Row, note};
use operand_list::Operands;
use std::alloc::Global;
use std::marker::Model;
use std::rc::Rc;

/// The last value given to a keyword, and whether it was given others before.
#[derive(Drop)]
pub(crate) struct KeywordValue {
    pub value: Text,
    pub again: bool,
}

/// What a call means: its name entry, its positional operands, and the parameters with their values.
#[derive(Drop)]
pub struct Binding {
    pub(crate) prototype: Rc<Prototype>,
    pub(crate) name_entry: Text,
    pub(crate) positionals: Operands,
    pub(crate) keywords: IndexMap<String, KeywordValue>,
}

impl Model for Binding {
    ghost use Rattle.macro_binding.specs.Bindings.{Binding};
    ghost use Rattle.macro_binding.specs.Held.{binding_in};

    ghost Value = { Binding };

    ghost view = { λ b. binding_in b.prototype.value.parameters b.name_entry b.positionals b.keywords };
}

/// The operands of a call so far, as what they are, and the notes of them.
#[derive(Drop)]
struct Sorting {
    positionals: Operands,
    keywords: IndexMap<String, KeywordValue>,
    notes: Notes,
}

/// An operand that gives a keyword parameter a value.
#[derive(Drop)]
struct KeywordOperand<'a> {
    name: Name,
    value: &'a str,
}

/// Whether a keyword parameter has this name.
fn is_keyword(parameters: &Parameters, name: &Name) -> bool
    ensures { result ≡ bindings.is_keyword_role (prototypes.role_of parameters.now name.now) }
{
    match parameters.role(name) {
        Some(role) => matches!(role, Role::Keyword(_)),
        None => false,
    }
}

/// The keyword and the value that an operand gives it, where it does.
fn keyword_operand<'a>(parameters: &Parameters, text: &'a str) -> Option<KeywordOperand<'a>>
    ensures { given_by (chars text.now) result ≡ bindings.given parameters.now (chars text.now) }
{
    let Parted { before, behind } = split_at_equals(text)?;
    let name = name_of(before)?;
    if is_keyword(parameters, &name) {
        return Some(KeywordOperand {
            name,
            value: behind,
        });
    }
    None
}

/// The note that a keyword is given twice.
fn given_twice(alloc: Global, name: &Name) -> Result<Note, OutOfMemory>
    ensures { IfOk result (λ note. note ≡ bindings.given_twice name.now) }
{
    note(alloc, &Row::KeywordTwice(name.copy()), Frames::new(alloc))
}

/// Whether a keyword was given one value.
fn is_once(given: Option<&KeywordValue>) -> bool
    ensures { result ≡ sorting.is_once (option_copied given.entry) }
{
    match given {
        Some(given) => !given.again,
        None => false,
    }
}

/// Adds the note that a keyword is given twice, if it is.
fn note_if(alloc: Global, notes: &mut Notes, name: &Name, twice: bool) -> Result<(), OutOfMemory>
    ensures { OnOk result (notes.new ≡ notes.old ++ (if twice then bindings.given_twice name.now ∷ [] else [])) }
{
    if twice {
        notes.push(given_twice(alloc, name)?)?;
    }
    Ok(())
}

impl Sorting {
    fn new(alloc: Global) -> Sorting
        ensures { Sorts result [] }
    {
        Sorting {
            positionals: Operands::new(alloc),
            keywords: IndexMap::new(alloc),
            notes: Notes::new(alloc),
        }
    }

    /// Gives a keyword a value. What an `Err` leaves is of no use.
    fn give(&mut self, alloc: Global, name: &Name, value: &str) -> Result<(), OutOfMemory>
        ensures { OnOk result ((given : List Given) → Sorts self.old given → Sorts self.new (given ++ bindings.keyword name.now (chars value.now) ∷ [])) }
    {
        let given = self.keywords.get(name.text());
        let again = given.is_some();
        let second = is_once(given);
        note_if(alloc, &mut self.notes, name, second)?;
        let key = String::from_str(alloc, name.text())?;
        let value = Text::of(alloc, value)?;
        self.keywords.insert(key, KeywordValue { value, again })?;
        Ok(())
    }

    /// Takes the next operand. What an `Err` leaves is of no use.
    fn take(
        &mut self,
        alloc: Global,
        parameters: &Parameters,
        operand: &Text,
    ) -> Result<(), OutOfMemory>
        ensures { OnOk result ((given : List Given) → Sorts self.old given → Sorts self.new (given ++ bindings.given parameters.now operand.now ∷ [])) }
    {
        match keyword_operand(parameters, operand.as_str()) {
            Some(KeywordOperand { name, value }) => self.give(alloc, &name, value),
            None => self.positionals.push(operand.copy(alloc)?),
        }
    }
}

/// What a call with this name entry and these operands means to a prototype, and the notes that keywords are given twice.
/// The name entry and each operand are told with the values of their variable symbols.
pub fn bind(
    alloc: Global,
    prototype: &Rc<Prototype>,
    name_entry: &str,
    operands: &Operands,
) -> Result<(Binding, Notes), OutOfMemory>
    ensures binding { IfOk result (λ r. r.0 ≡ bindings.binding_of prototype.now.value.parameters (chars name_entry.now) operands.now) }
    ensures notes { IfOk result (λ r. r.1 ≡ bindings.binding_notes prototype.now.value.parameters operands.now) }
{
    let parameters = prototype.parameters();
    let mut sorting = Sorting::new(alloc);
    for operand in operands.as_slice() {
        sorting.take(alloc, parameters, operand)?;
    }
    let Sorting {
        positionals,
        keywords,
        notes,
    } = sorting;
    let binding = Binding {
        prototype: prototype.clone()?,
        name_entry: Text::of(alloc, name_entry)?,
        positionals,
        keywords,
    };
    Ok((binding, notes))
}
