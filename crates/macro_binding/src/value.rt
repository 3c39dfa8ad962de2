//! What variable symbols are worth in a call (SC26-4940, "Sublists in operands", "&SYSLIST system variable symbol").
ghost use Rattle.std.specs.Prelude.{◌≡◌, IfOk, option_map, slice_get, slice_index_or, []};
ghost use Rattle.std.specs.Str.{chars};
ghost use Rattle.indexmap.specs.IndexMap.{get_by_text};
ghost use Rattle.macro_binding.specs.Held.{value_or, value_held, value_in, text_seen};
ghost use Rattle.macro_binding.specs.Lent.{bound_seen};
ghost use Rattle.macro_binding.specs.Values as values;

use crate::binding::{Binding, KeywordValue};
use crate::parameters::Parameter;
use crate::role::Role;
use hl_base::{Name, OutOfMemory, Text};
use indexmap::IndexMap;
use operand_list::{Operands, split_sublist};
use std::alloc::Global;

/// How many elements of a sublist, and operands of a call, can be named.
const LAST_ELEMENT: i32 = 4096;

/// What a variable symbol is worth: its text, or none, since a subscript of it is out of range.
#[derive(Drop)]
pub enum Worth {
    Text(Text),
    OutOfRange,
}

/// The place of an element, from 0, by its subscript.
fn place_of(subscript: i32) -> Option<usize>
    ensures { result ≡ values.place_of subscript }
{
    if subscript < 1 || subscript > LAST_ELEMENT {
        return None;
    }
    Some((subscript - 1) as usize)
}

/// The number of an operand of a call by its subscript; that of the name entry is 0.
fn number_of(subscript: i32) -> Option<usize>
    ensures { result ≡ values.number_of subscript }
{
    if subscript < 0 || subscript > LAST_ELEMENT {
        return None;
    }
    Some(subscript as usize)
}

/// The text at a place of a list; it is empty past the last one.
fn text_at(texts: &Operands, place: usize) -> &str
    ensures { chars result.now ≡ slice_index_or texts.now place [] }
{
    match texts.as_slice().get(place) {
        Some(text) => text.as_str(),
        None => "",
    }
}

/// The element at a place of a value.
fn element(alloc: Global, value: &str, place: usize) -> Result<Text, OutOfMemory>
    ensures { IfOk result (λ text. text ≡ values.element (chars value.now) place) }
{
    match split_sublist(alloc, value)? {
        Some(elements) => Text::of(alloc, text_at(&elements, place)),
        None => {
            if place == 0 {
                return Text::of(alloc, value);
            }
            Ok(Text::new(alloc))
        }
    }
}

/// A value with these subscripts.
fn subscripted(alloc: Global, text: &str, subscripts: &[i32]) -> Result<Worth, OutOfMemory>
    ensures { IfOk result (λ worth. worth ≡ values.subscripted (chars text.now) subscripts.now) }
{
    let mut value = Text::of(alloc, text)?;
    for subscript in subscripts {
        match place_of(*subscript) {
            Some(place) => value = element(alloc, value.as_str(), place)?,
            None => return Ok(Worth::OutOfRange),
        }
    }
    Ok(Worth::Text(value))
}

/// The value given to a keyword, or its default.
fn keyword_value<'a>(
    keywords: &'a IndexMap<String, KeywordValue>,
    name: &str,
    default: &'a Text,
) -> &'a str
    ensures { chars result.now ≡ value_or default.now (get_by_text keywords.now name.now) }
{
    match keywords.get(name) {
        Some(given) => given.value.as_str(),
        None => default.as_str(),
    }
}

/// The parts of a binding.
#[derive(Clone, Copy)]
struct Parts<'a> {
    name_entry: &'a Text,
    positionals: &'a Operands,
    keywords: &'a IndexMap<String, KeywordValue>,
}

/// A parameter of a call: its name, upper-cased, and its value.
#[derive(Clone, Copy)]
pub struct Bound<'a> {
    pub name: &'a str,
    pub value: &'a str,
}

/// What a parameter of this name is worth by what it stands for.
fn worth_of<'a>(binding: Parts<'a>, name: &str, role: &'a Role) -> &'a str
    ensures { chars result.now ≡ value_held binding.entry.name_entry.now binding.entry.positionals.now binding.entry.keywords.now name.now role.entry.now }
{
    match role {
        Role::NameEntry => binding.name_entry.as_str(),
        Role::Positional(place) => text_at(binding.positionals, *place as usize),
        Role::Keyword(default) => keyword_value(binding.keywords, name, default),
    }
}

impl Binding {
    ghost use Rattle.std.specs.Prelude.{◌≡◌, length};

    /// How many positional operands the call has.
    pub fn positional_count(&self) -> usize
        ensures { result ≡ length self.now.positionals }
    {
        self.positionals.as_slice().len()
    }

    /// The value of the parameter of a name, if there is one.
    pub fn parameter(&self, name: &Name) -> Option<&str>
        ensures { option_map text_seen result ≡ option_map value_in (values.bound_of self.now.parameters name.now) }
    {
        let parts = Parts {
            name_entry: &self.name_entry,
            positionals: &self.positionals,
            keywords: &self.keywords,
        };
        match self.prototype.parameters().role(name) {
            Some(role) => Some(worth_of(parts, name.text(), role)),
            None => None,
        }
    }

    /// The parameter at a place, from 0, in the order of the prototype.
    pub fn at(&self, place: usize) -> Option<Bound<'_>>
        ensures { option_map bound_seen result ≡ slice_get self.now.parameters place }
    {
        let parts = Parts {
            name_entry: &self.name_entry,
            positionals: &self.positionals,
            keywords: &self.keywords,
        };
        match self.prototype.parameters().at(place) {
            Some(Parameter { name, role }) => Some(Bound {
                name,
                value: worth_of(parts, name, role),
            }),
            None => None,
        }
    }

    /// The name entry, or a positional operand, by its number.
    fn operand(&self, number: usize) -> &str
        ensures { chars result.now ≡ values.operand self.now number }
    {
        if number == 0 {
            return self.name_entry.as_str();
        }
        text_at(&self.positionals, number - 1)
    }

    /// `&SYSLIST` with these subscripts.
    fn listed(&self, alloc: Global, subscripts: &[i32]) -> Result<Worth, OutOfMemory>
        ensures { IfOk result (λ worth. worth ≡ values.listed self.now subscripts.now) }
    {
        let Some((first, rest)) = subscripts.split_first() else {
            return Ok(Worth::OutOfRange);
        };
        match number_of(*first) {
            Some(number) => subscripted(alloc, self.operand(number), rest),
            None => Ok(Worth::OutOfRange),
        }
    }

    /// What a variable symbol with these subscripts is worth in the call; `None` where it is neither a parameter nor
    /// `&SYSLIST`.
    pub fn value(
        &self,
        alloc: Global,
        name: &Name,
        subscripts: &[i32],
    ) -> Result<Option<Worth>, OutOfMemory>
        ensures { IfOk result (λ worth. worth ≡ values.value_of self.now name.now subscripts.now) }
    {
        if name.text() == "SYSLIST" {
            return Ok(Some(self.listed(alloc, subscripts)?));
        }
        match self.parameter(name) {
            Some(value) => Ok(Some(subscripted(alloc, value, subscripts)?)),
            None => Ok(None),
        }
    }
}
