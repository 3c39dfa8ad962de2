//! What is said of names.
ghost use Rattle.std.specs.Prelude.{◌≡◌, ◌++◌, [], codes, find, unwrap_or, IfOk, string_bytes};
ghost use Rattle.std.specs.Fmt.{signed_decimal};
ghost use Rattle.std.specs.Option.{option_copied};
ghost use Rattle.std.specs.Str.{bytes_eq};
ghost use Rattle.symbol_answers.specs.Hover as hover;

use document_store::DocumentStore;
use hl_base::{Attr, Name, OutOfMemory, PathId, SetKind};
use member_paths::{file_name_of, member_name};
use std::alloc::Global;
use text_sites::path_text;
use trace_values::{Entity, Occurrence, Reloc, Role, Scope, Section, SectionId, SymbolRow};

fn kind_word(kind: SetKind) -> &'static str
    ensures { result.now ≡ hover.kind_word kind }
{
    match kind {
        SetKind::A => "arithmetic",
        SetKind::B => "boolean",
        SetKind::C => "character",
    }
}

/// What a variable symbol is that is no global.
fn role_text(alloc: Global, role: Role) -> Result<String, OutOfMemory>
    ensures { IfOk result (λ text. string_bytes text ≡ hover.role_text role) }
{
    match role {
        Role::Plain => Ok(String::new(alloc)),
        Role::Parameter => Ok(String::from_str(alloc, ": parameter")?),
        Role::Local(kind) => {
            let word = kind_word(kind);
            Ok(format!(in alloc; ": local {word}")?)
        }
        Role::System => Ok(String::from_str(alloc, ": system variable")?),
    }
}

/// What a variable symbol is.
fn scope_text(alloc: Global, scope: Scope, role: Role) -> Result<String, OutOfMemory>
    ensures { IfOk result (λ text. string_bytes text ≡ hover.scope_text scope role) }
{
    match scope {
        Scope::Program => role_text(alloc, role),
        Scope::Definition(_) => role_text(alloc, role),
        Scope::Global(kind) => {
            let word = kind_word(kind);
            Ok(format!(in alloc; ": global {word}")?)
        }
    }
}

/// A number in decimal, with a minus sign below 0.
fn decimal(alloc: Global, number: i32) -> Result<String, OutOfMemory>
    ensures { IfOk result (λ text. string_bytes text ≡ signed_decimal number) }
{
    Ok(format!(in alloc; "{number}")?)
}

/// Length and type of a symbol.
fn attributes_text(alloc: Global, attr: Attr) -> Result<String, OutOfMemory>
    ensures { IfOk result (λ text. string_bytes text ≡ hover.attributes_text attr) }
{
    let length = attr.length;
    let letter = char::from(attr.letter);
    Ok(format!(in alloc; ", length {length}, type {letter}")?)
}

/// The name of a section.
fn section_name(section: &Section) -> &str
    ensures { result.now ≡ hover.section_name section.now }
{
    match &section.name {
        Some(name) => name.text(),
        None => "(unnamed)",
    }
}

/// Where an offset lies.
fn offset_text(
    alloc: Global,
    attr: Attr,
    value: i32,
    section: Option<&Section>,
) -> Result<String, OutOfMemory>
    ensures { IfOk result (λ text. string_bytes text ≡ hover.offset_text attr value (option_copied section.entry)) }
{
    match section {
        Some(section) => {
            let offset = decimal(alloc, value)?;
            let name = section_name(section);
            let rest = attributes_text(alloc, attr)?;
            Ok(format!(in alloc; ": offset {offset} in {name}{rest}")?)
        }
        None => Ok(String::from_str(alloc, ": external")?),
    }
}

/// A number, and length and type of its symbol.
fn absolute_text(alloc: Global, attr: Attr, value: i32) -> Result<String, OutOfMemory>
    ensures { IfOk result (λ text. string_bytes text ≡ codes ": absolute " ++ (signed_decimal value ++ hover.attributes_text attr)) }
{
    let number = decimal(alloc, value)?;
    let rest = attributes_text(alloc, attr)?;
    Ok(format!(in alloc; ": absolute {number}{rest}")?)
}

/// A value: an offset in the section of its number, or a number.
fn place_text(
    alloc: Global,
    sections: &[Section],
    attr: Attr,
    value: i32,
    section: Option<SectionId>,
) -> Result<String, OutOfMemory>
    ensures { IfOk result (λ text. string_bytes text ≡ hover.place_text sections.now attr value section) }
{
    match section {
        Some(id) => offset_text(alloc, attr, value, sections.get(id.0 as usize)),
        None => absolute_text(alloc, attr, value),
    }
}

/// What is known of a value.
fn value_text(
    alloc: Global,
    sections: &[Section],
    attr: Attr,
    value: Option<Reloc>,
) -> Result<String, OutOfMemory>
    ensures { IfOk result (λ text. string_bytes text ≡ hover.value_text sections.now attr value) }
{
    match value {
        Some(value) => place_text(alloc, sections, attr, value.value, value.section),
        None => Ok(String::from_str(alloc, ": no value")?),
    }
}

/// What is said of a symbol of a name, if it was defined.
fn row_of<'a>(rows: &'a [SymbolRow], name: &Name) -> Option<&'a SymbolRow>
    ensures { option_copied result ≡ find (λ row. bytes_eq row.name name.now) rows.now }
{
    rows.iter().find(|row| row.name.text() == name.text())
}

/// What a symbol of a name is.
fn symbol_text(
    alloc: Global,
    rows: &[SymbolRow],
    sections: &[Section],
    name: &Name,
) -> Result<String, OutOfMemory>
    ensures { IfOk result (λ text. string_bytes text ≡ hover.symbol_text rows.now sections.now name.now) }
{
    match row_of(rows, name) {
        Some(row) => value_text(alloc, sections, row.attr, row.value),
        None => Ok(String::from_str(alloc, ": no value")?),
    }
}

/// A name, and what it is.
fn named(alloc: Global, sign: &str, name: &Name, text: &str) -> Result<String, OutOfMemory>
    ensures { IfOk result (λ all. string_bytes all ≡ sign.now ++ (name.now ++ text.now)) }
{
    let name = name.text();
    Ok(format!(in alloc; "{sign}{name}{text}")?)
}

/// The name of the member that the file of the path of a number is.
fn member_of(store: &DocumentStore, path: PathId) -> Option<Name>
    ensures { unwrap_or result [] ≡ hover.member_text store.now.store path.0 }
{
    match path_text(store, path) {
        Some(text) => member_name(file_name_of(text)),
        None => None,
    }
}

/// A member, by the path of its file.
fn member_text(alloc: Global, store: &DocumentStore, path: PathId) -> Result<String, OutOfMemory>
    ensures { IfOk result (λ text. string_bytes text ≡ codes "member " ++ hover.member_text store.now.store path.0) }
{
    match member_of(store, path) {
        Some(name) => named(alloc, "member ", &name, ""),
        None => Ok(String::from_str(alloc, "member ")?),
    }
}

/// What is said of an occurrence.
pub(crate) fn hover_text(
    alloc: Global,
    rows: &[SymbolRow],
    sections: &[Section],
    store: &DocumentStore,
    one: &Occurrence,
) -> Result<String, OutOfMemory>
    ensures { IfOk result (λ text. string_bytes text ≡ hover.hover_text rows.now sections.now store.now.store one.now) }
{
    match &one.entity {
        Entity::Symbol(name) => {
            let text = symbol_text(alloc, rows, sections, name)?;
            named(alloc, "", name, text.as_str())
        }
        Entity::Variable(scope, name) => {
            let text = scope_text(alloc, *scope, one.role)?;
            named(alloc, "&", name, text.as_str())
        }
        Entity::Sequence(_, name) => named(alloc, ".", name, ": sequence symbol"),
        Entity::Macro(_, name) => named(alloc, "macro ", name, ""),
        Entity::Member(path) => member_text(alloc, store, *path),
    }
}
