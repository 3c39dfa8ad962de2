//! The tables of macro definitions by their words.
use crate::tables::other_fields;
use crate::{bindings, comparisons, definitions};
use hl_base::OutOfMemory;
use std::alloc::Global;

/// What the cases of a table of definitions ask.
#[derive(Clone, Copy, Drop)]
pub enum DefinitionTable {
    /// What a statement is as a prototype.
    Prototypes,

    /// What a call means to a prototype.
    Bindings,

    /// What a variable symbol is worth in a call.
    ParameterValues,

    /// What begins at a MACRO.
    Definitions,

    /// Whether a member defines an operation.
    DefiningMembers,

    /// Whether two definitions are the same.
    Comparisons,
}

/// What is answered to a prototype and a call.
fn answer_to_call(
    alloc: Global,
    table: DefinitionTable,
    prototype: &str,
    call: &[String],
) -> Result<String, OutOfMemory> {
    match (table, call) {
        (DefinitionTable::Bindings, [entry, operands]) => {
            bindings::bindings(alloc, prototype, entry.as_str(), operands.as_str())
        }
        (DefinitionTable::ParameterValues, [entry, operands, symbol]) => bindings::values(
            alloc,
            prototype,
            entry.as_str(),
            operands.as_str(),
            symbol.as_str(),
        ),
        _ => other_fields(alloc),
    }
}

/// What is answered to the text of a member and an operation.
fn answer_to_member(alloc: Global, written: &str, rest: &[String]) -> Result<String, OutOfMemory> {
    match rest {
        [operation] => definitions::defining(alloc, written, operation.as_str()),
        _ => other_fields(alloc),
    }
}

/// The table of a word.
pub fn named(word: &str) -> Option<DefinitionTable> {
    match word {
        "prototypes" => Some(DefinitionTable::Prototypes),
        "bindings" => Some(DefinitionTable::Bindings),
        "parameter_values" => Some(DefinitionTable::ParameterValues),
        "definitions" => Some(DefinitionTable::Definitions),
        "defining_members" => Some(DefinitionTable::DefiningMembers),
        "comparisons" => Some(DefinitionTable::Comparisons),
        _ => None,
    }
}

/// What is answered to the fields of a case.
pub fn answer(
    alloc: Global,
    table: DefinitionTable,
    fields: &[String],
) -> Result<String, OutOfMemory> {
    let Some((text, rest)) = fields.split_first() else {
        return other_fields(alloc);
    };
    match table {
        DefinitionTable::Prototypes => bindings::prototypes(alloc, text.as_str()),
        DefinitionTable::Bindings | DefinitionTable::ParameterValues => {
            answer_to_call(alloc, table, text.as_str(), rest)
        }
        DefinitionTable::Definitions => definitions::definitions(alloc, text.as_str(), rest),
        DefinitionTable::DefiningMembers => answer_to_member(alloc, text.as_str(), rest),
        DefinitionTable::Comparisons => comparisons::comparisons(alloc, fields),
    }
}
