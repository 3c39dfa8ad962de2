//! The tables by their words.
use crate::definition_tables::{self, DefinitionTable};
use crate::{calls, evaluations, fields, statements, trees};
use case_lines::CaseTable;
use case_words::Surroundings;
use hl_base::OutOfMemory;
use operand_grammar::{parse_arith, parse_char, parse_logic, parse_ordinary};
use std::alloc::Global;

/// What a table's cases ask.
#[derive(Clone, Copy, Drop)]
pub enum Table {
    /// The trees of expressions.
    ArithmeticTrees,
    OrdinaryTrees,
    CharacterTrees,
    LogicalTrees,

    /// The values of expressions, and their notes.
    Numbers,
    Truths,
    Texts,
    NoteTexts,

    /// What a field declares.
    Declarations,

    /// The labels that AGO names.
    Branches,

    /// The pieces of a field.
    Templates,

    /// Where a field ends.
    FieldEnds,

    /// What an operation does with its fields.
    Operations,

    /// What a statement does.
    Effects,

    /// What a statement comes to as a macro call.
    Calls,

    /// What is told of macro definitions.
    OfDefinitions(DefinitionTable),
}

/// What is answered where the fields are not those of the table.
pub fn other_fields(alloc: Global) -> Result<String, OutOfMemory> {
    Ok(String::from_str(alloc, "of other fields than the table's")?)
}

/// What is answered to one text.
fn answer_of_text(alloc: Global, table: Table, text: &str) -> Result<String, OutOfMemory> {
    match table {
        Table::ArithmeticTrees => trees::answer(alloc, parse_arith(alloc, text)),
        Table::OrdinaryTrees => trees::answer(alloc, parse_ordinary(alloc, text)),
        Table::CharacterTrees => trees::answer(alloc, parse_char(alloc, text)),
        Table::LogicalTrees => trees::answer(alloc, parse_logic(alloc, text)),
        Table::Declarations => fields::declared(alloc, text),
        Table::Branches => fields::branches(alloc, text),
        Table::Templates => fields::pieces(alloc, text),
        Table::FieldEnds => fields::ending(alloc, text),
        _ => answer_among(alloc, table, &Surroundings::nothing(), text),
    }
}

/// What is answered to a text among what surrounds it.
fn answer_among(
    alloc: Global,
    table: Table,
    among: &Surroundings,
    text: &str,
) -> Result<String, OutOfMemory> {
    match table {
        Table::Numbers => evaluations::number(alloc, text, among),
        Table::Truths => evaluations::truth(alloc, text, among),
        Table::Texts => evaluations::text(alloc, text, among),
        Table::NoteTexts => evaluations::note_texts(alloc, text, among),
        Table::Effects => statements::first_effect(alloc, text, among),
        Table::Calls => calls::first_call(alloc, text, among),
        _ => other_fields(alloc),
    }
}

/// What is answered to a text among what is worded so.
fn answer_worded(
    alloc: Global,
    table: Table,
    words: &str,
    text: &str,
) -> Result<String, OutOfMemory> {
    match Surroundings::read(alloc, words)? {
        Some(among) => answer_among(alloc, table, &among, text),
        None => other_fields(alloc),
    }
}

/// What is answered to the fields of an operation among what is worded so.
fn answer_of_operation(
    alloc: Global,
    words: &str,
    operation: &str,
    label: &str,
    field: &str,
) -> Result<String, OutOfMemory> {
    match Surroundings::read(alloc, words)? {
        Some(among) => statements::done(alloc, &among, operation, label, field),
        None => other_fields(alloc),
    }
}

impl CaseTable for Table {
    fn named(word: &str) -> Option<Table> {
        match word {
            "arithmetic_trees" => Some(Table::ArithmeticTrees),
            "ordinary_trees" => Some(Table::OrdinaryTrees),
            "character_trees" => Some(Table::CharacterTrees),
            "logical_trees" => Some(Table::LogicalTrees),
            "numbers" => Some(Table::Numbers),
            "truths" => Some(Table::Truths),
            "texts" => Some(Table::Texts),
            "note_texts" => Some(Table::NoteTexts),
            "declarations" => Some(Table::Declarations),
            "branches" => Some(Table::Branches),
            "templates" => Some(Table::Templates),
            "field_ends" => Some(Table::FieldEnds),
            "operations" => Some(Table::Operations),
            "effects" => Some(Table::Effects),
            "calls" => Some(Table::Calls),
            _ => match definition_tables::named(word) {
                Some(table) => Some(Table::OfDefinitions(table)),
                None => None,
            },
        }
    }

    fn answer(&self, alloc: Global, fields: &[String]) -> Result<String, OutOfMemory> {
        match (*self, fields) {
            (Table::OfDefinitions(table), fields) => definition_tables::answer(
                alloc, table, fields,
            ),
            (Table::Operations, [words, operation, label, field]) => answer_of_operation(
                alloc,
                words.as_str(),
                operation.as_str(),
                label.as_str(),
                field.as_str(),
            ),
            (table, [words, text]) => answer_worded(alloc, table, words.as_str(), text.as_str()),
            (table, [text]) => answer_of_text(alloc, table, text.as_str()),
            _ => other_fields(alloc),
        }
    }
}
