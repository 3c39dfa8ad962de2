//! The tables by their words.
use crate::{constants, definitions, expressions, labels, layouts, literals, numbers, statements};
use case_lines::CaseTable;
use hl_base::OutOfMemory;
use std::alloc::Global;

/// What a table's cases ask.
#[derive(Clone, Copy, Drop)]
pub enum Table {
    /// What an operand of DC or DS, or a literal, comes to.
    Constants,
    /// What the numbers of an operand come to, and what is said of its expressions.
    ConstantExpressions,
    /// What is said of expressions.
    ExpressionNotes,
    /// Which symbols there are behind definitions, and what is said of them.
    SymbolDefinitions,
    /// The literal in an operand of a machine instruction.
    Literals,
    /// What layout reads of a generated statement.
    LayoutStatements,
    /// The layout of generated statements.
    Layout,
    /// What is said of generated statements that are laid out and checked.
    StatementChecks,
    /// What a label means on an operation with its operands.
    Attributes,
    /// What an operation is to symbols.
    DefiningOperations,
}

/// What is answered where the fields are not those of the table.
fn other_fields(alloc: Global) -> Result<String, OutOfMemory> {
    Ok(String::from_str(alloc, "of other fields than the table's")?)
}

/// What is answered to one field.
fn answer_of_one(alloc: Global, table: Table, field: &str) -> Result<String, OutOfMemory> {
    match table {
        Table::SymbolDefinitions => definitions::after(alloc, field),
        Table::Literals => literals::literal(alloc, field),
        Table::StatementChecks => layouts::checked(alloc, field),
        Table::DefiningOperations => labels::definition(alloc, field),
        _ => other_fields(alloc),
    }
}

/// What is answered to two fields.
fn answer_of_two(
    alloc: Global,
    table: Table,
    first: &str,
    second: &str,
) -> Result<String, OutOfMemory> {
    match table {
        Table::Constants => constants::measured(alloc, first, second, "", ""),
        Table::Layout => layouts::laid_out(alloc, first, second),
        Table::Attributes => labels::meaning(alloc, first, second),
        _ => other_fields(alloc),
    }
}

/// What is answered to three fields.
fn answer_of_three(
    alloc: Global,
    table: Table,
    first: &str,
    second: &str,
    third: &str,
) -> Result<String, OutOfMemory> {
    match table {
        Table::ConstantExpressions => numbers::told_of(alloc, first, second, third),
        Table::ExpressionNotes => expressions::said(alloc, first, second, third),
        Table::LayoutStatements => statements::statement(alloc, first, second, third),
        _ => other_fields(alloc),
    }
}

/// What is answered to an operand of DC or DS, or to a literal, by what is told of its numbers.
fn answer_of_numbers(
    alloc: Global,
    table: Table,
    used: &str,
    operand: &str,
    factor: &str,
    length: &str,
) -> Result<String, OutOfMemory> {
    match table {
        Table::Constants => constants::measured(alloc, used, operand, factor, length),
        _ => other_fields(alloc),
    }
}

impl CaseTable for Table {
    fn named(word: &str) -> Option<Table> {
        match word {
            "constants" => Some(Table::Constants),
            "constant_expressions" => Some(Table::ConstantExpressions),
            "expression_notes" => Some(Table::ExpressionNotes),
            "symbol_definitions" => Some(Table::SymbolDefinitions),
            "literals" => Some(Table::Literals),
            "layout_statements" => Some(Table::LayoutStatements),
            "layout" => Some(Table::Layout),
            "statement_checks" => Some(Table::StatementChecks),
            "attributes" => Some(Table::Attributes),
            "defining_operations" => Some(Table::DefiningOperations),
            _ => None,
        }
    }

    fn answer(&self, alloc: Global, fields: &[String]) -> Result<String, OutOfMemory> {
        match fields {
            [field] => answer_of_one(alloc, *self, field.as_str()),
            [first, second] => answer_of_two(alloc, *self, first.as_str(), second.as_str()),
            [first, second, third] => answer_of_three(
                alloc,
                *self,
                first.as_str(),
                second.as_str(),
                third.as_str(),
            ),
            [used, operand, factor, length] => answer_of_numbers(
                alloc,
                *self,
                used.as_str(),
                operand.as_str(),
                factor.as_str(),
                length.as_str(),
            ),
            _ => other_fields(alloc),
        }
    }
}
