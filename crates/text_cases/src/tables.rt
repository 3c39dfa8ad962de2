//! The tables by their words.
use crate::{changes, frames, machine_operands, operations, places, scripts, statements};
use case_lines::CaseTable;
use hl_base::OutOfMemory;
use std::alloc::Global;

/// What a table's cases ask.
#[derive(Clone, Copy, Drop)]
pub enum Table {
    /// Bytes of a stream, in any pieces.
    Frames,

    /// Pieces of a stream, one after another.
    Pieces,

    /// Bodies, written as frames.
    Written,

    /// The statements of a text.
    Statements,

    /// The fields of the statements of a text.
    Fields,

    /// Where a character of a field stands.
    Places,

    /// Changes of a text.
    Changes,

    /// Columns of positions.
    Columns,

    /// Positions of columns.
    Positions,

    /// Calls of a store of documents.
    Store,

    /// What a name means as an operation.
    Operations,

    /// How many operands a machine instruction may have.
    OperandCounts,

    /// What the operands of machine instructions may be.
    OperandValues,
}

/// What is answered where the fields are not those of the table.
fn other_fields(alloc: Global) -> Result<String, OutOfMemory> {
    Ok(String::from_str(alloc, "of other fields than the table's")?)
}

/// What is answered to one text.
fn answer_of_text(alloc: Global, table: Table, text: &str) -> Result<String, OutOfMemory> {
    match table {
        Table::Frames => frames::read(alloc, text.as_bytes()),
        Table::Statements => statements::shapes(alloc, text),
        Table::Fields => statements::fields(alloc, text),
        Table::Operations => operations::meaning(alloc, text),
        Table::OperandCounts => machine_operands::counts(alloc, text),
        _ => other_fields(alloc),
    }
}

/// What is answered to a text and a place in it.
fn answer_of_place(
    alloc: Global,
    table: Table,
    text: &str,
    place: &str,
) -> Result<String, OutOfMemory> {
    match table {
        Table::Places => statements::place(alloc, text, place),
        Table::Columns => places::column_of(alloc, text, place),
        Table::Positions => places::position_of(alloc, text, place),
        _ => other_fields(alloc),
    }
}

/// What is answered to the value of an operand.
fn answer_of_value(alloc: Global, fields: &[String]) -> Result<String, OutOfMemory> {
    match fields {
        [word, place, value] => {
            machine_operands::value(alloc, word.as_str(), place.as_str(), value.as_str())
        }
        _ => other_fields(alloc),
    }
}

/// What is answered to a list of fields.
fn answer_of_list(alloc: Global, table: Table, fields: &[String]) -> Result<String, OutOfMemory> {
    match table {
        Table::Pieces => frames::answers(alloc, fields),
        Table::Written => frames::written(alloc, fields),
        Table::Changes => changes::changed(alloc, fields),
        Table::Store => scripts::answers(alloc, fields),
        _ => other_fields(alloc),
    }
}

impl CaseTable for Table {
    fn named(word: &str) -> Option<Table> {
        match word {
            "frames" => Some(Table::Frames),
            "pieces" => Some(Table::Pieces),
            "written_frames" => Some(Table::Written),
            "statements" => Some(Table::Statements),
            "fields" => Some(Table::Fields),
            "places" => Some(Table::Places),
            "changes" => Some(Table::Changes),
            "columns" => Some(Table::Columns),
            "positions" => Some(Table::Positions),
            "store" => Some(Table::Store),
            "instructions" | "operation_names" => Some(Table::Operations),
            "operand_counts" => Some(Table::OperandCounts),
            "operand_values" => Some(Table::OperandValues),
            _ => None,
        }
    }

    fn answer(&self, alloc: Global, fields: &[String]) -> Result<String, OutOfMemory> {
        match (*self, fields) {
            (Table::OperandValues, fields) => answer_of_value(alloc, fields),
            (table @ (Table::Pieces | Table::Written | Table::Changes | Table::Store), fields) =>
                answer_of_list(alloc, table, fields),
            (table, [text]) => answer_of_text(alloc, table, text.as_str()),
            (table, [text, place]) => answer_of_place(alloc, table, text.as_str(), place.as_str()),
            _ => other_fields(alloc),
        }
    }
}
