//! The tables by their words.
use crate::{characters, copies, notes, operands, paths};
use case_lines::CaseTable;
use hl_base::{Name, OutOfMemory};
use member_paths::member_name;
use std::alloc::Global;

/// What a table's cases ask.
#[derive(Clone, Copy, Drop)]
pub enum Table {
    /// What names texts are.
    Names,

    /// Which members files are.
    MemberNames,

    /// The lines of a text.
    Lines,

    /// The widths of lines.
    Widths,

    /// The bytes of characters.
    Bytes,

    /// Quotes and parentheses.
    Nesting,

    /// The operands of a field.
    Operands,

    /// The elements of a sublist.
    Elements,

    /// How numbers are written.
    Forms,

    /// The paths of URIs.
    Paths,

    /// The URIs of paths.
    Uris,

    /// The folder and the file of a path.
    Parts,

    /// Where a folder lies.
    Folders,

    /// Which text is the lesser.
    Orders,

    /// Copies of values.
    Copies,

    /// Texts that grow.
    Grown,

    /// Notes of rows.
    Notes,
}

/// What is answered where the fields are not those of the table.
fn other_fields(alloc: Global) -> Result<String, OutOfMemory> {
    Ok(String::from_str(alloc, "of other fields than the table's")?)
}

/// What is answered to one text.
fn answer_of_text(alloc: Global, table: Table, text: &str) -> Result<String, OutOfMemory> {
    match table {
        Table::Names => characters::named(alloc, Name::read(text)),
        Table::MemberNames => characters::named(alloc, member_name(text)),
        Table::Lines => characters::bracketed_lines(alloc, text),
        Table::Widths => characters::width(alloc, text),
        Table::Bytes => characters::bytes(alloc, text),
        Table::Nesting => characters::nesting(alloc, text),
        Table::Operands => operands::operands(alloc, text),
        Table::Elements => operands::elements(alloc, text),
        Table::Forms => operands::form(alloc, text),
        Table::Paths => paths::path_of(alloc, text),
        Table::Uris => paths::uri(alloc, text),
        Table::Parts => paths::parts(alloc, text),
        _ => other_fields(alloc),
    }
}

/// What is answered to two texts.
fn answer_of_two(
    alloc: Global,
    table: Table,
    one: &str,
    other: &str,
) -> Result<String, OutOfMemory> {
    match table {
        Table::Folders => paths::folder(alloc, one, other),
        Table::Orders => characters::order(alloc, one, other),
        Table::Copies => copies::copied(alloc, one, other),
        _ => other_fields(alloc),
    }
}

impl CaseTable for Table {
    fn named(word: &str) -> Option<Table> {
        match word {
            "names" => Some(Table::Names),
            "member_names" => Some(Table::MemberNames),
            "lines" => Some(Table::Lines),
            "widths" => Some(Table::Widths),
            "character_bytes" => Some(Table::Bytes),
            "nesting" => Some(Table::Nesting),
            "operands" => Some(Table::Operands),
            "sublists" => Some(Table::Elements),
            "number_forms" => Some(Table::Forms),
            "file_paths" => Some(Table::Paths),
            "file_uris" => Some(Table::Uris),
            "path_parts" => Some(Table::Parts),
            "folder_paths" => Some(Table::Folders),
            "text_orders" => Some(Table::Orders),
            "copies" => Some(Table::Copies),
            "grown_texts" => Some(Table::Grown),
            "notes" => Some(Table::Notes),
            _ => None,
        }
    }

    fn answer(&self, alloc: Global, fields: &[String]) -> Result<String, OutOfMemory> {
        match (*self, fields) {
            (Table::Grown, parts) => characters::grown(alloc, parts),
            (Table::Notes, [word, inserted, frame]) => {
                notes::noted(alloc, word.as_str(), inserted.as_str(), frame.as_str())
            }
            (table, [text]) => answer_of_text(alloc, table, text.as_str()),
            (table, [one, other]) => answer_of_two(alloc, table, one.as_str(), other.as_str()),
            _ => other_fields(alloc),
        }
    }
}
