//! The tables by their words.
use crate::{commands, libraries, names, readings, sinks, sources};
use case_lines::CaseTable;
use hl_base::OutOfMemory;
use std::alloc::Global;

/// What a table's cases ask.
#[derive(Clone, Copy, Drop)]
pub enum Table {
    /// Takes of a source.
    Sources,

    /// Puts into a sink.
    Sinks,

    /// Calls of a library.
    Libraries,

    /// Readings of a library.
    Readings,

    /// Commands, by the words of a command line.
    CommandLines,

    /// The names of statements.
    StatementNames,
}

/// The names of the statements of a text, behind which an operation may be worded.
fn names_of(alloc: Global, text: &str, operations: &[String]) -> Result<String, OutOfMemory> {
    match operations {
        [] => names::as_written(alloc, text),
        [op] => names::substituted(alloc, text, op.as_str()),
        _ => Ok(String::from_str(alloc, "of other fields than the table's")?),
    }
}

impl CaseTable for Table {
    fn named(word: &str) -> Option<Table> {
        match word {
            "sources" => Some(Table::Sources),
            "sinks" => Some(Table::Sinks),
            "libraries" => Some(Table::Libraries),
            "readings" => Some(Table::Readings),
            "command_lines" => Some(Table::CommandLines),
            "statement_names" => Some(Table::StatementNames),
            _ => None,
        }
    }

    fn answer(&self, alloc: Global, fields: &[String]) -> Result<String, OutOfMemory> {
        let Some((object, calls)) = fields.split_first() else {
            return Ok(String::new(alloc));
        };
        match self {
            Table::Sources => sources::answers(alloc, object.as_str(), calls),
            Table::Sinks => sinks::answers(alloc, object.as_str(), calls),
            Table::Libraries => libraries::answers(alloc, object.as_str(), calls),
            Table::Readings => readings::answers(alloc, object.as_str(), calls),
            Table::CommandLines => commands::command(alloc, calls),
            Table::StatementNames => names_of(alloc, object.as_str(), calls),
        }
    }
}
