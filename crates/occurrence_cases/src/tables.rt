//! The tables by their words.
use crate::{asking, programs};
use case_lines::CaseTable;
use hl_base::OutOfMemory;
use std::alloc::Global;

/// What a table's cases ask.
#[derive(Clone, Copy, Drop)]
pub enum Table {
    /// The occurrences of programs, and questions on their symbols.
    Occurrences,
    /// The figures of a program.
    Figures,
}

impl CaseTable for Table {
    fn named(word: &str) -> Option<Table> {
        match word {
            "occurrences" => Some(Table::Occurrences),
            "figures" => Some(Table::Figures),
            _ => None,
        }
    }

    fn answer(&self, alloc: Global, fields: &[String]) -> Result<String, OutOfMemory> {
        match (self, fields) {
            (Table::Occurrences, [texts, program, folder, questions @ ..]) => asking::answers(
                alloc,
                texts.as_str(),
                program.as_str(),
                folder.as_str(),
                questions,
            ),
            (Table::Figures, [budget, name, text, member]) => programs::figures(
                alloc,
                budget.as_str(),
                name.as_str(),
                text.as_str(),
                member.as_str(),
            ),
            _ => Ok(String::from_str(alloc, "of other fields than the table's")?),
        }
    }
}
