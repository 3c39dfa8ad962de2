//! The tables by their words.
use crate::{asking, feed, members};
use case_lines::CaseTable;
use hl_base::OutOfMemory;
use std::alloc::Global;

/// What a table's cases ask.
#[derive(Clone, Copy, Drop)]
pub enum Table {
    /// Questions on the symbols of texts.
    SymbolAnswers,

    /// The lists of programs.
    RelatedPlaces,

    /// Whether two of them say the same.
    SameLists,

    /// What names of members mean to a group.
    GroupMembers,
}

impl CaseTable for Table {
    fn named(word: &str) -> Option<Table> {
        match word {
            "symbol_answers" => Some(Table::SymbolAnswers),
            "related_places" => Some(Table::RelatedPlaces),
            "same_lists" => Some(Table::SameLists),
            "group_members" => Some(Table::GroupMembers),
            _ => None,
        }
    }

    fn answer(&self, alloc: Global, fields: &[String]) -> Result<String, OutOfMemory> {
        match (self, fields) {
            (Table::SymbolAnswers, [texts, symbols, places, questions @ ..]) => {
                asking::answers(
                    alloc,
                    texts.as_str(),
                    symbols.as_str(),
                    places.as_str(),
                    questions,
                )
            }
            (Table::RelatedPlaces, [texts, folder, program, notes]) => {
                feed::list_shown(
                    alloc,
                    texts.as_str(),
                    folder.as_str(),
                    program.as_str(),
                    notes.as_str(),
                )
            }
            (Table::SameLists, [texts, folder, program, one, other]) => {
                feed::is_same(
                    alloc,
                    texts.as_str(),
                    folder.as_str(),
                    program.as_str(),
                    one.as_str(),
                    other.as_str(),
                )
            }
            (Table::GroupMembers, [texts, folders, names @ ..]) => {
                members::answers(alloc, texts.as_str(), folders.as_str(), names)
            }
            _ => Ok(String::from_str(alloc, "of other fields than the table's")?),
        }
    }
}
