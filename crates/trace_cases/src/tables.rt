//! The tables by their words.
use crate::{links, nodes, points, stops, symbols, variables};
use case_lines::CaseTable;
use hl_base::OutOfMemory;
use std::alloc::Global;

/// What a table's cases ask.
#[derive(Clone, Copy, Drop)]
pub enum Table {
    /// Calls of an arena of nodes, by their name.
    Nodes,

    /// Calls of chains.
    Chains,

    /// What is shown of the variables of a frame of a point.
    Variables,

    /// Calls of a table of SET symbols.
    SetSymbols,
}

/// What the calls of a name answer.
fn answer_of_name(alloc: Global, name: &str) -> Result<String, OutOfMemory> {
    match name {
        "a node linked twice" => nodes::linked_twice(alloc),
        "a root that is retained" => nodes::retained(alloc),
        "points of three items" => points::counted(alloc),
        "a walk through nested nodes" => points::walked(alloc),
        "steps through nested nodes" => stops::stepped(alloc),
        "bytes of an item" => points::item_bytes(alloc),
        _ => Ok(String::from_str(alloc, "no such calls")?),
    }
}

impl CaseTable for Table {
    fn named(word: &str) -> Option<Table> {
        match word {
            "nodes" => Some(Table::Nodes),
            "chains" => Some(Table::Chains),
            "variables" => Some(Table::Variables),
            "set_symbols" => Some(Table::SetSymbols),
            _ => None,
        }
    }

    fn answer(&self, alloc: Global, fields: &[String]) -> Result<String, OutOfMemory> {
        match (*self, fields) {
            (Table::Nodes, [name]) => answer_of_name(alloc, name.as_str()),
            (Table::Chains, calls) => links::answers(alloc, calls),
            (Table::SetSymbols, calls) => symbols::answers(alloc, calls),
            (Table::Variables, [index, frame]) => {
                variables::answer(alloc, index.as_str(), frame.as_str())
            }
            _ => Ok(String::from_str(alloc, "of other fields than the table's")?),
        }
    }
}
