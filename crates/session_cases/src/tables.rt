//! The tables by their words.
use crate::numbers::number_or;
use crate::scripts::said;
use crate::{clients, runs, statuses};
use case_lines::CaseTable;
use hl_base::OutOfMemory;
use std::alloc::Global;

/// What a table's cases ask.
#[derive(Clone, Copy, Drop)]
pub enum Table {
    /// Messages to debug sessions, one after the other, with the texts that are opened between them.
    DebugSessions,

    /// Runs of the server over memory.
    Runs,

    /// Runs over a client that waits for its answers.
    PatientClients,

    /// The names of statuses.
    Statuses,
}

/// A run: the words, and its settings.
fn run(alloc: Global, fields: &[String]) -> Result<String, OutOfMemory> {
    match fields.split_first() {
        Some((words, settings)) => runs::told(alloc, words.as_str(), settings),
        None => Ok(String::new(alloc)),
    }
}

/// A client: the bodies that it sends, where the frames begin, and whether it sees.
fn client(alloc: Global, fields: &[String]) -> Result<String, OutOfMemory> {
    match fields {
        [names, turns, sight] => {
            clients::told(alloc, names.as_str(), turns.as_str(), sight.as_str())
        }
        _ => Ok(String::from_str(alloc, "of other fields than the table's")?),
    }
}

/// A status: its number, and the place of a bad frame.
fn status(alloc: Global, fields: &[String]) -> Result<String, OutOfMemory> {
    match fields {
        [number] => statuses::name(alloc, number_or(number.as_str(), 255), 0),
        [number, at] => statuses::name(
            alloc,
            number_or(number.as_str(), 255),
            number_or(at.as_str(), 0) as u64,
        ),
        _ => Ok(String::from_str(alloc, "of other fields than the table's")?),
    }
}

impl CaseTable for Table {
    fn named(word: &str) -> Option<Table> {
        match word {
            "debug_sessions" => Some(Table::DebugSessions),
            "runs" => Some(Table::Runs),
            "patient_clients" => Some(Table::PatientClients),
            "statuses" => Some(Table::Statuses),
            _ => None,
        }
    }

    fn answer(&self, alloc: Global, fields: &[String]) -> Result<String, OutOfMemory> {
        match *self {
            Table::DebugSessions => said(alloc, fields),
            Table::Runs => run(alloc, fields),
            Table::PatientClients => client(alloc, fields),
            Table::Statuses => status(alloc, fields),
        }
    }
}
