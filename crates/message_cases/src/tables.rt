//! The tables by their words.
use crate::{bodies, config, debug_bodies, debug_requests, folders, json, members, messages};
use case_lines::CaseTable;
use hl_base::OutOfMemory;
use std::alloc::Global;

/// What a table's cases ask.
#[derive(Clone, Copy, Drop)]
pub enum Table {
    /// Texts, read as JSON and written again.
    Json,

    /// The same of bytes.
    JsonBytes,

    /// The member `x` of a value.
    Members,

    /// Bodies, read as messages.
    Messages,

    /// Methods and parameters, read as messages.
    Parameters,

    /// Bodies that answer a request of ours, and others.
    Responses,

    /// Ids, copied.
    Ids,

    /// Messages that are written.
    Bodies,

    /// Values, read as debug requests.
    DebugRequests,

    /// Commands and arguments, read as debug requests.
    DebugArguments,

    /// Debug messages that are written.
    DebugBodies,

    /// Texts, read as the file of groups.
    ConfigGroups,

    /// Texts, read as the file of programs.
    ConfigPrograms,

    /// The groups of paths.
    ConfigChoices,

    /// The library folders of a file of groups.
    LibraryFolders,

    /// What paths are to them.
    LibraryPaths,

    /// What programs have of their groups.
    ProgramGroups,
}

/// What is answered where the fields are not those of the table.
fn other_fields(alloc: Global) -> Result<String, OutOfMemory> {
    Ok(String::from_str(alloc, "of other fields than the table's")?)
}

/// What is answered to one text.
fn answer_of_text(alloc: Global, table: Table, text: &str) -> Result<String, OutOfMemory> {
    match table {
        Table::Json => json::written(alloc, text.as_bytes()),
        Table::JsonBytes => json::written_bytes(alloc, text),
        Table::Members => members::answers(alloc, text),
        Table::Messages => messages::read(alloc, text),
        Table::Responses => messages::is_answer(alloc, text),
        Table::Ids => messages::copied(alloc, text),
        Table::DebugRequests => debug_requests::read(alloc, text),
        Table::ConfigGroups => config::groups_read(alloc, text),
        Table::ConfigPrograms => config::programs_read(alloc, text),
        Table::Parameters
        | Table::Bodies
        | Table::DebugArguments
        | Table::DebugBodies
        | Table::ConfigChoices
        | Table::LibraryFolders
        | Table::LibraryPaths
        | Table::ProgramGroups => other_fields(alloc),
    }
}

impl CaseTable for Table {
    fn named(word: &str) -> Option<Table> {
        match word {
            "json" => Some(Table::Json),
            "json_bytes" => Some(Table::JsonBytes),
            "members" => Some(Table::Members),
            "messages" => Some(Table::Messages),
            "parameters" => Some(Table::Parameters),
            "responses" => Some(Table::Responses),
            "ids" => Some(Table::Ids),
            "bodies" => Some(Table::Bodies),
            "debug_requests" => Some(Table::DebugRequests),
            "debug_arguments" => Some(Table::DebugArguments),
            "debug_bodies" => Some(Table::DebugBodies),
            "config_groups" => Some(Table::ConfigGroups),
            "config_programs" => Some(Table::ConfigPrograms),
            "config_choices" => Some(Table::ConfigChoices),
            "library_folders" => Some(Table::LibraryFolders),
            "library_paths" => Some(Table::LibraryPaths),
            "program_groups" => Some(Table::ProgramGroups),
            _ => None,
        }
    }

    fn answer(&self, alloc: Global, fields: &[String]) -> Result<String, OutOfMemory> {
        match (*self, fields) {
            (Table::Bodies, [kind, rest @ ..]) => bodies::body(alloc, kind.as_str(), rest),
            (Table::Parameters, [method, params]) => {
                messages::of_parameters(alloc, method.as_str(), params.as_str())
            }
            (Table::DebugBodies, [kind, rest @ ..]) => {
                debug_bodies::text(alloc, kind.as_str(), rest)
            }
            (Table::DebugArguments, [command, arguments]) => {
                debug_requests::of_arguments(alloc, command.as_str(), arguments.as_str())
            }
            (Table::ConfigChoices, [entries, groups, path]) => {
                config::place(alloc, entries.as_str(), groups.as_str(), path.as_str())
            }
            (Table::LibraryFolders, [groups, root]) => {
                folders::listed(alloc, groups.as_str(), root.as_str())
            }
            (Table::LibraryPaths, [groups, root, paths @ ..]) => {
                folders::standing(alloc, groups.as_str(), root.as_str(), paths)
            }
            (Table::ProgramGroups, [groups, programs, root, path]) => {
                let files = (groups.as_str(), programs.as_str());
                folders::chosen(alloc, files, root.as_str(), path.as_str())
            }
            (table, [text]) => answer_of_text(alloc, table, text.as_str()),
            _ => other_fields(alloc),
        }
    }
}
