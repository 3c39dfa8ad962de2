//! Debug requests that are read, in words.
use crate::json::{no_json, value};
use dap_messages::{DapCommand, DapHead, DapIn, DapRefusal, read_dap};
use hl_base::{OutOfMemory, Text};
use std::alloc::{AllocError, Global};

fn launch(alloc: Global, program: &Text, stops: bool) -> Result<String, AllocError> {
    format!(in alloc; " '{}' {stops}", program.as_str())
}

fn breakpoints(alloc: Global, path: &Text, lines: &[u32]) -> Result<String, AllocError> {
    let mut words = format!(in alloc; " '{}'", path.as_str())?;
    for line in lines {
        words.push_str(format!(in alloc; " {line}")?.as_str())?;
    }
    Ok(words)
}

/// The arguments of a command, each behind a blank.
fn arguments(alloc: Global, command: &DapCommand) -> Result<String, AllocError> {
    match command {
        DapCommand::Launch {
            program,
            stop_on_entry,
        } => launch(alloc, program, *stop_on_entry),
        DapCommand::SetBreakpoints { path, lines } => breakpoints(alloc, path, lines.as_slice()),
        DapCommand::Scopes { frame } => format!(in alloc; " {frame}"),
        DapCommand::Variables { reference } => format!(in alloc; " {reference}"),
        _ => Ok(String::new(alloc)),
    }
}

/// A request in words: its number, its command, and the arguments.
fn request(alloc: Global, request: &DapIn) -> Result<String, AllocError> {
    let arguments = arguments(alloc, &request.command)?;
    format!(in alloc; "{} {}{arguments}", request.seq, request.command.name())
}

fn refused(alloc: Global, head: &DapHead, name: &str) -> Result<String, AllocError> {
    format!(in alloc; "{} {}: {name}", head.seq, head.command.as_str())
}

/// A refusal in words.
fn refusal(alloc: Global, refusal: &DapRefusal) -> Result<String, OutOfMemory> {
    match refusal {
        DapRefusal::NotDap => Ok(String::from_str(alloc, "NotDap")?),
        DapRefusal::UnknownCommand(head) => Ok(refused(alloc, head, "UnknownCommand")?),
        DapRefusal::BadArguments(head) => Ok(refused(alloc, head, "BadArguments")?),
        DapRefusal::OutOfMemory => Err(OutOfMemory),
    }
}

/// The request that a text is.
pub fn read(alloc: Global, text: &str) -> Result<String, OutOfMemory> {
    match value(alloc, text.as_bytes())? {
        Some(value) => match read_dap(alloc, &value) {
            Ok(read) => Ok(request(alloc, &read)?),
            Err(refused) => refusal(alloc, &refused),
        },
        None => no_json(alloc),
    }
}

/// The request with the number 5 of this command, with these arguments.
pub fn of_arguments(alloc: Global, command: &str, given: &str) -> Result<String, OutOfMemory> {
    let text = format!(in alloc;
        "{{\"arguments\":{given},\"command\":\"{command}\",\"seq\":5,\"type\":\"request\"}}"
    )?;
    read(alloc, text.as_str())
}
