//! The JSON texts of requests.
use std::alloc::{AllocError, Global};

/// What stands before the first blank, and what stands behind it.
pub fn cut(words: &str) -> (&str, &str) {
    words.split_once(' ').unwrap_or((words, ""))
}

/// The lines of breakpoints, as JSON.
fn breakpoints(alloc: Global, words: &str) -> Result<String, AllocError> {
    let mut list = String::new(alloc);
    for line in words.split(' ') {
        if line.is_empty() {
            continue;
        }
        let comma = if list.is_empty() { "" } else { "," };
        list.push_str(format!(in alloc; "{comma}{{\"line\":{line}}}")?.as_str())?;
    }
    Ok(list)
}

/// The arguments of a command, as JSON; none for a command without arguments.
fn arguments(alloc: Global, command: &str, words: &str) -> Result<String, AllocError> {
    let (first, others) = cut(words);
    match command {
        "launch" => {
            let stops = if others == "entry" { "true" } else { "false" };
            format!(in alloc; ",\"arguments\":{{\"program\":\"{first}\",\"stopOnEntry\":{stops}}}")
        }
        "setBreakpoints" => {
            let list = breakpoints(alloc, others)?;
            format!(in alloc;
                ",\"arguments\":{{\"source\":{{\"path\":\"{first}\"}},\"breakpoints\":[{list}]}}"
            )
        }
        "scopes" => format!(in alloc; ",\"arguments\":{{\"frameId\":{first}}}"),
        "variables" => format!(in alloc; ",\"arguments\":{{\"variablesReference\":{first}}}"),
        _ => Ok(String::new(alloc)),
    }
}

/// The text of the message that these words ask for, the one of this number in its script: a text of JSON as it is, or a command
/// with its arguments.
pub fn text(alloc: Global, number: u32, words: &str) -> Result<String, AllocError> {
    if words.starts_with('{') {
        return String::from_str(alloc, words);
    }
    let (command, words) = cut(words);
    let arguments = arguments(alloc, command, words)?;
    format!(in alloc;
        "{{\"seq\":{number},\"type\":\"request\",\"command\":\"{command}\"{arguments}}}"
    )
}
