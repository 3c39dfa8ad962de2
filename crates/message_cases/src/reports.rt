//! Reports of a document, as a case words them: `CODE; SEVERITY; FROM-TO; MESSAGE`, and after it ` @ URI; FROM-TO; MESSAGE`
//! for each other place that it speaks of. Each place is `LINE.CHARACTER`.
use hl_base::{OutOfMemory, Position, Text};
use lsp_messages::{Diagnostic, Diagnostics, Relation, Relations, Span};
use std::alloc::Global;

/// What stands before the first semicolon, and what stands behind it.
pub fn cut(words: &str) -> (&str, &str) {
    words.split_once("; ").unwrap_or((words, ""))
}

/// The place that is worded so.
fn place(words: &str) -> Position {
    let (line, character) = words.split_once('.').unwrap_or((words, ""));
    Position {
        line: line.parse::<u32>().unwrap_or(0),
        character: character.parse::<u32>().unwrap_or(0),
    }
}

/// The places from and to that are worded so.
pub fn span(words: &str) -> Span {
    let (from, to) = words.split_once('-').unwrap_or((words, ""));
    Span {
        start: place(from),
        end: place(to),
    }
}

/// Another place that a report speaks of.
fn relation(alloc: Global, words: &str) -> Result<Relation, OutOfMemory> {
    let (uri, words) = cut(words);
    let (range, message) = cut(words);
    Ok(Relation {
        uri: Text::of(alloc, uri)?,
        range: span(range),
        message: Text::of(alloc, message)?,
    })
}

/// A report that speaks of these places.
fn report_with(alloc: Global, words: &str, related: Relations) -> Result<Diagnostic, OutOfMemory> {
    let (code, words) = cut(words);
    let (severity, words) = cut(words);
    let (range, message) = cut(words);
    Ok(Diagnostic {
        code: Text::of(alloc, code)?,
        message: Text::of(alloc, message)?,
        range: span(range),
        severity: severity.parse::<u8>().unwrap_or(0),
        related,
    })
}

/// A report.
fn report(alloc: Global, words: &str) -> Result<Diagnostic, OutOfMemory> {
    let mut parts = words.split(" @ ");
    let own = parts.next().unwrap_or("");
    let mut related = Relations::new(alloc);
    for place in parts {
        related.push(relation(alloc, place)?)?;
    }
    report_with(alloc, own, related)
}

/// Reports in order.
pub fn reports(alloc: Global, fields: &[String]) -> Result<Diagnostics, OutOfMemory> {
    let mut reports = Diagnostics::new(alloc);
    for field in fields {
        reports.push(report(alloc, field.as_str())?)?;
    }
    Ok(reports)
}
