//! Questions, and what is answered.
use crate::naming::number_of;
use crate::scene::{Scene, scene_of};
use crate::words::{add_part, cut, number};
use hl_base::{OutOfMemory, Position};
use lsp_messages::{DocumentSymbol, Location, Span, SymbolAnswer, SymbolKind};
use std::alloc::{AllocError, Global};
use symbol_answers::{definition, document_symbols, hover, references};

/// `LINE.UNIT-LINE.UNIT`.
pub fn span_worded(alloc: Global, span: Span) -> Result<String, AllocError> {
    format!(in alloc;
        "{}.{}-{}.{}",
        span.start.line, span.start.character, span.end.line, span.end.character
    )
}

/// `URI SPAN`.
fn location_worded(alloc: Global, location: &Location) -> Result<String, AllocError> {
    let span = span_worded(alloc, location.range)?;
    format!(in alloc; "{} {span}", location.uri.as_str())
}

/// `KIND NAME SPAN`, where the kind is 13 or 14.
fn symbol_worded(alloc: Global, symbol: &DocumentSymbol) -> Result<String, AllocError> {
    let kind = match symbol.kind {
        SymbolKind::Variable => 13u8,
        SymbolKind::Constant => 14u8,
    };
    let span = span_worded(alloc, symbol.range)?;
    format!(in alloc; "{kind} {} {span}", symbol.name.as_str())
}

/// Places in order, or `no place`.
fn places_worded(alloc: Global, places: &[Location]) -> Result<String, AllocError> {
    let mut words = String::new(alloc);
    for place in places {
        add_part(&mut words, ", ", location_worded(alloc, place)?.as_str())?;
    }
    if words.is_empty() {
        words.push_str("no place")?;
    }
    Ok(words)
}

/// Symbols in order, or `no symbol`.
fn symbols_worded(alloc: Global, symbols: &[DocumentSymbol]) -> Result<String, AllocError> {
    let mut words = String::new(alloc);
    for symbol in symbols {
        add_part(&mut words, ", ", symbol_worded(alloc, symbol)?.as_str())?;
    }
    if words.is_empty() {
        words.push_str("no symbol")?;
    }
    Ok(words)
}

/// An answer in words.
fn answer_worded(alloc: Global, answer: &SymbolAnswer) -> Result<String, AllocError> {
    match answer {
        SymbolAnswer::Nothing => String::from_str(alloc, "nothing"),
        SymbolAnswer::Place(place) => location_worded(alloc, place),
        SymbolAnswer::Places(places) => places_worded(alloc, places.as_slice()),
        SymbolAnswer::Hover(text) => String::from_str(alloc, text.as_str()),
        SymbolAnswer::Symbols(symbols) => symbols_worded(alloc, symbols.as_slice()),
    }
}

/// `PATH LINE.UNIT`, and what stands behind it.
fn place_of(words: &str) -> (&str, Position, &str) {
    let (path, words) = cut(words);
    let (place, behind) = cut(words);
    let (line, unit) = place.split_once('.').unwrap_or((place, ""));
    let at = Position {
        line: number(line),
        character: number(unit),
    };
    (path, at, behind)
}

/// `definition`, `references`, `hover`, each with `PATH LINE.UNIT`, and `others` behind references without declarations; or
/// `symbols PATH`.
fn asked(alloc: Global, scene: &Scene, question: &str) -> Result<SymbolAnswer, OutOfMemory> {
    let (kind, words) = cut(question);
    let (path, at, behind) = place_of(words);
    let path = number_of(&scene.store, path);
    let standing = scene.standing.as_slice();
    match kind {
        "definition" => definition(alloc, standing, &scene.store, path, at),
        "references" => references(alloc, standing, &scene.store, path, at, behind != "others"),
        "hover" => hover(
            alloc,
            scene.rows.as_slice(),
            scene.sections.as_slice(),
            standing,
            &scene.store,
            path,
            at,
        ),
        _ => document_symbols(alloc, scene.rows.as_slice(), &scene.store, path),
    }
}

/// What questions are answered in turn, with semicolons between the answers.
pub fn answers(
    alloc: Global,
    texts: &str,
    symbols: &str,
    places: &str,
    questions: &[String],
) -> Result<String, OutOfMemory> {
    let scene = scene_of(alloc, texts, symbols, places)?;
    let mut words = String::new(alloc);
    for question in questions {
        let answer = asked(alloc, &scene, question.as_str())?;
        add_part(&mut words, "; ", answer_worded(alloc, &answer)?.as_str())?;
    }
    Ok(words)
}
