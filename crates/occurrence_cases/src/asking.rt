//! Questions, and what is answered.
use crate::listing::occurrences_worded;
use crate::scene::{Scene, scene_of};
use crate::words::{add_part, cut, number};
use hl_base::{OutOfMemory, PathId, Position};
use lsp_messages::{Location, Span, SymbolAnswer};
use std::alloc::{AllocError, Global};
use symbol_answers::{definition, hover, references};

/// `LINE.UNIT-LINE.UNIT`.
fn span_worded(alloc: Global, span: Span) -> Result<String, AllocError> {
    format!(in alloc;
        "{}.{}-{}.{}",
        span.start.line, span.start.character, span.end.line, span.end.character
    )
}

/// `URI SPAN`.
fn location_worded(alloc: Global, location: &Location) -> Result<String, AllocError> {
    let span = span_worded(alloc, location.range)?;
    format!(in alloc; "{} {span}", location.uri.as_str())
}

/// Places in order, or `no place`.
fn places_worded(alloc: Global, places: &[Location]) -> Result<String, AllocError> {
    let mut words = String::new(alloc);
    for place in places {
        add_part(&mut words, ", ", location_worded(alloc, place)?.as_str())?;
    }
    if words.is_empty() {
        words.push_str("no place")?;
    }
    Ok(words)
}

/// An answer in words.
fn answer_worded(alloc: Global, answer: &SymbolAnswer) -> Result<String, AllocError> {
    match answer {
        SymbolAnswer::Nothing => String::from_str(alloc, "nothing"),
        SymbolAnswer::Place(place) => location_worded(alloc, place),
        SymbolAnswer::Places(places) => places_worded(alloc, places.as_slice()),
        SymbolAnswer::Hover(text) => String::from_str(alloc, text.as_str()),
        SymbolAnswer::Symbols(_) => String::from_str(alloc, "symbols"),
    }
}

/// `PATH LINE.UNIT`, and what stands behind it.
fn place_of(words: &str) -> (&str, Position, &str) {
    let (path, words) = cut(words);
    let (place, behind) = cut(words);
    let (line, unit) = place.split_once('.').unwrap_or((place, ""));
    let at = Position {
        line: number(line),
        character: number(unit),
    };
    (path, at, behind)
}

/// `definition`, `references`, `hover`, each with `PATH LINE.UNIT`, and `others` behind references without declarations. No
/// ordinary symbol has a value here.
fn asked(
    alloc: Global,
    scene: &Scene,
    kind: &str,
    words: &str,
) -> Result<SymbolAnswer, OutOfMemory> {
    let (path, at, behind) = place_of(words);
    let path = scene.store.path_id(path).unwrap_or(PathId(u32::MAX));
    let standing = scene.standing.as_slice();
    match kind {
        "definition" => definition(alloc, standing, &scene.store, path, at),
        "references" => references(alloc, standing, &scene.store, path, at, behind != "others"),
        _ => hover(alloc, &[], &[], standing, &scene.store, path, at),
    }
}

/// What a question is answered; `all` asks for all occurrences.
fn answer(alloc: Global, scene: &Scene, question: &str) -> Result<String, OutOfMemory> {
    let (kind, words) = cut(question);
    if kind == "all" {
        return Ok(occurrences_worded(alloc, &scene.store, scene.standing.as_slice())?);
    }
    let answer = asked(alloc, scene, kind, words)?;
    Ok(answer_worded(alloc, &answer)?)
}

/// What questions are answered in turn, with ` || ` between the answers.
pub fn answers(
    alloc: Global,
    texts: &str,
    program: &str,
    folder: &str,
    questions: &[String],
) -> Result<String, OutOfMemory> {
    let scene = scene_of(alloc, texts, program, folder)?;
    let mut words = String::new(alloc);
    for question in questions {
        let answer = answer(alloc, &scene, question.as_str())?;
        add_part(&mut words, " || ", answer.as_str())?;
    }
    Ok(words)
}
