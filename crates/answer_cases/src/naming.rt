//! Occurrences in words.
use crate::words::{cut, number, pair};
use document_store::DocumentStore;
use hl_base::{Name, Origin, PathId, SetKind};
use trace_values::{Entity, Occurrence, Role, Scope};

/// The number of a path; where it has none, one past all numbers.
pub fn number_of(store: &DocumentStore, path: &str) -> PathId {
    store.path_id(path).unwrap_or(PathId(u32::MAX))
}

/// `PATH:LINE`.
fn origin(store: &DocumentStore, words: &str) -> Origin {
    let (path, line) = words.split_once(':').unwrap_or((words, ""));
    Origin {
        path: number_of(store, path),
        line: number(line),
    }
}

fn kind(word: &str) -> SetKind {
    match word {
        "A" => SetKind::A,
        "B" => SetKind::B,
        _ => SetKind::C,
    }
}

/// `program`, `global-A`, or the place of a prototype.
fn scope(store: &DocumentStore, word: &str) -> Scope {
    match (word, word.split_once('-')) {
        ("program", _) => Scope::Program,
        (_, Some(("global", letter))) => Scope::Global(kind(letter)),
        _ => Scope::Definition(origin(store, word)),
    }
}

/// What a variable symbol is, the last word, before which `def` may stand: `parameter`, `system`, `plain`, or the letter of a
/// local symbol's type.
fn role(words: &str) -> Role {
    let word = words.strip_prefix("def ").unwrap_or(words);
    match word {
        "parameter" => Role::Parameter,
        "system" => Role::System,
        "A" | "B" | "C" => Role::Local(kind(word)),
        _ => Role::Plain,
    }
}

/// `symbol NAME`, `variable SCOPE NAME`, `sequence SCOPE NAME`, `macro PATH:LINE NAME` or `member PATH`.
fn entity(store: &DocumentStore, word: &str, place: &str, name: &str) -> Option<Entity> {
    match word {
        "symbol" => Some(Entity::Symbol(Name::read(place)?)),
        "variable" => Some(Entity::Variable(scope(store, place), Name::read(name)?)),
        "sequence" => Some(Entity::Sequence(scope(store, place), Name::read(name)?)),
        "macro" => Some(Entity::Macro(origin(store, place), Name::read(name)?)),
        _ => Some(Entity::Member(number_of(store, place))),
    }
}

/// `PATH LINE FROM-TO`, then what is named there, then `def` where it is defined there, and the role of a variable symbol.
pub fn occurrence(store: &DocumentStore, words: &str) -> Option<Occurrence> {
    let (path, words) = cut(words);
    let (line, words) = cut(words);
    let (columns, words) = cut(words);
    let (word, words) = cut(words);
    let (place, words) = cut(words);
    let (name, behind) = cut(words);
    let (from, to) = pair(columns, '-');
    Some(Occurrence {
        path: number_of(store, path),
        line: number(line),
        from,
        to,
        entity: entity(store, word, place, name)?,
        defines: name == "def" || behind == "def" || behind.starts_with("def "),
        role: role(behind),
    })
}
