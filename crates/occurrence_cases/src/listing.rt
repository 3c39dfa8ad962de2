//! Occurrences in words.
use crate::words::add_part;
use document_store::DocumentStore;
use hl_base::{Origin, PathId, SetKind};
use std::alloc::{AllocError, Global};
use trace_values::{Entity, Occurrence, Role, Scope};

/// The text of a path.
fn path_text(store: &DocumentStore, path: PathId) -> &str {
    if (path.0 as usize) < store.path_count() {
        store.path_text(path)
    } else {
        "-"
    }
}

fn kind_worded(kind: SetKind) -> &'static str {
    match kind {
        SetKind::A => "A",
        SetKind::B => "B",
        SetKind::C => "C",
    }
}

/// `PATH:LINE`.
fn origin_worded(
    alloc: Global,
    store: &DocumentStore,
    origin: Origin,
) -> Result<String, AllocError> {
    let path = path_text(store, origin.path);
    format!(in alloc; "{path}:{}", origin.line)
}

/// `program`, `global-A`, or the place of a prototype.
fn scope_worded(alloc: Global, store: &DocumentStore, scope: Scope) -> Result<String, AllocError> {
    match scope {
        Scope::Program => String::from_str(alloc, "program"),
        Scope::Definition(origin) => origin_worded(alloc, store, origin),
        Scope::Global(kind) => format!(in alloc; "global-{}", kind_worded(kind)),
    }
}

/// `symbol NAME`, `variable SCOPE NAME`, `sequence SCOPE NAME`, `macro PATH:LINE NAME` or `member PATH`.
fn entity_worded(
    alloc: Global,
    store: &DocumentStore,
    entity: &Entity,
) -> Result<String, AllocError> {
    match entity {
        Entity::Symbol(name) => format!(in alloc; "symbol {}", name.text()),
        Entity::Variable(scope, name) => {
            let scope = scope_worded(alloc, store, *scope)?;
            format!(in alloc; "variable {scope} {}", name.text())
        }
        Entity::Sequence(scope, name) => {
            let scope = scope_worded(alloc, store, *scope)?;
            format!(in alloc; "sequence {scope} {}", name.text())
        }
        Entity::Macro(origin, name) => {
            let origin = origin_worded(alloc, store, *origin)?;
            format!(in alloc; "macro {origin} {}", name.text())
        }
        Entity::Member(path) => format!(in alloc; "member {}", path_text(store, *path)),
    }
}

fn role_worded(role: Role) -> &'static str {
    match role {
        Role::Plain => "",
        Role::Parameter => " parameter",
        Role::System => " system",
        Role::Local(kind) => match kind {
            SetKind::A => " A",
            SetKind::B => " B",
            SetKind::C => " C",
        },
    }
}

/// `PATH LINE FROM-TO`, then what is named there, then `def` where it is defined there, and the role of a variable symbol.
fn occurrence_worded(
    alloc: Global,
    store: &DocumentStore,
    one: &Occurrence,
) -> Result<String, AllocError> {
    let path = path_text(store, one.path);
    let entity = entity_worded(alloc, store, &one.entity)?;
    let defines = if one.defines { " def" } else { "" };
    let role = role_worded(one.role);
    format!(in alloc;
        "{path} {} {}-{} {entity}{defines}{role}",
        one.line, one.from, one.to
    )
}

/// Occurrences in their order.
pub fn occurrences_worded(
    alloc: Global,
    store: &DocumentStore,
    standing: &[Occurrence],
) -> Result<String, AllocError> {
    let mut words = String::new(alloc);
    for one in standing {
        add_part(
            &mut words,
            "; ",
            occurrence_worded(alloc, store, one)?.as_str(),
        )?;
    }
    Ok(words)
}
