//! The definitions that a program calls or begins.
ghost use Rattle.std.specs.Prelude.{◌≡◌, ◌++◌, drop, IfOk, OnOk};
ghost use Rattle.trace_arena.specs.Nodes.{IsLive};
ghost use Rattle.trace_arena.specs.Points.{points};
ghost use Rattle.text_lists.specs.Lists.{line_at};
ghost use Rattle.program_names.specs.Prototypes as rules;

use crate::paths::entered;
use hl_base::{Origin, OutOfMemory};
use statement_listing::{Line, begins_definition};
use std::alloc::Global;
use text_lists::TextLists;
use trace_arena::{NodeId, TraceArena};
use trace_cursor::Cursor;
use trace_values::TraceItem;

/// Whether the statement that begins at a place begins a definition.
fn begins(texts: &TextLists, origin: Origin) -> bool
    ensures { result ≡ rules.begins (line_at texts.now origin) }
{
    let Some(line) = texts.line_at(origin) else {
        return false;
    };
    match line.reading() {
        Some(reading) => begins_definition(&reading.instruction),
        None => false,
    }
}

/// Where the first of some statements stands that is neither a comment nor blank.
fn first_place(lines: &[Line]) -> Option<Origin>
    ensures { result ≡ rules.first_place lines.now }
{
    for line in lines {
        if line.reading().is_some() {
            return Some(line.origin());
        }
    }
    None
}

/// The statements from a number on.
fn from_number(lines: &[Line], number: usize) -> &[Line]
    ensures { result.now ≡ drop number lines.now }
{
    if number < lines.len() {
        return &lines[number..];
    }
    &[]
}

/// Where the prototype behind the MACRO of a place stands.
fn behind_place(texts: &TextLists, origin: Origin) -> Option<Origin>
    ensures { result ≡ rules.behind_place texts.now origin }
{
    let (Some(list), Some(number)) = (texts.list_of(origin.path), texts.number_at(origin)) else {
        return None;
    };
    first_place(from_number(list.lines(), number as usize + 1))
}

/// Where the prototype of the definition stands that a place begins, if it begins one.
fn begun(texts: &TextLists, origin: Origin) -> Option<Origin>
    ensures { result ≡ rules.begun texts.now origin }
{
    if begins(texts, origin) {
        return behind_place(texts, origin);
    }
    None
}

/// Adds a place, if there is one.
fn add_place(places: &mut Vec<Origin>, place: Option<Origin>) -> Result<(), OutOfMemory>
    ensures { OnOk result (places.new.items ≡ places.old.items ++ rules.if_there place) }
{
    if let Some(origin) = place {
        places.push(origin)?;
    }
    Ok(())
}

/// Adds the prototypes of the definitions that an item calls and begins.
fn add_prototypes(
    places: &mut Vec<Origin>,
    texts: &TextLists,
    item: &TraceItem,
) -> Result<(), OutOfMemory>
    ensures { OnOk result (places.new.items ≡ places.old.items ++ rules.item_prototypes texts.now item.now) }
{
    add_place(places, entered(item))?;
    add_place(places, begun(texts, item.frames.origin()))
}

/// The prototypes of the definitions that the points of a root call or begin.
pub(crate) fn prototypes(
    alloc: Global,
    arena: &TraceArena<TraceItem>,
    root: NodeId,
    texts: &TextLists,
) -> Result<Vec<Origin>, OutOfMemory>
    requires live { IsLive arena.now.nodes root.0 }
    ensures { IfOk result (λ places. places.items ≡ rules.prototypes texts.now (points arena.now.nodes root.0)) }
{
    let mut places = Vec::new(alloc);
    let Some(mut cursor) = Cursor::at(arena, root, 0) else {
        return Ok(places);
    };
    for _ in 0..arena.points(root) {
        add_prototypes(&mut places, texts, cursor.item(arena))?;
        let _ = cursor.advance(arena);
    }
    Ok(places)
}
