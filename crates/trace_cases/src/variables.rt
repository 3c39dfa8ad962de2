//! The variables of the frames of a trace with nested calls, a copied member and a node that stands twice.
//!
//! Open code declares `&G` and `&T` global, sets `&G`, and calls a macro, and once more in a loop; both calls are one node. The
//! macro has the parameter `&P` and names `&SYSLIST`, declares `&I` and `&L(3)` local and `&H(9)` global, sets elements in a
//! copied member, and calls a macro that declares `&G` and `&H` global, the latter without a subscript, and sets `&G`.
ghost use Rattle.std.specs.Prelude.{◌≡◌};
ghost use Rattle.trace_arena.specs.Nodes.{IsLive};

use crate::nodes::link;
use crate::points::item;
use hl_base::{
    Declaration, Frame, FrameKind, Frames, Ledger, Name, Origin, OutOfMemory, PathId, SetKind,
    SetValue, Steps, Text,
};
use std::alloc::Global;
use std::marker::Brand;
use std::sync::ledger::Blank;
use trace_arena::{NodeId, TraceArena};
use trace_values::{OwnFrames, Setting, Settings, TraceItem, Variables};
use trace_variables::variables_at;

/// An element gets a value.
fn set(
    settings: &mut Settings,
    name: &str,
    element: u32,
    value: SetValue,
) -> Result<(), OutOfMemory> {
    match Name::read(name) {
        Some(name) => settings.push(Setting {
            name,
            element,
            value,
        }),
        None => Ok(()),
    }
}

/// A parameter or a system variable has a text.
fn give(
    alloc: Global,
    entry: &mut Settings,
    name: &str,
    element: u32,
    text: &str,
) -> Result<(), OutOfMemory> {
    set(entry, name, element, SetValue::C(Text::of(alloc, text)?))
}

/// A symbol is declared.
fn declare(
    item: &mut TraceItem,
    kind: SetKind,
    name: &str,
    global: bool,
    array: bool,
) -> Result<(), OutOfMemory> {
    match Name::read(name) {
        Some(name) => item.declared.push(Declaration {
            kind,
            name,
            global,
            array,
        }),
        None => Ok(()),
    }
}

/// The frames of a statement of a copied member.
fn copied_frames(alloc: Global, line: u32) -> Result<OwnFrames, OutOfMemory> {
    let place = |line| Origin {
        path: PathId(0),
        line,
    };
    let mut outer = Frames::new(alloc);
    outer.push(Frame {
        kind: FrameKind::Macro,
        name: None,
        origin: place(line),
    })?;
    let innermost = Frame {
        kind: FrameKind::Copy,
        name: None,
        origin: place(1),
    };
    OwnFrames::of(alloc, outer, innermost)
}

/// The inner macro's first statement.
fn inner_declaring(alloc: Global) -> Result<TraceItem, OutOfMemory> {
    let mut item = item(alloc, 20)?;
    declare(&mut item, SetKind::A, "G", true, false)?;
    declare(&mut item, SetKind::A, "H", true, false)?;
    Ok(item)
}

/// The inner macro's last statement.
fn inner_setting(alloc: Global) -> Result<TraceItem, OutOfMemory> {
    let mut item = item(alloc, 21)?;
    set(&mut item.globals, "G", 0, SetValue::A(9))?;
    Ok(item)
}

/// The inner macro's node.
fn inner<L: Ledger>(
    alloc: Global,
    arena: &mut TraceArena<TraceItem>,
    steps: &mut Steps<L>,
) -> Result<NodeId, OutOfMemory> {
    let node = arena.begin(alloc)?;
    arena.append(node, inner_declaring(alloc)?, steps)?;
    arena.append(node, inner_setting(alloc)?, steps)?;
    Ok(node)
}

/// What the outer macro is called with.
fn entry(alloc: Global) -> Result<Settings, OutOfMemory> {
    let mut entry = Settings::new(alloc);
    give(alloc, &mut entry, "SYSLIST", 10, "tenth")?;
    give(alloc, &mut entry, "SYSLIST", 2, "second")?;
    give(alloc, &mut entry, "SYSLIST", 0, "")?;
    give(alloc, &mut entry, "P", 0, "first")?;
    Ok(entry)
}

/// The outer macro's first statement.
fn declaring(alloc: Global) -> Result<TraceItem, OutOfMemory> {
    let mut item = item(alloc, 10)?;
    item.entry = entry(alloc)?;
    declare(&mut item, SetKind::A, "I", false, false)?;
    declare(&mut item, SetKind::B, "L", false, true)?;
    Ok(item)
}

/// The outer macro's second statement.
fn setting(alloc: Global) -> Result<TraceItem, OutOfMemory> {
    let mut item = item(alloc, 11)?;
    declare(&mut item, SetKind::A, "H", true, true)?;
    set(&mut item.locals, "I", 0, SetValue::A(5))?;
    set(&mut item.locals, "L", 2, SetValue::B(true))?;
    Ok(item)
}

/// The outer macro's third statement, in a copied member.
fn copied(alloc: Global) -> Result<TraceItem, OutOfMemory> {
    let mut item = item(alloc, 12)?;
    item.frames = copied_frames(alloc, 12)?;
    set(&mut item.globals, "H", 3, SetValue::A(7))?;
    set(&mut item.globals, "H", 1, SetValue::A(-2))?;
    Ok(item)
}

/// The outer macro's node.
fn middle<L: Ledger>(
    alloc: Global,
    arena: &mut TraceArena<TraceItem>,
    child: NodeId,
    steps: &mut Steps<L>,
) -> Result<NodeId, OutOfMemory> {
    let node = arena.begin(alloc)?;
    arena.append(node, declaring(alloc)?, steps)?;
    arena.append(node, setting(alloc)?, steps)?;
    arena.append(node, copied(alloc)?, steps)?;
    arena.append(node, item(alloc, 13)?, steps)?;
    link(arena, node, child)?;
    arena.append(node, item(alloc, 14)?, steps)?;
    Ok(node)
}

/// The first statement of open code.
fn open_declaring(alloc: Global) -> Result<TraceItem, OutOfMemory> {
    let mut item = item(alloc, 1)?;
    declare(&mut item, SetKind::A, "G", true, false)?;
    declare(&mut item, SetKind::C, "T", true, false)?;
    Ok(item)
}

/// The second statement of open code.
fn open_setting(alloc: Global) -> Result<TraceItem, OutOfMemory> {
    let mut item = item(alloc, 2)?;
    set(&mut item.globals, "G", 0, SetValue::A(1))?;
    Ok(item)
}

/// The root.
fn outer<L: Ledger>(
    alloc: Global,
    arena: &mut TraceArena<TraceItem>,
    child: NodeId,
    steps: &mut Steps<L>,
) -> Result<NodeId, OutOfMemory> {
    let root = arena.begin(alloc)?;
    arena.append(root, open_declaring(alloc)?, steps)?;
    arena.append(root, open_setting(alloc)?, steps)?;
    link(arena, root, child)?;
    arena.append(root, item(alloc, 3)?, steps)?;
    link(arena, root, child)?;
    arena.append(root, item(alloc, 4)?, steps)?;
    Ok(root)
}

/// Variables in words.
fn worded(alloc: Global, rows: &Variables) -> Result<String, OutOfMemory> {
    let mut said = String::new(alloc);
    for row in rows.as_slice() {
        if !said.is_empty() {
            said.push_str("; ")?;
        }
        let scope = if row.global { "global" } else { "local" };
        let (name, value) = (row.name.as_str(), row.value.as_str());
        said.push_str(format!(in alloc; "{scope} {name}='{value}'")?.as_str())?;
    }
    if said.is_empty() {
        said.push_str("nothing")?;
    }
    Ok(said)
}

/// The variables of a frame of a point of a root.
fn shown(
    alloc: Global,
    arena: &TraceArena<TraceItem>,
    root: NodeId,
    index: u32,
    frame: u32,
) -> Result<String, OutOfMemory> {
    if !arena.live(root) {
        return Ok(String::from_str(alloc, "no such root")?);
    }
    if index >= arena.points(root) {
        return Ok(String::from_str(alloc, "no such point")?);
    }
    match variables_at(alloc, arena, root, index, frame)? {
        Some(rows) => worded(alloc, &rows),
        None => Ok(String::from_str(alloc, "no such frame")?),
    }
}

/// The same of the trace of this file.
fn show_nested<L: Ledger>(
    alloc: Global,
    index: u32,
    frame: u32,
    blank: Blank,
) -> Result<String, OutOfMemory>
    requires name { blank.name ≡ L.name }
    requires parts { blank.parts ≡ L.parts }
    requires one { blank.parts ≡ 1 }
{
    let mut arena: TraceArena<TraceItem> = TraceArena::new(alloc);
    let mut steps = Steps::<L>::open(blank);
    let nested = inner(alloc, &mut arena, &mut steps)?;
    let called = middle(alloc, &mut arena, nested, &mut steps)?;
    let root = outer(alloc, &mut arena, called, &mut steps)?;
    shown(alloc, &arena, root, index, frame)
}

/// The variables of the frame of a number, of the point of a number.
pub fn answer(alloc: Global, index: &str, frame: &str) -> Result<String, OutOfMemory> {
    let (Ok(index), Ok(frame)) = (index.parse::<u32>(), frame.parse::<u32>()) else {
        return Ok(String::from_str(alloc, "no numbers")?);
    };
    show_nested::<Brand>(alloc, index, frame, Blank::new(1))
}
