//! Points of nested nodes, and a walk through them.
ghost use Rattle.std.specs.Prelude.{◌≡◌};
ghost use Rattle.trace_arena.specs.Nodes.{IsLive};

use hl_base::{
    Declarations, Frame, FrameKind, Frames, Ledger, Notes, Origin, OutOfMemory, PathId, Steps,
};
use std::alloc::Global;
use std::marker::Brand;
use std::mem::size_of;
use std::sync::ledger::Blank;
use trace_arena::{NodeId, TraceArena};
use trace_cursor::Cursor;
use trace_values::{OwnFrames, Settings, TraceItem};

/// More than the points of any row.
const MANY: u32 = 100;

/// An item of a macro's statement in a line.
pub(crate) fn item(alloc: Global, line: u32) -> Result<TraceItem, OutOfMemory> {
    let origin = Origin {
        path: PathId(0),
        line,
    };
    let innermost = Frame {
        kind: FrameKind::Macro,
        name: None,
        origin,
    };
    Ok(TraceItem {
        frames: OwnFrames::of(alloc, Frames::new(alloc), innermost)?,
        definition: None,
        called: None,
        entry: Settings::new(alloc),
        locals: Settings::new(alloc),
        declared: Declarations::new(alloc),
        globals: Settings::new(alloc),
        line: None,
        notes: Notes::new(alloc),
    })
}

/// A node of an item, the point of another node and an item: how many points and how many items were made, and how many
/// points stand before the link.
fn count_points<L: Ledger>(alloc: Global, blank: Blank) -> Result<String, OutOfMemory>
    requires name { blank.name ≡ L.name }
    requires parts { blank.parts ≡ L.parts }
    requires one { blank.parts ≡ 1 }
{
    let mut arena: TraceArena<u32> = TraceArena::new(alloc);
    let mut steps = Steps::<L>::open(blank);
    let parent = arena.begin(alloc)?;
    let child = arena.begin(alloc)?;
    arena.append(child, 7, &mut steps)?;
    arena.append(parent, 5, &mut steps)?;
    arena.link(parent, child)?;
    arena.append(parent, 6, &mut steps)?;
    let before = match arena.links(parent) {
        [link] => link.before,
        _ => 0,
    };
    let (points, made) = (arena.points(parent), arena.made());
    Ok(format!(in alloc; "{points} points; {made} items; {before} before the link")?)
}

/// The lines and depths of the points of a root.
fn walk(alloc: Global, arena: &TraceArena<TraceItem>, root: NodeId) -> Result<String, OutOfMemory>
    requires { IsLive arena.now.nodes root.0 }
{
    let mut said = String::new(alloc);
    let Some(mut cursor) = Cursor::at(arena, root, 0) else {
        return Ok(said);
    };
    for _ in 0..MANY {
        let (line, depth) = (cursor.origin(arena).line, cursor.depth(arena));
        said.push_str(format!(in alloc; "{line} at depth {depth}; ")?.as_str())?;
        if !cursor.advance(arena) {
            said.push_str("no more")?;
            break;
        }
    }
    Ok(said)
}

/// A walk through a root with a node that is linked twice, and a search behind its last point.
fn walk_twice<L: Ledger>(alloc: Global, blank: Blank) -> Result<String, OutOfMemory>
    requires name { blank.name ≡ L.name }
    requires parts { blank.parts ≡ L.parts }
    requires one { blank.parts ≡ 1 }
{
    let mut arena: TraceArena<TraceItem> = TraceArena::new(alloc);
    let mut steps = Steps::<L>::open(blank);
    let child = arena.begin(alloc)?;
    arena.append(child, item(alloc, 10)?, &mut steps)?;
    arena.append(child, item(alloc, 11)?, &mut steps)?;
    let root = arena.begin(alloc)?;
    arena.append(root, item(alloc, 1)?, &mut steps)?;
    arena.link(root, child)?;
    arena.link(root, child)?;
    arena.append(root, item(alloc, 2)?, &mut steps)?;
    let mut said = walk(alloc, &arena, root)?;
    let is_behind = Cursor::at(&arena, root, 6).is_some();
    said.push_str(format!(in alloc; "; a seventh point: {is_behind}")?.as_str())?;
    Ok(said)
}

/// What is counted of a node of an item, the point of another node and an item.
pub fn counted(alloc: Global) -> Result<String, OutOfMemory> {
    count_points::<Brand>(alloc, Blank::new(1))
}

/// What a walk through a root comes by.
pub fn walked(alloc: Global) -> Result<String, OutOfMemory> {
    walk_twice::<Brand>(alloc, Blank::new(1))
}

/// Whether an item takes at most 300 bytes.
pub fn item_bytes(alloc: Global) -> Result<String, OutOfMemory> {
    let bytes = size_of::<TraceItem>();
    if bytes <= 300 {
        return Ok(String::from_str(alloc, "at most 300")?);
    }
    Ok(format!(in alloc; "{bytes}")?)
}
