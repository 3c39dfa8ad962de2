//! How many frames stand round a point.
ghost use Rattle.std.specs.Prelude.{◌≡◌, ◌+◌, ◌≤◌, length, min};
ghost use Rattle.trace_arena.specs.Points.{last_before};
ghost use Rattle.trace_cursor.specs.Stacks.{frames_in, counted};

use trace_values::TraceItem;

/// So many frames more, as far as 32 bits count them.
pub(crate) fn more_frames(outer: u32, frames: usize) -> u32
    ensures { result ≡ counted (outer + frames) }
{
    match u32::try_from(frames) {
        Ok(frames) => outer.saturating_add(frames),
        Err(_) => u32::MAX,
    }
}

/// How many items a node is linked behind that so many items stand before: the last of them, if there is one.
pub(crate) fn calls_before(at: usize) -> u32
    ensures { result ≡ min at 1 }
{
    u32::from(at > 0)
}

/// The frames of the last of so many items, behind which a node is linked.
pub(crate) fn frames_before(items: &[TraceItem], at: usize) -> usize
    requires { at ≤ length items.now }
    ensures { result ≡ length (frames_in (last_before at items.now)) }
{
    if at == 0 {
        return 0;
    }
    items[at - 1].frames.count()
}
