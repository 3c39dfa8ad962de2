//! Changes of a text, one after another.
ghost use Rattle.std.specs.Prelude.{◌≡◌, ◌+◌, ◌<◌, ◌≤◌, ◌^◌, ◌++◌, ℕ, length, IfOk, OnOk};
ghost use Rattle.std.specs.Str.{chars};
ghost use Rattle.std.specs.String.{string_bytes, string_len};
ghost use Rattle.document_store.specs.Edits as changes;
ghost use Rattle.std.specs.Option.{option_map};
ghost use Rattle.document_store.specs.Parts.{text_in, IsBeforeLine, position_behind, first_line_of, LeavesParts};
ghost use Rattle.document_store.specs.Places.{GivesText, IsBadRange};

use crate::StoreFault;
use crate::place::span_of;
use crate::seeking::{line_start, seek, settle};
use crate::split_text::SplitText;
use hl_base::{Edit, Position};
use std::alloc::Global;
use text_pool::LONGEST_TEXT;

/// Whether the start of a change lies behind its end.
fn is_backward(edit: &Edit) -> bool
    ensures { result ≡ changes.is_backward edit.now.from edit.now.to }
{
    match (edit.from, edit.to) {
        (Some(from), Some(to)) => {
            from.line > to.line || (from.line == to.line && from.character > to.character)
        }
        _ => false,
    }
}

/// The refusal of the change of a number; none where the number has more than 32 bits.
fn bad_range(number: usize) -> StoreFault
    ensures { IsBadRange number result }
{
    match u32::try_from(number) {
        Ok(number) => StoreFault::BadRange(number),
        Err(_) => StoreFault::OutOfMemory,
    }
}

/// A position counted from a later line on.
fn position_behind(at: Option<Position>, line: u32) -> Option<Position>
    ensures { result ≡ option_map (position_behind line) at }
{
    match at {
        Some(at) => Some(Position {
            line: at.line.saturating_sub(line),
            character: at.character,
        }),
        None => None,
    }
}

/// The first line that a change speaks of.
fn first_line_of(from: Option<Position>) -> u32
    ensures { result ≡ first_line_of from }
{
    match from {
        Some(at) => at.line,
        None => 0,
    }
}

/// Makes the change of a number in a text that is split before a line, and answers the line before which it is split then.
/// After an `Err` the text is not to be used.
fn make_edit(
    alloc: Global,
    text: &mut SplitText,
    line: u32,
    number: usize,
    edit: &Edit,
) -> Result<u32, StoreFault>
    requires before { IsBeforeLine line text.old }
    requires short { length text.old.front + length text.old.back ≤ LONGEST_TEXT }
    ensures given { LeavesParts (changes.after_edit (text_in text.old) number edit.now) result text.new }
    ensures before { IfOk result (λ next. IsBeforeLine next text.new) }
    ensures short { OnOk result (length text.new.front + length text.new.back ≤ LONGEST_TEXT) }
{
    if is_backward(edit) {
        return Err(bad_range(number));
    }
    let line = seek(text, line, first_line_of(edit.from));
    let span = span_of(
        text.back(),
        position_behind(edit.from, line),
        position_behind(edit.to, line),
    );
    let kept = text.front().len() + (text.back().len() - (span.end - span.start));
    let middle = edit.text.as_str();
    if middle.len() > LONGEST_TEXT - kept {
        return Err(StoreFault::TextTooLong);
    }
    text.replace(alloc, span.start, span.end, middle)?;
    Ok(settle(text, line))
}

/// How many bytes these changes put into a text.
fn room_for(edits: &[Edit]) -> usize
    ensures { result ≤ LONGEST_TEXT }
{
    let mut room: usize = 0;
    for edit in edits {
        room = room.saturating_add(edit.text.as_str().len());
    }
    room.min(LONGEST_TEXT)
}

/// The first line that the first of these changes speaks of.
fn first_line(edits: &[Edit]) -> u32 {
    match edits.first() {
        Some(edit) => first_line_of(edit.from),
        None => 0,
    }
}

/// The text after these changes in turn, each made in the one copy, where the one before was made. The first that is refused
/// refuses all.
pub fn after_edits(alloc: Global, text: &str, edits: &[Edit]) -> Result<String, StoreFault>
    requires { length text.now ≤ LONGEST_TEXT }
    ensures given { GivesText (changes.after_edits edits.now 0 (chars text.now)) result }
    ensures short { IfOk result (λ t. string_len t ≤ LONGEST_TEXT) }
{
    let first = line_start(text, first_line(edits));
    let (front, back) = text.split_at(first.at);
    let mut changed = SplitText::new(alloc, front, room_for(edits), back)?;
    let mut line = first.line;
    for (index, edit) in edits.iter().enumerate() {
        line = make_edit(alloc, &mut changed, line, index, edit)?;
    }
    Ok(changed.joined())
}
