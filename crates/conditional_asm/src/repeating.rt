//! Notes that are said once.
ghost use Rattle.std.specs.Prelude.{◌≡◌, ◌++◌, ◌∷◌, [], IfOk, OnOk, if◌then◌else◌};
ghost use Rattle.std.specs.List.{list_any};
ghost use Rattle.conditional_asm.specs.Repeating as said;

use hl_base::{Note, Notes, OutOfMemory};
use std::alloc::Global;

/// The note that a symbol has no length attribute.
const NOT_DEFINED: u16 = 24;

/// Whether two notes say that a symbol has no length attribute, in the same words.
fn says_again(earlier: &Note, note: &Note) -> bool
    ensures { result ≡ said.repeats earlier.now note.now }
{
    earlier.code == NOT_DEFINED
        && note.code == NOT_DEFINED
        && earlier.text.as_str() == note.text.as_str()
}

/// Whether a note was given already.
fn is_given(given: &[Note], note: &Note) -> bool
    ensures { result ≡ list_any (λ earlier. said.repeats earlier note.now) given.now }
{
    given.iter().any(|earlier| says_again(earlier, note))
}

/// Adds a note behind others, unless one of them said it already.
fn keep(alloc: Global, left: &mut Notes, note: &Note) -> Result<(), OutOfMemory>
    ensures { OnOk result (left.new ≡ (if list_any (λ earlier. said.repeats earlier note.now) left.old then left.old else left.old ++ note.now ∷ [])) }
{
    if is_given(left.as_slice(), note) {
        return Ok(());
    }
    left.push(note.copy(alloc)?)?;
    Ok(())
}

/// The notes without those that say again that a symbol has no length attribute.
pub fn once(alloc: Global, notes: &Notes) -> Result<Notes, OutOfMemory>
    ensures { IfOk result (λ left. left ≡ said.once notes.now) }
{
    let mut left = Notes::new(alloc);
    for note in notes.as_slice() {
        keep(alloc, &mut left, note)?;
    }
    Ok(left)
}
