//! The rules on keys.
ghost use Rattle.std.specs.Prelude.{◌≡◌, IfOk};
ghost use Rattle.kept_values.specs.Keys.{key_tree};
ghost use Rattle.call_sites.specs.Values.{known_tree};
ghost use Rattle.call_sites.specs.Rules.{is_moving, is_writable, rebased, taken_back};

use crate::Known;
use hl_base::{Answer, Key, OutOfMemory};
use kept_values::Kept;
use std::alloc::Global;

/// Whether counting and entering calls may change the answer to a key.
pub fn is_moving(key: &Key) -> bool
    ensures { result ≡ is_moving (key_tree key.now) }
{
    matches!(key, Key::Nest | Key::Counter)
}

/// Whether a statement may give a key an answer.
pub fn is_writable(key: &Key) -> bool
    ensures { result ≡ is_writable (key_tree key.now) }
{
    matches!(
        key,
        Key::Global(_, _, _) | Key::Op(_) | Key::Sym(_) | Key::Sect
    )
}

/// A number of 32 bits less so many, going round; what is no number stays.
fn taken_back(alloc: Global, value: &Known, less: u32) -> Result<Known, OutOfMemory>
    ensures { IfOk result (λ v. known_tree v ≡ taken_back (known_tree value.now) less) }
{
    match value {
        Known::Plain(Answer::Number(number)) => {
            let bits = number.cast_unsigned().wrapping_sub(less);
            Ok(Known::Plain(Answer::Number(bits.cast_signed())))
        }
        _ => value.copy(alloc),
    }
}

/// The answer to a key just within a nested call, as of the start of its caller, which had counted so many calls by then,
/// the nested one included.
pub fn rebased(alloc: Global, key: &Key, value: &Known, calls: u32) -> Result<Known, OutOfMemory>
    ensures { IfOk result (λ v. known_tree v ≡ rebased (key_tree key.now) (known_tree value.now) calls) }
{
    match key {
        Key::Counter => taken_back(alloc, value, calls),
        Key::Nest => taken_back(alloc, value, 1),
        _ => value.copy(alloc),
    }
}
