//! Values from bytes and back.
ghost use Rattle.std.specs.Prelude.{◌≡◌, ◌≤◌, false, Some, None, Err, IfOk};
ghost use Rattle.serde_json.specs.Data.{depth};
ghost use Rattle.serde_json.specs.Read.{max_depth};
ghost use Rattle.serde_json.specs.View.{view};
ghost use Rattle.serde_json.specs.Written.{compact_text, has_float};
ghost use Rattle.json_view.specs.Texts.{reading};

use hl_base::OutOfMemory;
use serde_json::Value;
use std::alloc::Global;
use thiserror::Error;

/// Why there is no value of some bytes.
#[derive(Clone, Copy, Debug, PartialEq, Eq, Error)]
pub enum ParseFault {
    /// The bytes are no JSON text in UTF-8 of at most 127 levels.
    #[error("no JSON text")]
    NotJson,

    /// There was no memory for the value.
    #[error("out of memory")]
    OutOfMemory,
}

/// The value that bytes are.
pub fn parse(alloc: Global, bytes: &[u8]) -> Result<Value, ParseFault>
    ensures ok { IfOk result (λ v. reading bytes.now ≡ Some (view v)) }
    ensures refused { result ≡ Err ParseFault.NotJson → reading bytes.now ≡ None }
    ensures levels { IfOk result (λ v. depth (view v) ≤ max_depth) }
{
    match Value::from_slice(alloc, bytes) {
        Ok(value) => Ok(value),
        Err(refused) if refused.is_memory() => Err(ParseFault::OutOfMemory),
        Err(_) => Err(ParseFault::NotJson),
    }
}

/// The text of a value without blanks, in UTF-8, members in the order of the bytes of their names.
pub fn compact(alloc: Global, v: &Value) -> Result<Vec<u8>, OutOfMemory>
    // The digits of a float are free but for what they read as.
    ensures text { IfOk result (λ text. has_float (view v.now) ≡ false
        → text.items ≡ compact_text (view v.now)) }
    ensures reads_back { IfOk result (λ text. depth (view v.now) ≤ max_depth
        → reading text.items ≡ Some (view v.now)) }
{
    Ok(v.to_string(alloc)?.into_bytes())
}
