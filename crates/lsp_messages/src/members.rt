//! JSON values that are made piece by piece. Each call takes over what was made so far and hands it back with one piece more,
//! or hands back that there was no memory, so that its caller has nothing to let go of, and no way to leave but its end.
ghost use Rattle.std.specs.Prelude.{◌≡◌, [], ◌∷◌, ◌++◌, IfOk, map};
ghost use Rattle.serde_json.specs.Data.{Data, Members, no_members, boolean, number, unsigned, string, object, put};
ghost use Rattle.serde_json.specs.Find.{of_integer};
ghost use Rattle.serde_json.specs.View.{view};
ghost use Rattle.lsp_messages.specs.Made.{HasMade};
ghost use Rattle.lsp_messages.specs.Written.{text_value};

use hl_base::{OutOfMemory, Text};
use serde_json::{Map, Value};
use std::alloc::Global;

/// The members of an object that were made so far, or that there was no memory for one of them.
pub type Made = Result<Map<String, Value>, OutOfMemory>;

/// No members yet.
pub fn no_members(alloc: Global) -> Made
    ensures { HasMade result no_members }
{
    Ok(Map::new(alloc))
}

/// The members with this value at the name.
pub fn with_value(alloc: Global, made: Made, name: &str, value: Value) -> Made
    ensures { (ms : Members) → HasMade made ms → HasMade result (put name.now (view value) ms) }
{
    let mut members = made?;
    serde_json::put(&mut members, alloc, name, value)?;
    Ok(members)
}

/// The members with this value at the name, if there was memory for it.
pub fn with_made(alloc: Global, made: Made, name: &str, value: Result<Value, OutOfMemory>) -> Made
    ensures { (ms : Members) → (d : Data) → HasMade made ms → IfOk value (λ v. view v ≡ d)
        → HasMade result (put name.now d ms) }
{
    let members = made?;
    with_value(alloc, Ok(members), name, value?)
}

/// The members with a copy of this value at the name.
pub fn with_copy(alloc: Global, made: Made, name: &str, value: &Value) -> Made
    ensures { (ms : Members) → HasMade made ms → HasMade result (put name.now (view value.now) ms) }
{
    let members = made?;
    let copy = value.clone()?;
    with_value(alloc, Ok(members), name, copy)
}

/// The members with this word at the name.
pub fn with_word(alloc: Global, made: Made, name: &str, word: &str) -> Made
    ensures { (ms : Members) → HasMade made ms → HasMade result (put name.now (string word.now) ms) }
{
    let members = made?;
    let value = Value::try_from_str(alloc, word)?;
    with_value(alloc, Ok(members), name, value)
}

/// The members with this text at the name.
pub fn with_text(alloc: Global, made: Made, name: &str, text: &Text) -> Made
    ensures { (ms : Members) → HasMade made ms → HasMade result (put name.now (text_value text.now) ms) }
{
    with_word(alloc, made, name, text.as_str())
}

/// The members with this number at the name.
pub fn with_number(alloc: Global, made: Made, name: &str, value: u32) -> Made
    ensures { (ms : Members) → HasMade made ms → HasMade result (put name.now (number (unsigned value)) ms) }
{
    with_value(alloc, made, name, Value::from(value))
}

/// The members with this number, which may be negative, at the name.
pub fn with_integer(alloc: Global, made: Made, name: &str, value: i32) -> Made
    ensures { (ms : Members) → HasMade made ms → HasMade result (put name.now (number (of_integer value)) ms) }
{
    with_value(alloc, made, name, Value::from(value))
}

/// The members with this truth value at the name.
pub fn with_flag(alloc: Global, made: Made, name: &str, value: bool) -> Made
    ensures { (ms : Members) → HasMade made ms → HasMade result (put name.now (boolean value) ms) }
{
    with_value(alloc, made, name, Value::from(value))
}

/// The object of the members.
pub fn object(made: Made) -> Result<Value, OutOfMemory>
    ensures { (ms : Members) → HasMade made ms → IfOk result (λ v. view v ≡ object ms) }
{
    Ok(Value::Object(made?))
}

/// The values with one more behind them, if there was memory for it.
pub fn with_item(
    values: Vec<Value>,
    item: Result<Value, OutOfMemory>,
) -> Result<Vec<Value>, OutOfMemory>
    ensures { (d : Data) → IfOk item (λ v. view v ≡ d)
        → IfOk result (λ more. map view more.items ≡ map view values.items ++ d ∷ []) }
{
    let mut more = values;
    more.push(item?)?;
    Ok(more)
}
