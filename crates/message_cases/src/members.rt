//! The member `x` of a value, as each kind.
use crate::json::{no_json, value};
use hl_base::OutOfMemory;
use json_view::{
    MemberFault, need_int, need_list, need_object, need_text, need_uint, opt_bool, opt_list,
    opt_object, opt_text, opt_uint,
};
use serde_json::Value;
use std::alloc::{AllocError, Global};
use std::fmt::Display;

/// An answer in words: `?` where the member is missing, `-` where it is of another kind.
fn told<T: Display + Drop>(
    alloc: Global,
    answer: Result<T, MemberFault>,
) -> Result<String, AllocError> {
    match answer {
        Ok(value) => format!(in alloc; "{value}"),
        Err(MemberFault::Missing) => String::from_str(alloc, "?"),
        Err(MemberFault::WrongKind) => String::from_str(alloc, "-"),
    }
}

/// The same, with `none` where a member that may be missing is.
fn told_if<T: Display + Drop>(
    alloc: Global,
    answer: Result<Option<T>, MemberFault>,
) -> Result<String, AllocError> {
    match answer {
        Ok(Some(value)) => format!(in alloc; "{value}"),
        Ok(None) => String::from_str(alloc, "none"),
        Err(fault) => told::<u8>(alloc, Err(fault)),
    }
}

/// How many items a list has that is needed.
fn count(value: &Value) -> Result<usize, MemberFault> {
    Ok(need_list(value, "x")?.len())
}

/// How many items a list has that may be missing.
fn count_if(value: &Value) -> Result<Option<usize>, MemberFault> {
    match opt_list(value, "x")? {
        Some(items) => Ok(Some(items.len())),
        None => Ok(None),
    }
}

/// What the calls that need the member answer: text, unsigned, signed, object, list.
fn needed(alloc: Global, value: &Value) -> Result<String, AllocError> {
    let text = told(alloc, need_text(value, "x"))?;
    let unsigned = told(alloc, need_uint(value, "x"))?;
    let signed = told(alloc, need_int(value, "x"))?;
    let object = told(alloc, need_object(value, "x"))?;
    let list = told(alloc, count(value))?;
    format!(in alloc; "{text} {unsigned} {signed} {object} {list}")
}

/// What the calls for which it may be missing answer: text, unsigned, object, list, truth value.
fn optional(alloc: Global, value: &Value) -> Result<String, AllocError> {
    let text = told_if(alloc, opt_text(value, "x"))?;
    let unsigned = told_if(alloc, opt_uint(value, "x"))?;
    let object = told_if(alloc, opt_object(value, "x"))?;
    let list = told_if(alloc, count_if(value))?;
    let truth = told_if(alloc, opt_bool(value, "x"))?;
    format!(in alloc; "{text} {unsigned} {object} {list} {truth}")
}

/// What all these calls answer.
pub fn answers(alloc: Global, text: &str) -> Result<String, OutOfMemory> {
    match value(alloc, text.as_bytes())? {
        Some(value) => {
            let (needed, optional) = (needed(alloc, &value)?, optional(alloc, &value)?);
            Ok(format!(in alloc; "{needed}; {optional}")?)
        }
        None => no_json(alloc),
    }
}
