//! Whether two definitions say the same at the same places.
use crate::listings::{members, read_placed};
use crate::words::word;
use hl_base::OutOfMemory;
use macro_library::{Def, DefFault, read_definition};
use std::alloc::Global;

/// The definition that is written so, with its members, where it has no fault.
fn definition(alloc: Global, fields: &[String]) -> Result<Option<Def>, OutOfMemory> {
    let Some((written, told)) = fields.split_first() else {
        return Ok(None);
    };
    let placed = read_placed(alloc, written.as_str())?;
    let members = members(alloc, told)?;
    match read_definition(alloc, &placed.list, placed.start, &members) {
        Ok(definition) => Ok(Some(definition)),
        Err(DefFault::OutOfMemory) => Err(OutOfMemory),
        Err(_) => Ok(None),
    }
}

/// Whether they are the same, and whether their numbers are.
fn compared(alloc: Global, one: &Def, other: &Def) -> Result<String, OutOfMemory> {
    let content = if one.same(other) { "same" } else { "different" };
    let numbers = if one.number() == other.number() {
        "one number"
    } else {
        "two numbers"
    };
    Ok(format!(in alloc; "{content}, {numbers}")?)
}

/// The same of the definitions that are written before and behind the field `and`, or `refused` where one has a fault.
pub fn comparisons(alloc: Global, fields: &[String]) -> Result<String, OutOfMemory> {
    let Some(place) = fields.iter().position(|field| field.as_str() == "and") else {
        return word(alloc, "of one definition");
    };
    let one = definition(alloc, &fields[..place])?;
    let other = definition(alloc, &fields[place + 1..])?;
    match (one, other) {
        (Some(one), Some(other)) => compared(alloc, &one, &other),
        _ => word(alloc, "refused"),
    }
}
