//! Literals in operands of machine instructions.
use hl_base::OutOfMemory;
use literal_operands::literal_operand;
use std::alloc::Global;

/// The literal in an operand, and what stands behind it.
pub fn literal(alloc: Global, operand: &str) -> Result<String, OutOfMemory> {
    let Some(found) = literal_operand(alloc, operand)? else {
        return Ok(String::from_str(alloc, "none")?);
    };
    let mut words = String::from_str(alloc, found.text)?;
    if !found.behind.is_empty() {
        words.push_str(" before ")?;
        words.push_str(found.behind)?;
    }
    if found.constant.constant.is_none() {
        words.push_str(", unread")?;
    }
    Ok(words)
}
