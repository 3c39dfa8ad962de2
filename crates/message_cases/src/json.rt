//! Values that are read and written again.
use hl_base::OutOfMemory;
use json_view::{ParseFault, compact, parse};
use serde_json::Value;
use std::alloc::{AllocError, Global};

/// The value of bytes; `None` where they are no JSON.
pub fn value(alloc: Global, bytes: &[u8]) -> Result<Option<Value>, OutOfMemory> {
    match parse(alloc, bytes) {
        Ok(value) => Ok(Some(value)),
        Err(ParseFault::NotJson) => Ok(None),
        Err(ParseFault::OutOfMemory) => Err(OutOfMemory),
    }
}

/// What is answered where bytes are no JSON.
pub fn no_json(alloc: Global) -> Result<String, OutOfMemory> {
    Ok(String::from_str(alloc, "no JSON")?)
}

/// What is written of a value.
pub fn written_value(alloc: Global, value: &Value) -> Result<String, OutOfMemory> {
    Ok(String::from_utf8_lossy(alloc, compact(alloc, value)?.as_slice())?)
}

/// What is written of what is read.
pub fn written(alloc: Global, bytes: &[u8]) -> Result<String, OutOfMemory> {
    match value(alloc, bytes)? {
        Some(value) => written_value(alloc, &value),
        None => no_json(alloc),
    }
}

/// Bytes that are written as hexadecimal numbers with blanks between them.
fn bytes_of(alloc: Global, numbers: &str) -> Result<Vec<u8>, AllocError> {
    let mut bytes = Vec::new(alloc);
    for number in numbers.split(' ') {
        bytes.push(u8::from_str_radix(number, 16).unwrap_or(0))?;
    }
    Ok(bytes)
}

/// The same of bytes that are written as hexadecimal numbers.
pub fn written_bytes(alloc: Global, numbers: &str) -> Result<String, OutOfMemory> {
    written(alloc, bytes_of(alloc, numbers)?.as_slice())
}
