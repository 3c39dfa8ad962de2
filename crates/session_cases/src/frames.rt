//! Frames with the bodies that have names.
use crate::bodies::{heard, written};
use std::alloc::{AllocError, Global};

/// Adds a body in its frame.
fn push_frame(alloc: Global, bytes: &mut Vec<u8>, body: &str) -> Result<(), AllocError> {
    let header = format!(in alloc; "Content-Length: {}\r\n\r\n", body.len())?;
    bytes.extend_from_slice(header.as_str().as_bytes())?;
    bytes.extend_from_slice(body.as_bytes())
}

/// The bodies of the names, each in its frame.
pub fn framed(alloc: Global, names: &str) -> Result<Vec<u8>, AllocError> {
    let mut bytes = Vec::new(alloc);
    if names.is_empty() {
        return Ok(bytes);
    }
    for name in names.split("; ") {
        push_frame(alloc, &mut bytes, heard(name))?;
    }
    Ok(bytes)
}

/// The body of the frame at the front of a text, and what stands behind it. The length of a body is written without a sign and
/// without leading zeros.
fn front_body(text: &str) -> Option<(&str, &str)> {
    let (digits, behind) = text
        .strip_prefix("Content-Length: ")?
        .split_once("\r\n\r\n")?;
    if digits.starts_with('0') || digits.starts_with('+') {
        return None;
    }
    behind.split_at_checked(digits.parse::<usize>().ok()?)
}

/// Adds a part behind the others, with a semicolon between them.
pub fn push_part(said: &mut String, part: &str) -> Result<(), AllocError> {
    if !said.is_empty() {
        said.push_str("; ")?;
    }
    said.push_str(part)
}

/// Adds the names of the bodies in the frames that a text begins with, and answers what stands behind the frames.
fn push_bodies<'a>(said: &mut String, text: &'a str) -> Result<&'a str, AllocError> {
    let mut rest = text;
    for _ in 0..text.len() {
        match front_body(rest) {
            Some((body, behind)) => {
                push_part(said, written(body))?;
                rest = behind;
            }
            None => break,
        }
    }
    Ok(rest)
}

/// The names of the bodies in the frames of some bytes; last, behind `cut`, what is less than a frame.
pub fn named(alloc: Global, bytes: &[u8]) -> Result<String, AllocError> {
    let text = String::from_utf8_lossy(alloc, bytes)?;
    let mut said = String::new(alloc);
    let rest = push_bodies(&mut said, text.as_str())?;
    if !rest.is_empty() {
        push_part(&mut said, "cut ")?;
        said.push_str(rest)?;
    }
    Ok(said)
}
