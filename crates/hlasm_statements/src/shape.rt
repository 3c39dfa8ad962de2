//! The shape of a statement by its first line.
ghost use Rattle.std.specs.Prelude.{◌≡◌, ◌==◌, ◌&&◌, slice_index};
ghost use Rattle.std.specs.Str.{chars};
ghost use Rattle.hlasm_statements.specs.Reading as reading;

use crate::Shape;

/// The shape of a statement by its first line: plain where that is no comment.
pub fn opening(line: &str) -> Shape
    ensures { result ≡ reading.opening_of (chars line.now) }
{
    let bytes = line.as_bytes();
    if begins_comment(bytes) {
        Shape::Comment
    } else if begins_inner_comment(bytes) {
        Shape::InnerComment
    } else {
        Shape::Plain
    }
}

fn begins_comment(bytes: &[u8]) -> bool
    ensures { result ≡ (slice_index bytes.now 0 == 42) }
{
    !bytes.is_empty() && bytes[0] == b'*'
}

fn begins_inner_comment(bytes: &[u8]) -> bool
    ensures { result ≡ (slice_index bytes.now 0 == 46) && (slice_index bytes.now 1 == 42) }
{
    bytes.len() > 1 && bytes[0] == b'.' && bytes[1] == b'*'
}
