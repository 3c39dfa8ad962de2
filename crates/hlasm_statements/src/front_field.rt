//! How far the operand field goes at the front of a text, where that is seen byte by byte.
ghost use Rattle.std.specs.Prelude.{◌≡◌, ◌<◌, not, ◌&&◌, ◌||◌, ◌==◌, ℕ, Bool, List, [], ◌∷◌, IfSome, nat_lt, if◌then◌else◌};
ghost use Rattle.std.specs.Char.{to_ascii_uppercase};
ghost use Rattle.hl_base.specs.Quoting as quoting;
ghost use Rattle.hlasm_statements.specs.Columns as columns;
ghost use Rattle.hlasm_statements.specs.Fields as fields;
ghost use Rattle.hlasm_statements.specs.Reading as reading;
ghost use Rattle.hlasm_statements.specs.Reading.{IsSeen, IsFrontField};

use hl_base::names_attribute;

/// An operand field at the front of a text: how many characters it has, of which each is a byte.
#[derive(Clone, Copy)]
pub struct FrontField {
    pub count: usize,
    pub ends_in_comma: bool,
}

/// What some bytes of an operand field leave for the next one, where no apostrophe of them may be an attribute's.
#[derive(Clone, Copy)]
struct Sight {
    is_quoted: bool,
    depth: u32,
    last: u8,
}

/// Whether a byte is ASCII and stands behind the parentheses there: no blank, no apostrophe and no parenthesis.
#[inline(always)]
fn is_plain(byte: u8) -> bool
    ensures { result ≡ reading.is_plain byte }
{
    byte > b')' && byte < 128
}

impl Sight {
    /// Before the first byte.
    fn new() -> Sight
        ensures { IsSeen result [] }
    {
        Sight {
            is_quoted: false,
            depth: 0,
            last: 0,
        }
    }

    /// Whether a byte is a blank that ends the field.
    #[inline(always)]
    fn is_end(self, keeps_groups: bool, byte: u8) -> bool
        ensures { result ≡ (columns.is_blank byte && not (self.is_quoted || (nat_lt 0 self.depth && keeps_groups))) }
    {
        (byte == b' ' || byte == b'\t') && !(self.is_quoted || self.depth > 0 && keeps_groups)
    }

    /// What a byte that goes on with the field leaves, where that is easy to see.
    #[inline(always)]
    fn behind(self, byte: u8) -> Option<Sight>
        ensures ascii { IfSome result (λ next. byte < 128) }
        ensures seen { IfSome result (λ next. (before : List ℕ) → IsSeen self before → IsSeen next (byte ∷ before)) }
    {
        if is_plain(byte) {
            return Some(Sight {
                is_quoted: self.is_quoted,
                depth: self.depth,
                last: byte,
            });
        }
        if byte >= 128 || self.is_unclear(byte) {
            return None;
        }
        Some(Sight {
            is_quoted: self.quoted_behind(byte),
            depth: self.depth_behind(byte)?,
            last: byte,
        })
    }

    /// Whether a byte is an apostrophe that may be an attribute's.
    #[inline(always)]
    fn is_unclear(self, byte: u8) -> bool
        ensures { result ≡ (not self.is_quoted && ((byte == 39) && quoting.names_attribute (to_ascii_uppercase self.last))) }
    {
        !self.is_quoted
            && byte == b'\''
            && names_attribute(char::from(self.last).to_ascii_uppercase())
    }

    #[inline(always)]
    fn quoted_behind(self, byte: u8) -> bool
        ensures { result ≡ (if self.is_quoted then not (byte == 39) else (byte == 39)) }
    {
        if self.is_quoted {
            byte != b'\''
        } else {
            byte == b'\''
        }
    }

    #[inline(always)]
    fn depth_behind(self, byte: u8) -> Option<u32>
        ensures { IfSome result (λ n. n ≡ (if self.is_quoted then self.depth else quoting.depth_outside self.depth byte)) }
    {
        if self.is_quoted {
            return Some(self.depth);
        }
        match byte {
            b'(' => self.depth.checked_add(1),
            b')' => Some(self.depth.saturating_sub(1)),
            _ => Some(self.depth),
        }
    }
}

/// The operand field at the front of a text, where that is easy to see: a blank ends it, it is ASCII, and none of its
/// apostrophes may be an attribute's. In the alternate format no comma is last.
pub fn front_field(bytes: &[u8], keeps_groups: bool, alternate: bool) -> Option<FrontField>
    ensures { IfSome result (λ field. IsFrontField alternate keeps_groups bytes.now field) }
{
    let mut sight = Sight::new();
    let mut count = 0;
    while count < bytes.len() {
        let byte = bytes[count];
        if !is_plain(byte) && sight.is_end(keeps_groups, byte) {
            let ends_in_comma = sight.last == b',';
            if alternate && ends_in_comma {
                return None;
            }
            return Some(FrontField {
                count,
                ends_in_comma,
            });
        }
        sight = sight.behind(byte)?;
        count += 1;
    }
    None
}
