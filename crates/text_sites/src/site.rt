//! Texts of the pool, as an editor is shown places in them.
ghost use Rattle.std.specs.Prelude.{◌≡◌};
ghost use Rattle.std.specs.Str.{chars};
ghost use Rattle.document_store.specs.Positions.{line_of};
ghost use Rattle.text_pool.specs.Pool.{IsLive, text_of};
ghost use Rattle.text_sites.specs.Sites.{no_site};
ghost use Rattle.text_sites.specs.Spans as spans;

use hl_base::{Position, Text, TextId, units};
use hlasm_statements::split_columns;
use lsp_messages::Span;
use std::alloc::Global;
use std::marker::Model;
use text_pool::TextPool;

/// The columns of a line that are shown: those of statements.
const SHOWN_COLUMNS: u32 = 71;

/// A live text of the pool.
#[derive(Clone, Copy)]
struct PoolText<'a> {
    pool: &'a TextPool,
    id: TextId,
}

/// A text and the URI under which the client knows it. The pool keeps where its lines begin, so that the text is not gone
/// through. Contracts see the site.
#[derive(Drop)]
pub struct TextSite<'a> {
    uri: Text,
    // None stands for a text that is not there: it is empty.
    text: Option<PoolText<'a>>,
}

impl<'a> Model for TextSite<'a> {
    ghost use Rattle.text_sites.specs.Kept.{text_in, IsThere};
    ghost use Rattle.text_sites.specs.Sites.{Site};

    ghost Value = { Site };

    ghost view = { λ s. record { uri = s.uri; text = text_in s.text } };

    ghost invariant = { λ s. IsThere s.text };
}

/// How wide what stands before a column of a line is in UTF-16 units, of the columns that are shown.
fn width_before(line: &str, column: u32) -> u32
    ensures { result ≡ spans.width_before (chars line.now) column }
{
    let before = column.saturating_sub(1).min(SHOWN_COLUMNS);
    units(split_columns(line, before as usize).0) as u32
}

impl<'a> PoolText<'a> {
    /// A line, counted from 0; empty past the last.
    fn line(&self, line: u32) -> &str
        requires live { IsLive self.now.pool.now self.now.id.0 }
        ensures { chars result.now ≡ line_of (text_of self.now.pool.now self.now.id.0) line }
    {
        match self.pool.line(self.id, line) {
            Some(found) => found,
            None => "",
        }
    }
}

impl<'a> TextSite<'a> {
    /// A live text of the pool that has this URI.
    pub fn of(uri: Text, pool: &'a TextPool, id: TextId) -> TextSite<'a>
        requires live { IsLive pool.now id.0 }
        ensures { result ≡ record { uri = uri; text = text_of pool.now id.0 } }
    {
        TextSite {
            uri,
            text: Some(PoolText { pool, id }),
        }
    }

    /// The empty text, without a URI: what stands for a text that is not there.
    pub fn none(alloc: Global) -> TextSite<'a>
        ensures { result ≡ no_site }
    {
        TextSite {
            uri: Text::new(alloc),
            text: None,
        }
    }

    /// The URI.
    pub fn uri(&self) -> &Text
        ensures { result.now ≡ self.now.uri }
    {
        &self.uri
    }

    /// A line, counted from 0; empty past the last.
    fn line(&self, line: u32) -> &str
        ensures { chars result.now ≡ line_of self.now.text line }
    {
        match &self.text {
            Some(kept) => kept.line(line),
            None => "",
        }
    }

    /// From one column of a line up to another, both counted from 1. Columns behind the 71st are not shown.
    pub fn span(&self, line: u32, from: u32, to: u32) -> Span
        ensures { result ≡ spans.span_of self.now.text line from to }
    {
        let text = self.line(line);
        Span {
            start: Position {
                line,
                character: width_before(text, from),
            },
            end: Position {
                line,
                character: width_before(text, to),
            },
        }
    }

    /// The shown columns of a line.
    pub fn line_span(&self, line: u32) -> Span
        ensures { result ≡ spans.line_span self.now.text line }
    {
        self.span(line, 1, SHOWN_COLUMNS + 1)
    }
}
