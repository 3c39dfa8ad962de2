//! Where names stand in the text.
ghost use Rattle.std.specs.Prelude.{◌<◌, length};
ghost use Rattle.hlasm_statements.specs.Statements.{places};
ghost use Rattle.statement_names.specs.Spans.{IsSpan};

use crate::name::WrittenName;
use hlasm_statements::Statement;

/// The column behind the last one that has text.
const MARGIN: u32 = 72;

/// Some characters of a line: the line, from 0, the column of the first of them, from 1, and the column behind the last.
#[derive(Clone, Copy, Debug, PartialEq, Eq)]
pub struct Span {
    pub line: u32,
    pub from: u32,
    pub to: u32,
}

/// Where a name of a statement stands: where its first character does, with as many columns as it has characters, column 71
/// at the latest. Of what does not stand in the statement the answer is of no use.
pub fn span_of(statement: &Statement, name: &WrittenName) -> Span
    ensures { name.now.at < length (places statement.now name.now.field) → IsSpan statement.now name.now result }
{
    let (line, from) = statement.place(name.field, name.at);
    Span {
        line,
        from,
        to: from.saturating_add(name.count).min(MARGIN),
    }
}
