//! Texts that were read, from which lines are made.
ghost use Rattle.std.specs.Prelude.{◌≡◌, IfOk};
ghost use Rattle.statement_listing.specs.Listings.{listing_of};

use crate::Line;
use hl_base::{OutOfMemory, PathId};
use hlasm_statements::Statements;
use std::alloc::Global;
use std::rc::Rc;

/// The statements of the text of a path.
#[derive(Drop)]
pub(crate) struct Source {
    pub(crate) path: PathId,
    pub(crate) statements: Statements,
}

/// The lines of the text of a path, each of which is read.
pub fn lines_of(
    alloc: Global,
    path: PathId,
    statements: Statements,
) -> Result<Vec<Line>, OutOfMemory>
    ensures { IfOk result (λ ls. ls.items ≡ listing_of path statements) }
{
    lines_after(alloc, path, statements, &[])
}

/// The same, where other lines were read before: a statement that stands among them as far from their front or their back is not
/// read again.
pub(crate) fn lines_after(
    alloc: Global,
    path: PathId,
    statements: Statements,
    earlier: &[Line],
) -> Result<Vec<Line>, OutOfMemory>
    ensures { IfOk result (λ ls. ls.items ≡ listing_of path statements) }
{
    let count = statements.as_slice().len();
    let source = Rc::new(alloc, Source { path, statements })?;
    let mut lines = Vec::with_capacity(alloc, count)?;
    for at in 0..count {
        let line = Line::read(alloc, &source, at, earlier)?;
        lines.push(line)?;
    }
    Ok(lines)
}
