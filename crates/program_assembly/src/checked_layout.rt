//! The layout of the statements that a run generated, with what the operand checks say of them.
ghost use Rattle.std.specs.Prelude.{◌≡◌, IfOk};
ghost use Rattle.statement_checks.specs.Views.{layout_view, lines_of};
ghost use Rattle.program_assembly.specs.Statements.{checked_layout};

use hl_base::{Line, OutOfMemory};
use statement_checks::check_statements;
use statement_checks::section_layout::{Layout, lay_out};
use std::alloc::Global;

/// The layout of these statements; what the operand checks say of each stands behind what layout says of it.
pub(crate) fn lay_out_and_check(alloc: Global, lines: &[&Line]) -> Result<Layout, OutOfMemory>
    ensures { IfOk result (λ layout. layout_view layout ≡ checked_layout (lines_of lines.now)) }
{
    let mut layout = lay_out(alloc, lines)?;
    check_statements(alloc, lines, &mut layout)?;
    Ok(layout)
}
