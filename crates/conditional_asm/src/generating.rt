//! Generated statements.
//!
//! Each call but `judge` tells an outcome, as those of `cond_expr::evaluate`.
ghost use Rattle.std.specs.Prelude.{◌≡◌, ◌++◌, OnOk};
ghost use Rattle.hlasm_statements.specs.Fields as statements;
ghost use Rattle.cond_expr.specs.Outcome.{Tells, Gives};
ghost use Rattle.conditional_fields.specs.Endings.{field_of};
ghost use Rattle.statement_reading.specs.Views.{entry_of, fields_of};
ghost use Rattle.conditional_asm.specs.Generating as generating;

use crate::substitution::substitute;
use crate::trouble;
use cond_expr::{Lookups, Stop};
use conditional_fields::ended;
use hl_base::{Line, Notes, OutOfMemory, Text};
use hlasm_statements::ends_quoted;
use statement_reading::{Entry, Fields};
use std::alloc::Global;

/// What is said of an operand field that ends within quotes.
pub fn judge(alloc: Global, open_end: bool, notes: &mut Notes) -> Result<(), OutOfMemory>
    ensures { OnOk result (notes.new ≡ notes.old ++ generating.open_quote open_end) }
{
    if open_end {
        notes.push(trouble::open_apostrophe(alloc)?)?;
    }
    Ok(())
}

/// An entry with the values of its variable symbols.
fn fill<Q: Lookups>(alloc: Global, entry: &Entry, q: &Q, notes: &mut Notes) -> Result<Text, Stop>
    ensures { Tells (generating.entry_text (entry_of entry.now) (Q.told q.now)) notes.old notes.new result }
{
    match entry {
        Entry::Written(text) => Ok(text.copy(alloc)?),
        Entry::Varying(template) => match substitute(alloc, template, q, notes) {
            Ok(text) => Ok(text),
            Err(stop) => Err(stop),
        },
    }
}

/// Operands whose variable symbols got their values end anew, and may then end within quotes.
fn end_anew(alloc: Global, operands: &Text, notes: &mut Notes) -> Result<Text, Stop>
    ensures { Tells (Gives (field_of operands.now) (generating.open_quote (statements.ends_quoted (field_of operands.now)))) notes.old notes.new result }
{
    let field = ended(alloc, operands.as_str())?;
    let open_end = ends_quoted(field.as_str())?;
    judge(alloc, open_end, notes)?;
    Ok(field)
}

/// Operands with the values of their variable symbols.
fn fill_operands<Q: Lookups>(
    alloc: Global,
    entry: &Entry,
    q: &Q,
    notes: &mut Notes,
) -> Result<Text, Stop>
    ensures { Tells (generating.operand_text (entry_of entry.now) (Q.told q.now)) notes.old notes.new result }
{
    match entry {
        Entry::Written(text) => Ok(text.copy(alloc)?),
        Entry::Varying(template) => match substitute(alloc, template, q, notes) {
            Ok(text) => end_anew(alloc, &text, notes),
            Err(stop) => Err(stop),
        },
    }
}

/// The line of an operation, with the values of the variable symbols of its fields.
pub fn generate_line<Q: Lookups>(
    alloc: Global,
    op: &Text,
    fields: &Fields,
    q: &Q,
    notes: &mut Notes,
) -> Result<Line, Stop>
    ensures { Tells (generating.line_of op.now (fields_of fields.now) (Q.told q.now)) notes.old notes.new result }
{
    judge(alloc, fields.open_end, notes)?;
    let label = fill(alloc, &fields.label, q, notes)?;
    let operands = fill_operands(alloc, &fields.operands, q, notes)?;
    let op = op.copy(alloc)?;
    Ok(Line {
        label,
        op,
        operands,
    })
}
