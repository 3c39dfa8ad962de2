//! What MNOTE does (SC26-4940, "MNOTE instruction").
//!
//! Each call tells an outcome, as those of `cond_expr::evaluate`.
ghost use Rattle.std.specs.Prelude.{◌≡◌, []};
ghost use Rattle.cond_expr.specs.Outcome.{Tells};
ghost use Rattle.statement_reading.specs.Bodies as bodies;
ghost use Rattle.statement_reading.specs.Views.{message_of, severity_of};
ghost use Rattle.conditional_asm.specs.Effects.{doing};
ghost use Rattle.conditional_asm.specs.Messages as messages;

use crate::act::Act;
use crate::trouble;
use cond_expr::evaluate::{number, text};
use cond_expr::{Lookups, Stop};
use hl_base::{Notes, Severity};
use operand_grammar::Expr;
use statement_reading::Message;
use std::alloc::Global;

/// How much a message of this severity weighs.
fn severity_from(number: i32) -> Severity
    ensures { result ≡ messages.weight number }
{
    if number < 4 {
        return Severity::Information;
    }
    if number < 8 {
        return Severity::Warning;
    }
    Severity::Error
}

/// How much a message weighs, by its severity as it is written.
fn weigh<Q: Lookups>(
    alloc: Global,
    severity: &Option<Expr>,
    q: &Q,
    notes: &mut Notes,
) -> Result<Severity, Stop>
    ensures { Tells (messages.weight_of (severity_of severity.now) (Q.told q.now)) notes.old notes.new result }
{
    match severity {
        Some(tree) => match number(alloc, tree, q, notes) {
            Ok(n) => Ok(severity_from(n)),
            Err(stop) => Err(stop),
        },
        None => Ok(Severity::Information),
    }
}

/// What MNOTE does: the severity first, and then the message.
pub fn mnote<Q: Lookups>(
    alloc: Global,
    message: &Message,
    q: &Q,
    notes: &mut Notes,
) -> Result<Act, Stop>
    ensures { Tells (doing (bodies.mnote (message_of message.now)) [] [] (Q.told q.now)) notes.old notes.new result }
{
    let severity = weigh(alloc, &message.severity, q, notes)?;
    let words = text(alloc, &message.text, q, notes)?;
    notes.push(trouble::author(alloc, severity, words))?;
    Ok(Act::Next)
}
