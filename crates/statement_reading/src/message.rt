//! The operands of MNOTE (SC26-4940, "MNOTE instruction").
ghost use Rattle.std.specs.Prelude.{◌≡◌, None};
ghost use Rattle.std.specs.Str.{chars};
ghost use Rattle.conditional_fields.specs.Answers.{Says};
ghost use Rattle.statement_reading.specs.Messages as messages;
ghost use Rattle.statement_reading.specs.Views.{message_of, severity_of};

use crate::expression::{read_characters, read_number};
use conditional_fields::character::head;
use conditional_fields::operand_grammar::{Expr, SyntaxFault, split_operands};
use hl_base::Text;
use std::alloc::Global;

/// A message and its severity as they are written; no severity where there is none, or an asterisk.
#[derive(Drop)]
pub struct Message {
    pub severity: Option<Expr>,
    pub text: Expr,
}

/// An asterisk with this behind it, as a severity.
fn read_starred(behind: &str) -> Result<Option<Expr>, SyntaxFault>
    ensures { Says severity_of (messages.starred (chars behind.now)) result }
{
    match head(behind) {
        Some(_) => Err(SyntaxFault::At(1)),
        None => Ok(None),
    }
}

/// The severity before a message.
fn read_severity(alloc: Global, operand: &str) -> Result<Option<Expr>, SyntaxFault>
    ensures { Says severity_of (messages.severity (chars operand.now)) result }
{
    match head(operand) {
        Some((c, behind)) => {
            if c == '*' {
                return read_starred(behind);
            }
            match read_number(alloc, operand) {
                Ok(tree) => Ok(Some(tree)),
                Err(fault) => Err(fault),
            }
        }
        None => Ok(None),
    }
}

/// A message that is the one operand.
fn read_alone(alloc: Global, operand: &str) -> Result<Message, SyntaxFault>
    ensures { Says message_of (messages.alone (chars operand.now)) result }
{
    match read_characters(alloc, operand) {
        Ok(text) => Ok(Message {
            severity: None,
            text,
        }),
        Err(fault) => Err(fault),
    }
}

/// A message behind a severity, with these operands behind it.
fn read_weighed(
    alloc: Global,
    before: &str,
    operand: &str,
    more: &[Text],
) -> Result<Message, SyntaxFault>
    ensures { Says message_of (messages.weighed (chars before.now) (chars operand.now) more.now) result }
{
    match read_severity(alloc, before) {
        Ok(severity) => match read_characters(alloc, operand) {
            Ok(text) => {
                if more.is_empty() {
                    return Ok(Message { severity, text });
                }
                Err(SyntaxFault::At(0))
            }
            Err(fault) => Err(fault),
        },
        Err(fault) => Err(fault),
    }
}

/// The operands of an MNOTE.
fn read_operands(alloc: Global, operands: &[Text]) -> Result<Message, SyntaxFault>
    ensures { Says message_of (messages.worded operands.now) result }
{
    match operands {
        [] => Err(SyntaxFault::At(0)),
        [operand] => read_alone(alloc, operand.as_str()),
        [severity, operand, more @ ..] => {
            read_weighed(alloc, severity.as_str(), operand.as_str(), more)
        }
    }
}

/// The operand field of an MNOTE.
pub(crate) fn read_message(alloc: Global, field: &str) -> Result<Message, SyntaxFault>
    ensures { Says message_of (messages.message (chars field.now)) result }
{
    let operands = split_operands(alloc, field)?;
    read_operands(alloc, operands.as_slice())
}
