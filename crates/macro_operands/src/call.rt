//! A macro call, made of the texts of its statement.
ghost use Rattle.std.specs.Prelude.{◌≡◌, IfOk, Some};
ghost use Rattle.std.specs.Str.{chars};
ghost use Rattle.operand_list.specs.Split.{operands_of};
ghost use Rattle.cond_expr.specs.Outcome.{Tells};
ghost use Rattle.macro_operands.specs.Calling as calling;

use crate::value::{name_entry, value, values};
use cond_expr::{Lookups, Stop};
use hl_base::{Key, Notes, OutOfMemory, Text};
use hlasm_statements::Statement;
use operand_grammar::{Operands, split_operands};
use std::alloc::Global;

/// The name entry and the operands of a call, with the values of their variable symbols.
#[derive(Drop)]
pub struct CallValues {
    pub label: Text,
    pub operands: Operands,
}

/// What the name entry and the operands of a macro call come to, and the notes of that, with an empty stack.
#[derive(Drop)]
pub enum CallOperands {
    /// An answer is needed that was not given.
    Wants(Key),
    Made(CallValues, Notes),
    /// The name entry or an operand cannot be read, as the last note says: there is no call.
    Unreadable(Notes),
}

/// The operands behind a name entry.
fn with_operands<Q: Lookups>(
    alloc: Global,
    label: Text,
    operands: &str,
    q: &Q,
    notes: &mut Notes,
) -> Result<Option<CallValues>, Stop>
    ensures { Tells (calling.and_operands (Some label) (calling.values (operands_of (chars operands.now)) (Q.told q.now))) notes.old notes.new result }
{
    let split = split_operands(alloc, operands)?;
    match values(alloc, split.as_slice(), q, notes) {
        Ok(Some(operands)) => Ok(Some(CallValues { label, operands })),
        Ok(None) => Ok(None),
        Err(stop) => Err(stop),
    }
}

/// A call of these two texts.
fn called<Q: Lookups>(
    alloc: Global,
    label: &str,
    operands: &str,
    q: &Q,
    notes: &mut Notes,
) -> Result<Option<CallValues>, Stop>
    ensures { Tells (calling.call_of (chars label.now) (chars operands.now) (Q.told q.now)) notes.old notes.new result }
{
    match value(alloc, name_entry(label), q, notes) {
        Ok(Some(label)) => with_operands(alloc, label, operands, q, notes),
        Ok(None) => Ok(None),
        Err(stop) => Err(stop),
    }
}

/// What the name entry and the operands of a macro call come to: the operand field is split as it is written, and then each
/// entry, the name entry first, gets the values of its variable symbols and is cut behind 1,024 characters, with the note
/// `H028`; a sequence symbol is no name entry of a call. An entry that cannot be read has the note `H010`, and there is no
/// call. Where an answer is needed that was not given, its key is told, and no note (SC26-4940, "Macro instruction format").
pub fn call_operands<Q: Lookups>(
    alloc: Global,
    s: &Statement,
    q: &Q,
) -> Result<CallOperands, OutOfMemory>
    ensures { IfOk result (λ c. c ≡ calling.shown_call (calling.call_of s.now.label s.now.operands (Q.told q.now))) }
{
    let mut notes = Notes::new(alloc);
    match called(alloc, s.label.as_str(), s.operands.as_str(), q, &mut notes) {
        Ok(Some(values)) => Ok(CallOperands::Made(values, notes)),
        Ok(None) => Ok(CallOperands::Unreadable(notes)),
        Err(Stop::Asked(key)) => Ok(CallOperands::Wants(key)),
        Err(Stop::OutOfMemory) => Err(OutOfMemory),
    }
}
