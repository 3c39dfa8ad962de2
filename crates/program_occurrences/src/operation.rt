//! What the operation of a statement reads of its operands.
ghost use Rattle.std.specs.Prelude.{◌≡◌};
ghost use Rattle.std.specs.List.{list_any};
ghost use Rattle.program_occurrences.specs.Operations as operations;

use crate::known::file_of;
use hl_base::{Name, PathId};
use hlasm_statements::Statement;
use statement_names::{OperandUse, operand_use};
use text_pool::Present;
use trace_values::TraceItem;

/// The note of an entry that cannot be read.
const UNREADABLE: u16 = 10;

/// The note of a call or a COPY that is nested too deep.
const TOO_DEEP: u16 = 46;

/// The note of a COPY whose member is being copied already.
const RECURSIVE: u16 = 48;

/// Whether a note of this code is reported of a statement.
fn has_note(item: &TraceItem, code: u16) -> bool
    ensures { result ≡ operations.has_note code item.now }
{
    item.notes.as_slice().iter().any(|note| note.code == code)
}

/// The operation: as it was generated, or else as it is written.
fn operation_in<'a>(item: &'a TraceItem, statement: &'a Statement) -> &'a str
    ensures { result.now ≡ operations.operation_in item.now statement.now }
{
    match &item.line {
        Some(line) => line.op.as_str(),
        None => statement.op.as_str(),
    }
}

/// What an operation that reads this reads of operands that can be read, or cannot.
fn lowered(used: OperandUse, unreadable: bool) -> OperandUse
    ensures { result ≡ operations.lowered used unreadable }
{
    match used {
        OperandUse::Branches => {
            if unreadable {
                return OperandUse::Unread;
            }
            used
        }
        _ => used,
    }
}

/// What the operation of a statement reads of its operands.
pub(crate) fn used_by(item: &TraceItem, statement: &Statement) -> OperandUse
    ensures { result ≡ operations.used_by item.now statement.now }
{
    match item.called {
        Some(_) => OperandUse::Unread,
        None => lowered(
            operand_use(operation_in(item, statement)),
            has_note(item, UNREADABLE),
        ),
    }
}

/// Whether a call was entered.
pub fn is_entered(item: &TraceItem) -> bool
    ensures { result ≡ operations.is_entered item.now }
{
    !has_note(item, UNREADABLE) && !has_note(item, TOO_DEEP)
}

/// Whether a COPY of a member that is there took it.
fn takes(item: &TraceItem) -> bool
    ensures { result ≡ operations.takes item.now }
{
    !has_note(item, TOO_DEEP) && !has_note(item, RECURSIVE)
}

/// The file of the member that a name entry names, if there is one.
fn file_named<P: Present>(present: &P, operands: &str) -> Option<PathId>
    ensures { result ≡ operations.file_named (P.members present.now) operands.now }
{
    match Name::read(operands) {
        Some(name) => file_of(present, &name),
        None => None,
    }
}

/// The file of the member that a COPY took.
pub(crate) fn member_taken<P: Present>(
    present: &P,
    used: OperandUse,
    item: &TraceItem,
    statement: &Statement,
) -> Option<PathId>
    ensures { result ≡ operations.member_taken (P.members present.now) used item.now statement.now }
{
    match used {
        OperandUse::Member => {
            if takes(item) {
                return file_named(present, statement.operands.as_str());
            }
            None
        }
        _ => None,
    }
}
