//! The fields of SETA, SETB and SETC.
ghost use Rattle.std.specs.Prelude.{◌≡◌};
ghost use Rattle.std.specs.Str.{chars};
ghost use Rattle.expression_grammar.specs.Views.{tree_of};
ghost use Rattle.conditional_fields.specs.Answers.{Says};
ghost use Rattle.statement_reading.specs.Settings as settings;
ghost use Rattle.statement_reading.specs.Views.{setting_of};

use crate::entry::{read_symbol, symbol_length};
use crate::expression::{read_characters, read_condition, read_number};
use conditional_fields::character::{begins_with, character_count};
use conditional_fields::operand_grammar::{Expr, SyntaxFault};
use conditional_fields::place::fault_at;
use hl_base::SetKind;
use std::alloc::Global;

/// The SET symbol that gets a value, and the value, as they are written.
#[derive(Drop)]
pub struct Setting {
    pub target: Expr,
    pub value: Expr,
}

/// A name entry as a variable symbol.
fn read_target(alloc: Global, label: &str) -> Result<Expr, SyntaxFault>
    ensures { Says tree_of (settings.target (chars label.now)) result }
{
    if !begins_with(label, '&') {
        return Err(SyntaxFault::At(0));
    }
    match read_symbol(alloc, label)? {
        Some(found) => {
            if found.length == character_count(label) {
                return Ok(found.tree);
            }
            Err(fault_at(found.length, 0))
        }
        None => Err(SyntaxFault::At(symbol_length(alloc, label)?)),
    }
}

/// An operand as a value.
fn read_value(alloc: Global, kind: SetKind, field: &str) -> Result<Expr, SyntaxFault>
    ensures { Says tree_of (settings.operand kind (chars field.now)) result }
{
    match kind {
        SetKind::A => read_number(alloc, field),
        SetKind::B => read_condition(alloc, field),
        SetKind::C => read_characters(alloc, field),
    }
}

/// Name entry and operand of SETA, SETB or SETC.
pub(crate) fn read_setting(
    alloc: Global,
    kind: SetKind,
    label: &str,
    field: &str,
) -> Result<Setting, SyntaxFault>
    ensures { Says setting_of (settings.setting kind (chars label.now) (chars field.now)) result }
{
    match read_target(alloc, label) {
        Ok(target) => match read_value(alloc, kind, field) {
            Ok(value) => Ok(Setting { target, value }),
            Err(fault) => Err(fault),
        },
        Err(fault) => Err(fault),
    }
}
