//! What SETA, SETB and SETC do.
//!
//! Each call tells an outcome, as those of `cond_expr::evaluate`.
ghost use Rattle.std.specs.Prelude.{◌≡◌};
ghost use Rattle.expression_grammar.specs.Views.{tree_of};
ghost use Rattle.cond_expr.specs.Outcome.{Tells};
ghost use Rattle.cond_expr.specs.Characters.{not_below_0};
ghost use Rattle.conditional_asm.specs.Setting as settings;

use crate::act::Act;
use cond_expr::evaluate::{number, numbers, text};
use cond_expr::{Lookups, Stop};
use hl_base::{Notes, SetKind, SetValue};
use operand_grammar::Expr;
use statement_reading::Setting;
use std::alloc::Global;

/// The value of an operand.
fn value_of<Q: Lookups>(
    alloc: Global,
    kind: SetKind,
    operand: &Expr,
    q: &Q,
    notes: &mut Notes,
) -> Result<SetValue, Stop>
    ensures { Tells (settings.value_as kind (tree_of operand.now) (Q.told q.now)) notes.old notes.new result }
{
    match kind {
        SetKind::A => match number(alloc, operand, q, notes) {
            Ok(n) => Ok(SetValue::A(n)),
            Err(stop) => Err(stop),
        },
        SetKind::B => match number(alloc, operand, q, notes) {
            Ok(n) => Ok(SetValue::B(n != 0)),
            Err(stop) => Err(stop),
        },
        SetKind::C => match text(alloc, operand, q, notes) {
            Ok(characters) => Ok(SetValue::C(characters)),
            Err(stop) => Err(stop),
        },
    }
}

/// A number, and 0 in place of one below 0.
fn from_0_on(number: i32) -> u32
    ensures { result ≡ not_below_0 number }
{
    if number < 0 { 0 } else { number as u32 }
}

/// The element that subscripts name.
fn place(at: &[i32]) -> Option<u32>
    ensures { result ≡ settings.element at.now }
{
    match at {
        [] => None,
        [one] => Some(from_0_on(*one)),
        _ => Some(0),
    }
}

/// What SETA, SETB or SETC does, by the type of its SET symbol: the subscripts first, and then the value.
pub fn assign<Q: Lookups>(
    alloc: Global,
    kind: SetKind,
    setting: &Setting,
    q: &Q,
    notes: &mut Notes,
) -> Result<Act, Stop>
    ensures { Tells (settings.put kind (tree_of setting.now.target) (tree_of setting.now.value) (Q.told q.now)) notes.old notes.new result }
{
    match &setting.target {
        Expr::Variable(_, symbol, subscripts) => {
            let at = numbers(alloc, subscripts.as_slice(), q, notes)?;
            let value = value_of(alloc, kind, &setting.value, q, notes)?;
            Ok(Act::Set(symbol.name.copy(), place(at.as_slice()), value))
        }
        Expr::Number(_, _)
        | Expr::Here
        | Expr::Symbol(_, _)
        | Expr::Signed(_, _)
        | Expr::Pair(_, _, _)
        | Expr::Paren(_)
        | Expr::Not(_)
        | Expr::Compared(_, _, _)
        | Expr::Quoted(_)
        | Expr::Duplicated(_, _)
        | Expr::Substring(_, _, _)
        | Expr::SubstringToEnd(_, _)
        | Expr::Joined(_, _) => Ok(Act::Next),
    }
}
