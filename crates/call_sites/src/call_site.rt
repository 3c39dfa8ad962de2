//! What is called.
ghost use Rattle.std.specs.Prelude.{◌≡◌, ◌↔◌, ℕ, List, IfOk, IsTrue, map};
ghost use Rattle.std.specs.Rc.{rc_str_bytes};
ghost use Rattle.std.specs.Str.{chars};
ghost use Rattle.kept_values.specs.Lists.{list_tree};
ghost use Rattle.macro_library.specs.Trees.{row_tree};
ghost use Rattle.macro_library.specs.Contents.{content_of};
ghost use Rattle.call_sites.specs.Calls as calls;
ghost use Rattle.call_sites.specs.Calls.{called, macro_called, open_code};

use crate::number::mixed;
use hl_base::{OutOfMemory, PathId, Text};
use kept_values::Kept;
use macro_library::KeptDefinition;
use operand_list::Operands;
use std::alloc::Global;
use std::rc::{Rc, RcStr};

/// A call of a macro: its definition, and what its name entry and its operands come to.
#[derive(Drop)]
pub struct MacroCall {
    pub definition: KeptDefinition,
    pub name_entry: Text,
    pub operands: Operands,
}

/// A call: the open code of a program, by its path and its text, which is shared and means its characters; or a macro, with
/// its name entry and its operands.
#[derive(Drop)]
pub enum CallSite {
    OpenCode(PathId, RcStr),
    Macro(Rc<MacroCall>),
}

/// Whether two shared texts have the same characters.
fn same_text(one: &RcStr, other: &RcStr) -> bool
    ensures { IsTrue result ↔ (chars (rc_str_bytes one.now) ≡ chars (rc_str_bytes other.now)) }
{
    one.as_str() == other.as_str()
}

/// Whether two entries of calls are the same.
fn same_entry(one: &Text, other: &Text) -> bool
    ensures { IsTrue result ↔ (one.now ≡ other.now) }
{
    one.as_str() == other.as_str()
}

/// Whether a call is that of the open code of this path and text.
fn is_open_code(call: &CallSite, path: PathId, text: &RcStr) -> bool
    ensures { IsTrue result ↔ (called call.now ≡ open_code path.0 (chars (rc_str_bytes text.now))) }
{
    match call {
        CallSite::OpenCode(its_path, its_text) => its_path.0 == path.0 && same_text(its_text, text),
        CallSite::Macro(_) => false,
    }
}

/// Whether operands are the same, one by one.
fn same_operands(one: &[Text], other: &[Text]) -> bool
    ensures { IsTrue result ↔ (one.now ≡ other.now) }
{
    let mut left = one;
    let mut right = other;
    while let [first, rest @ ..] = left {
        let [second, behind @ ..] = right else {
            return false;
        };
        if !same_entry(first, second) {
            return false;
        }
        left = rest;
        right = behind;
    }
    right.is_empty()
}

/// Whether two definitions say the same.
fn same_definition(one: &KeptDefinition, other: &KeptDefinition) -> bool
    ensures { IsTrue result ↔ (content_of one.now.definition.value ≡ content_of other.now.definition.value) }
{
    one.definition.same(&other.definition)
}

/// Whether two calls of macros are one.
#[tactic(auto, using(crate::proofs::CallLaws::content_macro_call, crate::proofs::CallLaws::name_macro_call, crate::proofs::CallLaws::operands_macro_call, crate::proofs::CallLaws::macro_calls))]
fn same_macro_call(one: &MacroCall, other: &MacroCall) -> bool
    ensures { IsTrue result ↔ (macro_called one.now ≡ macro_called other.now) }
{
    if !same_definition(&one.definition, &other.definition) {
        return false;
    }
    if !same_entry(&one.name_entry, &other.name_entry) {
        return false;
    }
    same_operands(one.operands.as_slice(), other.operands.as_slice())
}

/// Whether a call is this one of a macro.
fn is_macro_call(call: &CallSite, macro_call: &MacroCall) -> bool
    ensures { IsTrue result ↔ (called call.now ≡ macro_called macro_call.now) }
{
    match call {
        CallSite::OpenCode(_, _) => false,
        CallSite::Macro(its_call) => same_macro_call(its_call, macro_call),
    }
}

/// Whether two calls are one.
fn same_call(one: &CallSite, other: &CallSite) -> bool
    ensures { IsTrue result ↔ (called one.now ≡ called other.now) }
{
    match one {
        CallSite::OpenCode(path, text) => is_open_code(other, *path, text),
        CallSite::Macro(call) => is_macro_call(other, call),
    }
}

/// The number of what stood before, and of operands.
fn operands_number(start: u64, operands: &[Text]) -> u64
    ensures { result ≡ calls.operands_number start (row_tree (map list_tree operands.now)) }
{
    let mut number = start;
    let mut left = operands;
    while let [operand, rest @ ..] = left {
        number = mixed(number, operand.number());
        left = rest;
    }
    number
}

impl Kept for CallSite {
    ghost use Rattle.call_sites.specs.Calls.{call_tree, call_number};

    ghost code = { call_tree };

    ghost number_of = { call_number };

    fn same(&self, other: &Self) -> bool {
        same_call(self, other)
    }

    fn number(&self) -> u64 {
        match self {
            CallSite::OpenCode(path, _) => u64::from(path.0),
            CallSite::Macro(call) => {
                let start = mixed(call.definition.number(), call.name_entry.number());
                operands_number(start, call.operands.as_slice())
            }
        }
    }

    fn copy(&self, _alloc: Global) -> Result<Self, OutOfMemory> {
        match self {
            CallSite::OpenCode(path, text) => Ok(CallSite::OpenCode(*path, text.clone()?)),
            CallSite::Macro(call) => Ok(CallSite::Macro(call.clone()?)),
        }
    }
}
