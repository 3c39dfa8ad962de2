//! What a table holds of a symbol.

ghost use Rattle.std.specs.Prelude.{◌≡◌, IfOk, IfErr, OnOk, OnErr, unwrap_or};
ghost use Rattle.std.specs.FinMap.{get};
ghost use Rattle.set_symbols.specs.Kinds.{unset};
ghost use Rattle.set_symbols.specs.declared.fault.SetFault.TheVariants.{OutOfMemory};

use crate::SetFault;
use hl_base::{OutOfMemory as NoMemory, SetKind, SetValue, Text};
use std::alloc::Global;
use std::collections::BTreeMap;

/// How a symbol was declared.
#[derive(Clone, Copy, Debug, PartialEq, Eq)]
pub struct Declared {
    pub kind: SetKind,
    pub global: bool,
}

/// A symbol without its name. Only elements that were set have a value here.
#[derive(Drop)]
pub(crate) struct Symbol {
    pub(crate) declared: Declared,
    pub(crate) values: BTreeMap<u32, SetValue>,
}

impl Symbol {
    ghost use Rattle.set_symbols.specs.Entries.{values_of, Holds, Stays};

    /// What a place holds.
    pub(crate) fn value(&self, alloc: Global, at: u32) -> Result<SetValue, NoMemory>
        ensures { IfOk result (λ held. held ≡ unwrap_or (get (values_of self.now) at) (unset self.now.declared.kind)) }
    {
        match self.values.get(&at) {
            Some(value) => value.copy(alloc),
            None => Ok(unset(alloc, self.declared.kind)),
        }
    }

    /// Sets a place. An `Err` changes nothing.
    pub(crate) fn hold(&mut self, at: u32, value: SetValue) -> Result<(), SetFault>
        ensures ok { OnOk result (Holds self.old self.new at value) }
        ensures err { OnErr result (Stays self.old self.new) }
        ensures only { IfErr result (λ fault. fault ≡ OutOfMemory) }
    {
        self.values.insert(at, value)?;
        Ok(())
    }
}

/// What a symbol of a type holds where nothing was set: 0, 0 or the empty text.
fn unset(alloc: Global, kind: SetKind) -> SetValue
    ensures { result ≡ unset kind }
{
    match kind {
        SetKind::A => SetValue::A(0),
        SetKind::B => SetValue::B(false),
        SetKind::C => SetValue::C(Text::new(alloc)),
    }
}
