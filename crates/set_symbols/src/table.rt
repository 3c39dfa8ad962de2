//! The table of SET symbols.
ghost use Rattle.std.specs.Prelude.{◌≡◌, ◌↔◌, ◌⊎◌, [], ◌∷◌, ◌++◌, IfOk, IfErr, OnOk, OnErr, IsErrOf, IsTrue, IsSomeAnd, Some, None};
ghost use Rattle.set_symbols.specs.Table.{IsDeclared, IsOther, IsOfOtherKind, kind_of, value_of, declared_of, fresh, place, put};
ghost use Rattle.set_symbols.specs.declared.fault.SetFault.TheVariants.{AlreadyDeclared, NotDeclared, WrongType, BadSubscript, OutOfMemory};

use crate::SetFault;
use crate::symbol::{Declared, Symbol};
use hl_base::{Name, SetKind, SetValue};
use indexmap::IndexMap;
use std::alloc::Global;
use std::collections::BTreeMap;
use std::marker::Model;

/// The last element of a SET symbol that is subscripted.
pub const LAST_ELEMENT: u32 = 4096;

/// The SET symbols of one macro call, or of open code. Contracts see the list of them in the order of declaration.
#[derive(Drop)]
pub struct SetTable {
    symbols: IndexMap<String, Symbol>,
}

impl Model for SetTable {
    ghost use Rattle.set_symbols.specs.Table.{Table};
    ghost use Rattle.set_symbols.specs.Codes.{table_code};

    ghost Value = { Table };

    ghost coded = { table_code };

    ghost use Rattle.set_symbols.specs.Entries.{table_of};

    ghost view = { λ t. table_of t.symbols };
}

/// The type of a symbol that holds a value.
fn kind_of(value: &SetValue) -> SetKind
    ensures { result ≡ kind_of value.now }
{
    match value {
        SetValue::A(_) => SetKind::A,
        SetValue::B(_) => SetKind::B,
        SetValue::C(_) => SetKind::C,
    }
}

/// Whether a symbol is there and has another type than a value.
fn is_of_other_kind(declared: Option<Declared>, kind: SetKind) -> bool
    ensures { IsTrue result ↔ IsOther declared kind }
{
    match declared {
        Some(declared) => declared.kind != kind,
        None => false,
    }
}

/// Where the value of an element is held; 0 is that of the symbol without a subscript.
fn place(element: Option<u32>) -> Option<u32>
    ensures { result ≡ place element }
{
    match element {
        None => Some(0),
        Some(at) => {
            if at == 0 || at > LAST_ELEMENT {
                return None;
            }
            Some(at)
        }
    }
}

impl SetTable {
    ghost use Rattle.std.specs.Option.{option_map};
    ghost use Rattle.set_symbols.specs.Table.{symbol_of};
    ghost use Rattle.set_symbols.specs.Entries.{named};

    /// A table of no symbol. It takes no memory.
    pub fn new(alloc: Global) -> SetTable
        ensures { result ≡ [] }
    {
        SetTable {
            symbols: IndexMap::new(alloc),
        }
    }

    /// How the symbol of a name was declared; a name that was set without a declaration is local.
    pub fn declared(&self, name: &Name) -> Option<Declared>
        ensures { result ≡ declared_of self.now name.now }
    {
        match self.find(name) {
            Some(symbol) => Some(symbol.declared),
            None => None,
        }
    }

    /// Declares a symbol, which then holds nothing. An `Err` changes nothing.
    pub fn declare(
        &mut self,
        alloc: Global,
        name: &Name,
        kind: SetKind,
        global: bool,
    ) -> Result<(), SetFault>
        ensures already { IsErrOf result AlreadyDeclared ↔ IsDeclared self.old name.now }
        ensures declared { OnOk result (self.new ≡ self.old ++ fresh name.now (record { kind = kind; global = global }) ∷ []) }
        ensures kept { OnErr result (self.new ≡ self.old) }
        ensures only { IfErr result (λ fault. (fault ≡ AlreadyDeclared) ⊎ (fault ≡ OutOfMemory)) }
    {
        if self.declared(name).is_some() {
            return Err(SetFault::AlreadyDeclared);
        }
        self.admit(
            alloc,
            name,
            Symbol {
                declared: Declared { kind, global },
                values: BTreeMap::new(alloc),
            },
        )
    }

    /// What an element of a symbol holds; without a subscript, what the symbol itself holds. Where nothing was set that
    /// is 0, 0 or the empty text.
    pub fn get(
        &self,
        alloc: Global,
        name: &Name,
        element: Option<u32>,
    ) -> Result<SetValue, SetFault>
        ensures not_declared { IsErrOf result NotDeclared ↔ (declared_of self.now name.now ≡ None) }
        ensures bad_subscript { IsErrOf result BadSubscript ↔ (IsDeclared self.now name.now × (place element ≡ None)) }
        ensures value { IfOk result (λ held. IsSomeAnd (place element) (λ at. value_of self.now name.now at ≡ Some held)) }
        ensures only { IfErr result (λ fault. (fault ≡ NotDeclared) ⊎ (fault ≡ BadSubscript) ⊎ (fault ≡ OutOfMemory)) }
    {
        let Some(symbol) = self.find(name) else {
            return Err(SetFault::NotDeclared);
        };
        let Some(at) = place(element) else {
            return Err(SetFault::BadSubscript);
        };
        Ok(symbol.value(alloc, at)?)
    }

    /// Sets an element of a symbol, or the symbol itself without a subscript. A symbol that is not there becomes local,
    /// of the value's type. An `Err` changes nothing.
    pub fn set(
        &mut self,
        alloc: Global,
        name: &Name,
        element: Option<u32>,
        value: SetValue,
    ) -> Result<(), SetFault>
        ensures wrong_type { IsErrOf result WrongType ↔ IsOfOtherKind self.old name.now value }
        ensures bad_subscript { IsErrOf result BadSubscript ↔ ((¬ IsOfOtherKind self.old name.now value) × (place element ≡ None)) }
        ensures set { OnOk result (IsSomeAnd (place element) (λ at. self.new ≡ put self.old name.now at value)) }
        ensures kept { OnErr result (self.new ≡ self.old) }
        ensures only { IfErr result (λ fault. (fault ≡ WrongType) ⊎ (fault ≡ BadSubscript) ⊎ (fault ≡ OutOfMemory)) }
    {
        let declared = self.declared(name);
        if is_of_other_kind(declared, kind_of(&value)) {
            return Err(SetFault::WrongType);
        }
        let Some(at) = place(element) else {
            return Err(SetFault::BadSubscript);
        };
        if declared.is_some() {
            return self.hold(name, at, value);
        }
        self.admit_local(alloc, name, at, value)
    }

    /// The symbol of a name.
    fn find(&self, name: &Name) -> Option<&Symbol>
        ensures { option_map (λ symbol. named name.now symbol.now) result ≡ symbol_of self.now name.now }
    {
        self.symbols.get(name.text())
    }

    /// Sets a place of a symbol that is there.
    fn hold(&mut self, name: &Name, at: u32, value: SetValue) -> Result<(), SetFault>
        requires { IsDeclared self.old name.now }
        ensures ok { OnOk result (self.new ≡ put self.old name.now at value) }
        ensures err { OnErr result (self.new ≡ self.old) }
        ensures only { IfErr result (λ fault. fault ≡ OutOfMemory) }
    {
        let Some(symbol) = self.symbols.get_mut(name.text()) else {
            return Ok(());
        };
        symbol.hold(at, value)
    }

    /// A local symbol that holds a value at a place.
    fn admit_local(
        &mut self,
        alloc: Global,
        name: &Name,
        at: u32,
        value: SetValue,
    ) -> Result<(), SetFault>
        requires { declared_of self.old name.now ≡ None }
        ensures ok { OnOk result (self.new ≡ put self.old name.now at value) }
        ensures err { OnErr result (self.new ≡ self.old) }
        ensures only { IfErr result (λ fault. fault ≡ OutOfMemory) }
    {
        let declared = Declared {
            kind: kind_of(&value),
            global: false,
        };
        let mut values = BTreeMap::new(alloc);
        values.insert(at, value)?;
        self.admit(alloc, name, Symbol { declared, values })
    }

    /// A symbol that is not there, behind those that are.
    fn admit(&mut self, alloc: Global, name: &Name, symbol: Symbol) -> Result<(), SetFault>
        requires { declared_of self.old name.now ≡ None }
        ensures ok { OnOk result (self.new ≡ self.old ++ named name.now symbol ∷ []) }
        ensures err { OnErr result (self.new ≡ self.old) }
        ensures only { IfErr result (λ fault. fault ≡ OutOfMemory) }
    {
        let key = String::from_str(alloc, name.text())?;
        self.symbols.insert(key, symbol)?;
        Ok(())
    }
}
