//! What a call knows of variable symbols.
ghost use Rattle.std.specs.Prelude.{◌≡◌, ℕ, Some, IfOk, OnOk, option_copied};
ghost use Rattle.set_symbols.specs.Table.{place, put};
ghost use Rattle.call_knowledge.specs.Changes as changes;
ghost use Rattle.call_knowledge.specs.Knowledge as knowledge;
ghost use Rattle.call_knowledge.specs.Deeds as deeds;
ghost use Rattle.call_knowledge.specs.Views.{meaning_of};
ghost use Rattle.call_knowledge.specs.declared.change.Change.TheVariants as change;

use crate::aim::{aim_by, kind_of};
use crate::meaning::Meaning;
use crate::system::{sysparm, system_of};
use crate::{Aim, Change, SystemVariable};
use hl_base::{Declaration, Declarations, Name, OutOfMemory, SetKind, SetValue, Text};
use macro_binding::{Binding, Worth};
use set_symbols::SetTable;
use std::alloc::Global;
use std::marker::Model;
use trace_values::Settings;

/// How many branches a call may take, as long as no ACTR says otherwise.
const MOST_BRANCHES: u32 = 4096;

/// What a call knows of variable symbols. Contracts see the tables of its SET symbols, those without a subscript and those
/// with one, how many branches are left, its system variable symbols, what the operands of a macro call are bound to, and what
/// its first statement shows of its entry.
#[derive(Drop)]
pub struct Knowledge {
    pub(crate) scalars: SetTable,
    pub(crate) arrays: SetTable,
    branches: u32,
    systems: Vec<SystemVariable>,
    binding: Option<Binding>,
    shown: Settings,
    pub(crate) positionals: u32,
}

impl Model for Knowledge {
    ghost use Rattle.std.specs.Prelude.{◌≡◌};
    ghost use Rattle.call_knowledge.specs.Codes.{knowledge_code};
    ghost use Rattle.call_knowledge.specs.Knowledge.{Knowledge, positional_count};

    ghost Value = { Knowledge };

    ghost coded = { knowledge_code };

    ghost view = { λ k. record {
      scalars = k.scalars;
      arrays = k.arrays;
      branches = k.branches;
      systems = k.systems.items;
      binding = k.binding;
      shown = k.shown;
    } };

    ghost invariant = { λ k. k.positionals ≡ positional_count k.binding };
}

/// Declares a symbol in a table that does not have it.
pub(crate) fn declare_in(
    table: &mut SetTable,
    alloc: Global,
    d: &Declaration,
) -> Result<(), OutOfMemory>
    ensures { OnOk result (table.new ≡ changes.fresh_symbol d.now table.old) }
{
    match table.declare(alloc, &d.name, d.kind, d.global) {
        Ok(()) => Ok(()),
        Err(_) => Err(OutOfMemory),
    }
}

/// Gives a symbol of a table a value at a place, where its type is right.
fn hold_in(
    table: &mut SetTable,
    alloc: Global,
    name: &Name,
    element: Option<u32>,
    value: SetValue,
) -> Result<(), OutOfMemory>
    ensures { OnOk result ((at : ℕ) → place element ≡ Some at → table.new ≡ put table.old name.now at value) }
{
    match table.set(alloc, name, element, value) {
        Ok(()) => Ok(()),
        Err(_) => Err(OutOfMemory),
    }
}

impl Knowledge {
    /// What open code knows before its first statement.
    pub fn open_code(alloc: Global, parameter: Text) -> Result<Knowledge, OutOfMemory>
        ensures { IfOk result (λ k. k ≡ knowledge.open_code parameter) }
    {
        let mut systems = Vec::new(alloc);
        systems.push(SystemVariable {
            name: sysparm(),
            text: parameter,
        })?;
        Ok(Knowledge {
            scalars: SetTable::new(alloc),
            arrays: SetTable::new(alloc),
            branches: MOST_BRANCHES,
            systems,
            binding: None,
            shown: Settings::new(alloc),
            positionals: 0,
        })
    }

    /// What a macro knows before its first statement, which shows so much: its system variable symbols but `&SYSLIST`, and what
    /// its operands are bound to. `OutOfMemory` also where it has more operands than a `u32` counts.
    pub fn in_macro(
        alloc: Global,
        systems: Vec<SystemVariable>,
        binding: Binding,
        shown: Settings,
    ) -> Result<Knowledge, OutOfMemory>
        ensures { IfOk result (λ k. k ≡ knowledge.in_macro systems.items binding shown) }
    {
        let Ok(positionals) = u32::try_from(binding.positional_count()) else {
            return Err(OutOfMemory);
        };
        Ok(Knowledge {
            scalars: SetTable::new(alloc),
            arrays: SetTable::new(alloc),
            branches: MOST_BRANCHES,
            systems,
            binding: Some(binding),
            shown,
            positionals,
        })
    }

    /// What a parameter, or `&SYSLIST`, with these subscripts is worth; `None` where the name is that of neither.
    pub(crate) fn bound_value(
        &self,
        alloc: Global,
        name: &Name,
        subscripts: &[i32],
    ) -> Result<Option<Worth>, OutOfMemory>
        ensures { IfOk result (λ w. w ≡ knowledge.bound_value self.now.binding name.now subscripts.now) }
    {
        match &self.binding {
            None => Ok(None),
            Some(binding) => binding.value(alloc, name, subscripts),
        }
    }

    /// Whether a name is that of a parameter, or SYSLIST.
    fn is_bound(&self, name: &Name) -> bool
        ensures { result ≡ knowledge.is_bound self.now.binding name.now }
    {
        match &self.binding {
            None => false,
            Some(binding) => name.text() == "SYSLIST" || binding.parameter(name).is_some(),
        }
    }

    /// What the operands of its macro call are bound to; open code has none.
    pub fn binding(&self) -> Option<&Binding>
        ensures { option_copied result ≡ self.now.binding }
    {
        self.binding.as_ref()
    }

    /// Its system variable symbols but `&SYSLIST`.
    pub fn systems(&self) -> &[SystemVariable]
        ensures { result.now ≡ self.now.systems }
    {
        self.systems.as_slice()
    }

    /// What its first statement shows of its entry: nothing behind a branch.
    pub fn shown(&self) -> &Settings
        ensures { result.now ≡ self.now.shown }
    {
        &self.shown
    }

    /// What a name means.
    pub(crate) fn meaning(&self, name: &Name) -> Meaning<'_>
        ensures { meaning_of result ≡ knowledge.meaning self.now name.now }
    {
        if let Some(system) = system_of(self.systems.as_slice(), name) {
            return Meaning::System(&system.text);
        }
        if let Some(declared) = self.scalars.declared(name) {
            return Meaning::Scalar(declared);
        }
        match self.arrays.declared(name) {
            Some(declared) => Meaning::Array(declared),
            None => Meaning::Unknown,
        }
    }

    /// Whether a name means anything.
    pub fn is_known(&self, name: &Name) -> bool
        ensures { result ≡ knowledge.is_known self.now name.now }
    {
        self.is_bound(name) || self.meaning(name).is_known()
    }

    /// What SETx of a type aims at.
    pub fn aim(&self, name: &Name, element: Option<u32>, kind: SetKind) -> Aim
        ensures { result ≡ changes.aim self.now name.now element kind }
    {
        if self.is_bound(name) {
            return Aim::OtherType;
        }
        aim_by(self.meaning(name), element, kind)
    }

    /// A branch, if one is left.
    pub fn branching(&self) -> Option<Change>
        ensures { result ≡ deeds.branching self.now }
    {
        if self.branches == 0 {
            return None;
        }
        Some(Change::Branch)
    }

    /// Gives a local SET symbol a value, where it has a place for it.
    #[tactic(auto, using(crate::proofs::MeaningLaws::aim_local))]
    fn hold(
        &mut self,
        alloc: Global,
        name: &Name,
        element: Option<u32>,
        value: SetValue,
    ) -> Result<(), OutOfMemory>
        ensures { OnOk result (self.new ≡ changes.changed (change.Hold name.now element value) self.old) }
    {
        let Aim::Local(_) = self.aim(name, element, kind_of(&value)) else {
            return Ok(());
        };
        match element {
            None => hold_in(&mut self.scalars, alloc, name, element, value),
            Some(_) => hold_in(&mut self.arrays, alloc, name, element, value),
        }
    }

    /// Declares a symbol, unless its name means something.
    fn declare(&mut self, alloc: Global, d: &Declaration) -> Result<(), OutOfMemory>
        ensures { OnOk result (self.new ≡ changes.declared_once d.now self.old) }
    {
        if self.is_known(&d.name) {
            return Ok(());
        }
        if d.array {
            return declare_in(&mut self.arrays, alloc, d);
        }
        declare_in(&mut self.scalars, alloc, d)
    }

    /// Declares symbols, each unless its name means something.
    fn declare_all(&mut self, alloc: Global, list: &Declarations) -> Result<(), OutOfMemory>
        ensures { OnOk result (self.new ≡ changes.declared_all list.now self.old) }
    {
        for d in list.as_slice() {
            self.declare(alloc, d)?;
        }
        Ok(())
    }

    /// Makes a change. What want of memory leaves is of no use.
    pub fn change(&mut self, alloc: Global, change: Change) -> Result<(), OutOfMemory>
        ensures { OnOk result (self.new ≡ changes.changed change self.old) }
    {
        match change {
            Change::Nothing => Ok(()),
            Change::Hold(name, element, value) => self.hold(alloc, &name, element, value),
            Change::Declare(list) => self.declare_all(alloc, &list),
            Change::Limit(branches) => {
                self.branches = branches;
                Ok(())
            }
            Change::Branch => {
                self.branches = self.branches.saturating_sub(1);
                self.shown = Settings::new(alloc);
                Ok(())
            }
        }
    }
}
