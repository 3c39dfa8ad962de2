//! Variable symbols that have a meaning in a call.
ghost use Rattle.std.specs.Prelude.{◌≡◌, IfOk, OnOk};
ghost use Rattle.variable_meanings.specs.Meanings as meanings;

use crate::meaning::{Meaning, declared_meaning, is_system, set_meaning};
use hl_base::{Declaration, Name, OutOfMemory};
use indexmap::IndexMap;
use std::alloc::Global;
use std::marker::Model;
use trace_values::{Role, Scope, Setting, TraceItem};

/// The variable symbols to which the entry of a call or its statements gave meanings. Contracts see the list of them, in the
/// order in which they got their meanings.
#[derive(Drop)]
pub(crate) struct KnownVariables {
    meanings: IndexMap<String, Meaning>,
}

impl Model for KnownVariables {
    ghost use Rattle.std.specs.Prelude.{List};
    ghost use Rattle.variable_meanings.specs.Meanings.{Known};
    ghost use Rattle.variable_meanings.specs.Entries.{known_held};

    ghost Value = { List Known };

    ghost view = { λ s. known_held s.meanings };
}

impl KnownVariables {
    ghost use Rattle.std.specs.Prelude.{[]};

    /// None of them.
    pub(crate) fn new(alloc: Global) -> KnownVariables
        ensures { result ≡ [] }
    {
        KnownVariables {
            meanings: IndexMap::new(alloc),
        }
    }

    /// What a symbol means, if it has a meaning.
    pub(crate) fn meaning(&self, name: &Name) -> Option<Meaning>
        ensures { result ≡ meanings.meaning_of self.now name.now }
    {
        self.meanings.get(name.text()).copied()
    }

    /// Gives a symbol a meaning that has none yet. What an `Err` leaves is of no use.
    fn note(&mut self, alloc: Global, name: &Name, meaning: Meaning) -> Result<(), OutOfMemory>
        ensures { OnOk result (self.new ≡ meanings.with_meaning self.old name.now meaning) }
    {
        if self.meaning(name).is_some() {
            return Ok(());
        }
        let key = String::from_str(alloc, name.text())?;
        self.meanings.insert(key, meaning)?;
        Ok(())
    }

    /// Passes what a call knows at its entry.
    fn note_entry(
        &mut self,
        alloc: Global,
        own: Scope,
        setting: &Setting,
    ) -> Result<(), OutOfMemory>
        ensures { OnOk result (self.new ≡ meanings.with_entry own self.old setting.now) }
    {
        if is_system(&setting.name) {
            return Ok(());
        }
        let meaning = Meaning {
            scope: own,
            role: Role::Parameter,
        };
        self.note(alloc, &setting.name, meaning)
    }

    /// Passes the values that a call has at its entry.
    #[tactic(auto, unfolding(crate::specs::Meanings::with_entries))]
    pub(crate) fn enter(
        &mut self,
        alloc: Global,
        own: Scope,
        entry: &[Setting],
    ) -> Result<(), OutOfMemory>
        ensures { OnOk result (self.new ≡ meanings.with_entries own self.old entry.now) }
    {
        for setting in entry {
            self.note_entry(alloc, own, setting)?;
        }
        Ok(())
    }

    /// Passes declarations.
    #[tactic(auto, unfolding(crate::specs::Meanings::with_declarations))]
    fn declare(
        &mut self,
        alloc: Global,
        own: Scope,
        declared: &[Declaration],
    ) -> Result<(), OutOfMemory>
        ensures { OnOk result (self.new ≡ meanings.with_declarations own self.old declared.now) }
    {
        for declaration in declared {
            self.note(alloc, &declaration.name, declared_meaning(own, declaration))?;
        }
        Ok(())
    }

    /// Passes settings of local symbols.
    #[tactic(auto, unfolding(crate::specs::Meanings::with_settings))]
    fn set(&mut self, alloc: Global, own: Scope, settings: &[Setting]) -> Result<(), OutOfMemory>
        ensures { OnOk result (self.new ≡ meanings.with_settings own self.old settings.now) }
    {
        for setting in settings {
            self.note(alloc, &setting.name, set_meaning(own, setting))?;
        }
        Ok(())
    }

    /// Passes the statement of a point.
    pub(crate) fn pass(
        &mut self,
        alloc: Global,
        own: Scope,
        item: &TraceItem,
    ) -> Result<(), OutOfMemory>
        ensures { OnOk result (self.new ≡ meanings.with_item own self.old item.now) }
    {
        self.declare(alloc, own, item.declared.as_slice())?;
        self.set(alloc, own, item.locals.as_slice())
    }
}
