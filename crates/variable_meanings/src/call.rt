//! The variable symbols of a call, as its statements are processed.
ghost use Rattle.std.specs.Prelude.{◌≡◌, IfOk, OnOk};
ghost use Rattle.variable_meanings.specs.Meanings as meanings;

use crate::known::KnownVariables;
use crate::meaning::{Meaning, knows_system, own_scope};
use crate::place::given;
use hl_base::{Name, Origin, OutOfMemory};
use hlasm_statements::Field;
use std::alloc::Global;
use std::marker::Model;
use trace_values::{Role, Setting, TraceItem};

/// The variable symbols of a call of a macro, or of open code, with their meanings. Contracts see the place of the prototype
/// of its definition, and the symbols to which its entry or its statements gave meanings.
#[derive(Drop)]
pub struct CallVariables {
    definition: Option<Origin>,
    known: KnownVariables,
}

impl Model for CallVariables {
    ghost use Rattle.variable_meanings.specs.Meanings.{Call};

    ghost Value = { Call };

    ghost view = { λ s. record { definition = s.definition; known = s.known } };
}

impl CallVariables {
    /// Those of a call at its entry, which gives it these values.
    pub fn entered(
        alloc: Global,
        definition: Option<Origin>,
        entry: &[Setting],
    ) -> Result<CallVariables, OutOfMemory>
        ensures { IfOk result (λ call. call ≡ meanings.entered definition entry.now) }
    {
        let mut known = KnownVariables::new(alloc);
        known.enter(alloc, own_scope(definition), entry)?;
        Ok(CallVariables { definition, known })
    }

    /// What a symbol means before the statement that is met next, if it has a meaning.
    pub fn meaning(&self, name: &Name) -> Option<Meaning>
        ensures { result ≡ meanings.meaning self.now name.now }
    {
        if knows_system(self.definition, name) {
            return Some(Meaning {
                scope: own_scope(self.definition),
                role: Role::System,
            });
        }
        self.known.meaning(name)
    }

    /// What a symbol means at a place of the fields of the statement of a point that is met next: what it meant before, or what
    /// the statement gives it there.
    pub fn meaning_at(
        &self,
        field: Field,
        at: u32,
        item: &TraceItem,
        name: &Name,
    ) -> Option<Meaning>
        ensures { result ≡ meanings.meaning_at self.now field at item.now name.now }
    {
        match self.meaning(name) {
            Some(meaning) => Some(meaning),
            None => given(own_scope(self.definition), field, at, item, name),
        }
    }

    /// Passes the statement of a point. What an `Err` leaves is of no use.
    pub fn pass(&mut self, alloc: Global, item: &TraceItem) -> Result<(), OutOfMemory>
        ensures { OnOk result (self.new ≡ meanings.after_item self.old item.now) }
    {
        self.known.pass(alloc, own_scope(self.definition), item)
    }
}
