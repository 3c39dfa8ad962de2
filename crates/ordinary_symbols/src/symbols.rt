//! The table of symbols.
ghost use Rattle.std.specs.Prelude.{◌≡◌, ◌↔◌, ◌≤◌, ◌⊎◌, [], ◌∷◌, ◌++◌, ◌<◌, IfErr, OnOk, OnErr, IsErrOf, None, length, slice_get, vec_len, vec_capacity};
ghost use Rattle.std.specs.Option.{option_map, option_copied};
ghost use Rattle.expression_grammar.specs.Trees.{size};
ghost use Rattle.expression_grammar.specs.Spelling.{most_parts};
ghost use Rattle.expression_grammar.specs.Views.{tree_of};
ghost use Rattle.ordinary_symbols.specs.declared.fault.DefineFault.TheVariants.{AlreadyDefined, OutOfMemory};
ghost use Rattle.ordinary_symbols.specs.Table.{IsDefined, place_of, known, row_of, trouble_at, Settled, Deferred as Waiting};
ghost use Rattle.ordinary_symbols.specs.Sections.{value_in};
ghost use Rattle.ordinary_symbols.specs.Views.{entry_of, names_of};

use crate::held::{Deferred, Held, Standing};
use crate::key::Key;
use crate::{DefineFault, Known, Trouble};
use expression_grammar::Expr;
use hl_base::Name;
use indexmap::IndexSet;
use std::alloc::Global;
use trace_values::{Reloc, SymbolRow};

/// The ordinary symbols of an assembly. Contracts see the list of them in order of definition, each with its row and how it
/// stands.
#[derive(Drop)]
pub struct Symbols {
    pub(crate) rows: Vec<Held>,
    names: IndexSet<Key>,
    ghost named: { names.keys ≡ names_of rows.items },
}

impl Symbols {
    ghost use Rattle.ordinary_symbols.specs.Shown.{table_of};

    /// No symbol. It takes no memory.
    pub fn new(alloc: Global) -> Symbols
        ensures { table_of result ≡ [] }
    {
        Symbols {
            rows: Vec::new(alloc),
            names: IndexSet::new(alloc),
        }
    }

    /// The place of the symbol of a name.
    pub(crate) fn place(&self, name: &Name) -> Option<usize>
        ensures { result ≡ place_of (table_of self.now) name.now }
    {
        self.names.get_index_of(name.text())
    }

    /// What is known of the symbol of a name.
    pub fn known(&self, name: &Name) -> Option<Known>
        ensures { result ≡ known (table_of self.now) name.now }
    {
        let place = self.place(name)?;
        let held = self.rows.get(place)?;
        held.known()
    }

    /// The value of the symbol of a name, if it is defined and has one.
    pub fn value(&self, name: &Name) -> Option<Reloc>
        ensures { result ≡ value_in (known (table_of self.now) name.now) }
    {
        let known = self.known(name)?;
        Some(known.value)
    }

    /// How many symbols there are.
    pub fn count(&self) -> usize
        ensures { result ≡ length (table_of self.now) }
    {
        self.rows.len()
    }

    /// The row of the symbol at a place, counted from 0 in order of definition.
    #[tactic(auto, using(crate::proofs::Lists::slice_get_mapped))]
    pub fn row(&self, at: usize) -> Option<&SymbolRow>
        ensures { option_copied result ≡ option_map row_of (slice_get (table_of self.now) at) }
    {
        let held = self.rows.get(at)?;
        Some(&held.row)
    }

    /// Why the EQU of the symbol at a place has no value, if it has none.
    pub fn trouble(&self, at: usize) -> Option<Trouble>
        ensures { result ≡ trouble_at (slice_get (table_of self.now) at) }
    {
        let held = self.rows.get(at)?;
        held.trouble()
    }

    /// Defines a symbol. An `Err` changes nothing.
    pub fn define(&mut self, alloc: Global, row: SymbolRow) -> Result<(), DefineFault>
        ensures already { IsErrOf result AlreadyDefined ↔ IsDefined (table_of self.old) row.name }
        ensures defined { OnOk result (table_of self.new ≡ table_of self.old ++ record { row = row; standing = Settled } ∷ []) }
        ensures kept { OnErr result (table_of self.new ≡ table_of self.old) }
        ensures only { IfErr result (λ fault. (fault ≡ AlreadyDefined) ⊎ (fault ≡ OutOfMemory)) }
    {
        self.admit(Held {
            row,
            standing: Standing::Settled,
        })
    }

    /// Defines the symbol of an EQU whose expression has no value yet. Its length is set together with its value, unless it
    /// is `sized`. An `Err` changes nothing.
    pub fn defer(
        &mut self,
        alloc: Global,
        row: SymbolRow,
        sized: bool,
        e: Expr,
        here: Option<Reloc>,
    ) -> Result<(), DefineFault>
        requires { size (tree_of e) ≤ most_parts }
        ensures already { IsErrOf result AlreadyDefined ↔ IsDefined (table_of self.old) row.name }
        ensures deferred { OnOk result (table_of self.new ≡ table_of self.old ++ record { row = record row { value = None }; standing = Waiting sized (tree_of e) here } ∷ []) }
        ensures kept { OnErr result (table_of self.new ≡ table_of self.old) }
        ensures only { IfErr result (λ fault. (fault ≡ AlreadyDefined) ⊎ (fault ≡ OutOfMemory)) }
    {
        if self.place(&row.name).is_some() {
            return Err(DefineFault::AlreadyDefined);
        }
        let deferred = Deferred {
            sized,
            expression: e,
            here,
        };
        let standing = Standing::Deferred(Box::new(alloc, deferred)?);
        let row = without_value(row);
        self.admit(Held { row, standing })
    }

    /// Why a symbol of this name is not admitted for which there is no memory.
    fn refusal(&self, name: &Name) -> DefineFault
        ensures already { (result ≡ AlreadyDefined) ↔ IsDefined (table_of self.now) name.now }
        ensures only { (result ≡ AlreadyDefined) ⊎ (result ≡ OutOfMemory) }
    {
        match self.place(name) {
            Some(_) => DefineFault::AlreadyDefined,
            None => DefineFault::OutOfMemory,
        }
    }

    /// A symbol of a new name goes last. Whether its name is new is found where it is added, so that it is sought once.
    fn admit(&mut self, held: Held) -> Result<(), DefineFault>
        ensures already { IsErrOf result AlreadyDefined ↔ IsDefined (table_of self.old) held.row.name }
        ensures admitted { OnOk result (table_of self.new ≡ table_of self.old ++ entry_of held ∷ []) }
        ensures kept { OnErr result (table_of self.new ≡ table_of self.old) }
        ensures only { IfErr result (λ fault. (fault ≡ AlreadyDefined) ⊎ (fault ≡ OutOfMemory)) }
    {
        if self.rows.reserve(1).is_err() {
            return Err(self.refusal(&held.row.name));
        }
        let key = Key {
            name: held.row.name.copy(),
        };
        match self.names.insert(key) {
            Ok(new) => {
                if !new {
                    return Err(DefineFault::AlreadyDefined);
                }
                push_within(&mut self.rows, held);
                Ok(())
            }
            Err(_) => Err(DefineFault::OutOfMemory),
        }
    }
}

/// The row of a symbol that has no value yet.
fn without_value(row: SymbolRow) -> SymbolRow
    ensures { result ≡ record row { value = None } }
{
    let mut row = row;
    row.value = None;
    row
}

/// A symbol goes last, for which there is room.
fn push_within(rows: &mut Vec<Held>, held: Held)
    requires { vec_len rows.old < vec_capacity rows.old }
    ensures { rows.new.items ≡ rows.old.items ++ held ∷ [] }
{
    let _ = rows.push(held);
}
