//! Symbols that are defined.
ghost use Rattle.std.specs.Prelude.{◌≡◌, [], OnOk};
ghost use Rattle.std.specs.List.{list_any};
ghost use Rattle.std.specs.Str.{bytes_eq};
ghost use Rattle.defined_symbols.specs.Symbols as symbols;

use hl_base::{Line, Name, OutOfMemory};
use indexmap::IndexSet;
use label_attributes::meanings;
use std::alloc::Global;
use std::marker::Model;
use symbol_attributes::{OpMeaning, defines};

/// The symbols that were defined. Contracts see the list of their names, each once, in the order in which they came.
#[derive(Drop)]
pub struct DefinedSymbols {
    names: IndexSet<String>,
}

impl Model for DefinedSymbols {
    ghost use Rattle.std.specs.Prelude.{ℕ, List};
    ghost use Rattle.defined_symbols.specs.Held.{spelled};

    ghost Value = { List (List ℕ) };

    ghost view = { λ s. spelled s.names.keys };
}

/// The symbol that the label of a statement defines, if it defines one.
fn label_in(line: &Line) -> Option<Name>
    ensures { result ≡ symbols.label_in line.now }
{
    let op = Name::read(line.op.as_str())?;
    if !defines(&OpMeaning::built_in(&op)) {
        return None;
    }
    Name::read(line.label.as_str())
}

/// The same of a statement that was generated, if one was.
fn label_of(line: &Option<Line>) -> Option<Name>
    ensures { result ≡ symbols.label_of line.now }
{
    match line {
        Some(line) => label_in(line),
        None => None,
    }
}

impl DefinedSymbols {
    /// No symbol. It takes no memory.
    pub fn new(alloc: Global) -> DefinedSymbols
        ensures { result ≡ [] }
    {
        DefinedSymbols {
            names: IndexSet::new(alloc),
        }
    }

    /// Whether a symbol was defined.
    fn has(&self, name: &Name) -> bool
        ensures { result ≡ list_any (bytes_eq name.now) self.now }
    {
        self.names.contains(name.text())
    }

    /// The symbol that the label of the statement that comes next defines first of all, if one was generated and it does.
    pub fn first(&self, line: &Option<Line>) -> Option<Name>
        ensures { result ≡ symbols.first_in self.now line.now }
    {
        match label_of(line) {
            Some(name) => {
                if self.has(&name) {
                    return None;
                }
                Some(name)
            }
            None => None,
        }
    }

    /// A symbol is defined.
    fn note(&mut self, alloc: Global, name: &Name) -> Result<(), OutOfMemory>
        ensures { OnOk result (self.new ≡ symbols.with_symbol self.old name.now) }
    {
        let key = String::from_str(alloc, name.text())?;
        self.names.insert(key)?;
        Ok(())
    }

    /// A statement was generated.
    fn pass_line(&mut self, alloc: Global, line: &Line) -> Result<(), OutOfMemory>
        ensures { OnOk result (self.new ≡ symbols.with_symbols self.old (symbols.defined_in line.now)) }
    {
        let mut left = meanings(alloc, line)?;
        while let Some(one) = left.pop_front() {
            self.note(alloc, &one.name)?;
        }
        Ok(())
    }

    /// Passes what comes next: a statement, if one was generated. What an `Err` leaves is of no use.
    pub fn pass(&mut self, alloc: Global, line: &Option<Line>) -> Result<(), OutOfMemory>
        ensures { OnOk result (self.new ≡ symbols.with_symbols self.old (symbols.defined_by line.now)) }
    {
        match line {
            Some(line) => self.pass_line(alloc, line),
            None => Ok(()),
        }
    }
}
