//! The registers that operands are.
ghost use Rattle.std.specs.Prelude.{◌≡◌, [], ◌∷◌, ◌++◌, IfOk, OnOk};
ghost use Rattle.std.specs.Option.{option_map};
ghost use Rattle.constant_grammar.specs.Views.{tree_in};
ghost use Rattle.ordinary_symbols.specs.Shown.{table_of};
ghost use Rattle.ordinary_symbols.specs.Table.{known};
ghost use Rattle.using_statements.specs.Values as spec;
ghost use Rattle.using_statements.specs.Views.{trees_of};

use crate::values::register_of;
use constant_grammar::Formula;
use hl_base::OutOfMemory;
use ordinary_symbols::Symbols;
use std::alloc::Global;
use trace_values::Reloc;

/// The register that an expression is, if it is one.
#[tactic(auto, unfolding(crate::specs::Values::register_at))]
fn register_at(symbols: &Symbols, here: Option<Reloc>, formula: &Formula) -> Option<u8>
    ensures { result ≡ spec.register_at (known (table_of symbols.now)) here (tree_in formula.now) }
{
    register_of(&symbols.eval(&formula.tree, here))
}

/// Adds a register behind others.
fn push(registers: &mut Vec<u8>, register: u8) -> Result<(), OutOfMemory>
    ensures { OnOk result (registers.new.items ≡ registers.old.items ++ register ∷ []) }
{
    registers.push(register)?;
    Ok(())
}

/// The registers that some expressions are, if each is one.
#[tactic(auto, using(crate::proofs::Fronts::behind_none, crate::proofs::Fronts::behind_more, crate::proofs::Fronts::behind_all))]
pub(crate) fn registers_of(
    alloc: Global,
    symbols: &Symbols,
    here: Option<Reloc>,
    mut formulas: &[Formula],
) -> Result<Option<Vec<u8>>, OutOfMemory>
    ensures { IfOk result (λ found. option_map (λ registers. registers.items) found
        ≡ spec.registers_of (known (table_of symbols.now)) here (trees_of formulas.entry.now)) }
{
    let mut registers = Vec::new(alloc);
    while let [formula, rest @ ..] = formulas {
        match register_at(symbols, here, formula) {
            Some(register) => push(&mut registers, register)?,
            None => return Ok(None),
        }
        formulas = rest;
    }
    Ok(Some(registers))
}
