//! Literals.
ghost use Rattle.std.specs.Prelude.{◌≡◌, ◌++◌, ◌∷◌, [], ◌<◌, map, min, IfOk, OnOk};
ghost use Rattle.constant_operands.specs.Views.{operand_of};
ghost use Rattle.layout_statements.specs.Views.{read_literal_of};
ghost use Rattle.literal_places.specs.Shown.{literals_of};
ghost use Rattle.ordinary_symbols.specs.Shown.{table_of};
ghost use Rattle.ordinary_symbols.specs.Table.{known};
ghost use Rattle.section_steps.specs.Legible as measures;
ghost use Rattle.section_steps.specs.Instructions as spec;

use crate::gathering::{Gathered, measured};
use constant_operands::Extent;
use hl_base::OutOfMemory;
use layout_statements::ReadLiteral;
use literal_places::{LiteralUse, Literals};
use ordinary_symbols::Symbols;
use std::alloc::Global;
use std::collections::VecDeque;
use trace_values::Reloc;

/// How many bytes a literal takes, as 32 bits count them.
fn counted(bytes: u64) -> u32
    ensures { result ≡ min bytes 4294967295 }
{
    match u32::try_from(bytes) {
        Ok(bytes) => bytes,
        Err(_) => u32::MAX,
    }
}

/// A literal that takes room joins the open pool.
fn join(
    alloc: Global,
    literals: &mut Literals,
    text: &str,
    extent: Option<Extent>,
) -> Result<Option<LiteralUse>, OutOfMemory>
    ensures joined { OnOk result (literals_of literals.new ≡ spec.joined_by extent text.now (literals_of literals.old)) }
    ensures used { IfOk result (λ used. used ≡ spec.used_by extent text.now (literals_of literals.new)) }
{
    match extent {
        Some(extent) => literals.add(alloc, text, counted(extent.bytes)),
        None => Ok(None),
    }
}

/// A literal is used at a place.
#[tactic(auto, unfolding(crate::specs::Instructions::joined, crate::specs::Instructions::used, crate::specs::Legible::legible))]
fn use_literal(
    alloc: Global,
    symbols: &Symbols,
    here: Option<Reloc>,
    literals: &mut Literals,
    literal: ReadLiteral,
    gathered: &mut Gathered,
) -> Result<(), OutOfMemory>
    ensures joined { OnOk result (literals_of literals.new ≡ spec.joined (known (table_of symbols.now)) here (read_literal_of literal)
        (literals_of literals.old)) }
    ensures used { OnOk result (gathered.new.uses.items
        ≡ gathered.old.uses.items ++ spec.used (known (table_of symbols.now)) here (read_literal_of literal)
        (literals_of literals.old) ∷ []) }
    ensures said { OnOk result (gathered.new.said.items
        ≡ gathered.old.said.items ++ (measures.measured (known (table_of symbols.now)) here (operand_of literal.constant)).said) }
    ensures operands { OnOk result (map operand_of gathered.new.operands.items
        ≡ map operand_of gathered.old.operands.items ++ measures.legible (known (table_of symbols.now)) here
        (operand_of literal.constant)) }
{
    let ReadLiteral { text, constant } = literal;
    let measure = measured(alloc, symbols, here, &constant)?;
    let used = join(alloc, literals, text.as_str(), measure.extent)?;
    gathered.uses.push(used)?;
    gathered.gather(constant, measure.said)
}

/// Each literal is used at a place, in order.
pub(crate) fn use_literals(
    alloc: Global,
    symbols: &Symbols,
    here: Option<Reloc>,
    literals: &mut Literals,
    read: Vec<ReadLiteral>,
    gathered: &mut Gathered,
) -> Result<(), OutOfMemory>
    ensures joined { OnOk result (literals_of literals.new
        ≡ spec.all_joined (known (table_of symbols.now)) here (map read_literal_of read.items) (literals_of literals.old)) }
    ensures used { OnOk result (gathered.new.uses.items
        ≡ gathered.old.uses.items ++ spec.all_used (known (table_of symbols.now)) here (map read_literal_of read.items)
        (literals_of literals.old)) }
    ensures said { OnOk result (gathered.new.said.items
        ≡ gathered.old.said.items ++ spec.said_of_all (known (table_of symbols.now)) here (map read_literal_of read.items)) }
    ensures operands { OnOk result (map operand_of gathered.new.operands.items
        ≡ map operand_of gathered.old.operands.items ++ spec.all_legible (known (table_of symbols.now)) here
        (map read_literal_of read.items)) }
{
    let mut left = VecDeque::from(read);
    while let Some(literal) = left.pop_front() {
        use_literal(alloc, symbols, here, literals, literal, gathered)?;
    }
    Ok(())
}
