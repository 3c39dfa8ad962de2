//! The symbols of a generated statement with their meanings.
ghost use Rattle.std.specs.Prelude.{◌≡◌, ◌++◌, [], ◌∷◌, IfOk, OnOk, List, ℕ};
ghost use Rattle.std.specs.Str.{chars};
ghost use Rattle.symbol_attributes.specs.Attributes.{attributes};
ghost use Rattle.symbol_attributes.specs.declared.meaning.OpMeaning.TheVariants.{Other};
ghost use Rattle.label_attributes.specs.Meanings as spec;

use hl_base::{Attr, Line, Name, OutOfMemory, Text};
use operand_list::split_operands;
use std::alloc::Global;
use std::collections::VecDeque;
use symbol_attributes::{OpMeaning, attributes, defines, external};

/// A symbol, and what it means to attribute references.
#[derive(Drop)]
pub struct SymbolMeaning {
    pub name: Name,
    pub attr: Attr,
}

/// Adds a symbol with its meaning behind others.
fn push(found: &mut VecDeque<SymbolMeaning>, name: Name, attr: Attr) -> Result<(), OutOfMemory>
    ensures { OnOk result (found.new.items ≡ found.old.items ++ record { name = name; attr = attr } ∷ []) }
{
    found.push_back(SymbolMeaning { name, attr })?;
    Ok(())
}

/// Adds the label of an operation with these operands, where it is a symbol and is defined there.
fn add_label(
    found: &mut VecDeque<SymbolMeaning>,
    alloc: Global,
    op: &OpMeaning,
    label: &Text,
    operands: &Text,
) -> Result<(), OutOfMemory>
    ensures { OnOk result (found.new.items ≡ found.old.items ++ spec.at_label op.now (spec.name_of label.now) operands.now) }
{
    match Name::read(label.as_str()) {
        Some(name) => {
            if !defines(op) {
                return Ok(());
            }
            let attr = attributes(alloc, op, operands.as_str())?;
            push(found, name, attr)
        }
        None => Ok(()),
    }
}

/// Adds the operand, where it is a symbol, with this meaning.
fn add_operand(
    found: &mut VecDeque<SymbolMeaning>,
    operand: &Text,
    attr: Attr,
) -> Result<(), OutOfMemory>
    ensures { OnOk result (found.new.items ≡ found.old.items ++ spec.symbol_with attr (spec.name_of operand.now)) }
{
    match Name::read(operand.as_str()) {
        Some(name) => push(found, name, attr),
        None => Ok(()),
    }
}

/// Adds those of some operands that are symbols, with this meaning.
fn add_operands(
    found: &mut VecDeque<SymbolMeaning>,
    mut operands: &[Text],
    attr: Attr,
) -> Result<(), OutOfMemory>
    ensures { OnOk result (found.new.items ≡ found.old.items ++ spec.symbols_with attr operands.entry.now) }
{
    while let [operand, rest @ ..] = operands {
        add_operand(found, operand, attr)?;
        operands = rest;
    }
    Ok(())
}

/// Adds the symbols that an operation with these operands names as external.
fn add_external(
    found: &mut VecDeque<SymbolMeaning>,
    alloc: Global,
    op: &OpMeaning,
    operands: &Text,
) -> Result<(), OutOfMemory>
    ensures { OnOk result (found.new.items ≡ found.old.items ++ spec.named_by op.now operands.now) }
{
    let Some(attr) = external(op) else {
        return Ok(());
    };
    let split = split_operands(alloc, operands.as_str())?;
    add_operands(found, split.as_slice(), attr)
}

/// The symbols that a generated statement defines or names as external, in order, with what each means from then on.
pub fn meanings(alloc: Global, line: &Line) -> Result<VecDeque<SymbolMeaning>, OutOfMemory>
    ensures { IfOk result (λ found. found.items ≡ spec.meanings line.now) }
{
    let mut found = VecDeque::new(alloc);
    let Some(name) = Name::read(line.op.as_str()) else {
        return Ok(found);
    };
    let op = OpMeaning::built_in(&name);
    add_label(&mut found, alloc, &op, &line.label, &line.operands)?;
    add_external(&mut found, alloc, &op, &line.operands)?;
    Ok(found)
}

/// What the label of a macro call means until a statement defines it.
pub fn of_call() -> Attr
    ensures { result ≡ spec.of_call }
{
    Attr {
        letter: b'M',
        length: 1,
    }
}
