//! What is shown of a macro's call as it is entered.
ghost use Rattle.std.specs.Prelude.{◌≡◌, ◌+◌, [], ◌∷◌, ◌++◌, map, IfOk, OnOk, codes};
ghost use Rattle.std.specs.Str.{chars};
ghost use Rattle.macro_entry.specs.Shown as spec;

use call_knowledge::SystemVariable;
use hl_base::{Name, OutOfMemory, SetValue, Text};
use macro_binding::{Binding, Prototype, bind};
use operand_list::Operands;
use std::alloc::Global;
use std::rc::Rc;
use trace_values::{Setting, Settings};

/// Adds a text under a name.
fn add(
    settings: &mut Settings,
    alloc: Global,
    name: Name,
    number: u32,
    text: &str,
) -> Result<(), OutOfMemory>
    ensures { OnOk result (settings.new ≡ settings.old ++ spec.held name number (chars text.now) ∷ []) }
{
    let value = SetValue::C(Text::of(alloc, text)?);
    settings.push(Setting {
        name,
        element: number,
        value,
    })
}

/// The name that is spelled so. Parameters have no others: `OutOfMemory` where there is none.
fn name_spelled(text: &str) -> Result<Name, OutOfMemory>
    ensures { IfOk result (λ name. name ≡ text.now) }
{
    let Some(name) = Name::read(text) else {
        return Err(OutOfMemory);
    };
    if name.text() == text {
        return Ok(name);
    }
    Err(OutOfMemory)
}

/// The place behind one.
fn behind(place: usize) -> Result<usize, OutOfMemory>
    ensures { IfOk result (λ n. n ≡ place + 1) }
{
    place.checked_add(1).ok_or(OutOfMemory)
}

/// Adds the parameters.
fn add_parameters(
    settings: &mut Settings,
    alloc: Global,
    binding: &Binding,
) -> Result<(), OutOfMemory>
    ensures { OnOk result (settings.new ≡ settings.old ++ map spec.parameter_shown binding.now.parameters) }
{
    let mut place: usize = 0;
    while let Some(bound) = binding.at(place) {
        let name = name_spelled(bound.name)?;
        add(settings, alloc, name, 0, bound.value)?;
        place = behind(place)?;
    }
    Ok(())
}

/// Adds system variables.
fn add_systems(
    settings: &mut Settings,
    alloc: Global,
    systems: &[SystemVariable],
) -> Result<(), OutOfMemory>
    ensures { OnOk result (settings.new ≡ settings.old ++ map spec.system_shown systems.now) }
{
    for system in systems {
        add(settings, alloc, system.name.copy(), 0, system.text.as_str())?;
    }
    Ok(())
}

/// The name of the list of operands.
fn syslist() -> Name
    ensures { result ≡ codes "SYSLIST" }
{
    Name::read("SYSLIST").unwrap()
}

/// Whether an operand of a call is a positional one.
fn is_positional(
    alloc: Global,
    prototype: &Rc<Prototype>,
    operand: &Text,
) -> Result<bool, OutOfMemory>
    ensures { IfOk result (λ is. is ≡ spec.is_positional prototype.now.value.parameters operand.now) }
{
    let mut alone = Operands::new(alloc);
    alone.push(operand.copy(alloc)?)?;
    let (binding, _notes) = bind(alloc, prototype, "", &alone)?;
    Ok(binding.positional_count() == 1)
}

/// Adds an operand of a call, if it is a positional one.
#[tactic(auto, using(crate::proofs::ShownLaws::positional_alone, crate::proofs::ShownLaws::keyword_alone))]
fn add_positional(
    texts: &mut Operands,
    alloc: Global,
    prototype: &Rc<Prototype>,
    operand: &Text,
) -> Result<(), OutOfMemory>
    ensures { OnOk result (texts.new ≡ texts.old ++ spec.positional_among prototype.now.value.parameters (operand.now ∷ [])) }
{
    if is_positional(alloc, prototype, operand)? {
        texts.push(operand.copy(alloc)?)?;
    }
    Ok(())
}

/// Adds the positional ones among the operands of a call.
#[tactic(auto, using(crate::proofs::ShownLaws::positional_more))]
fn add_positionals(
    texts: &mut Operands,
    alloc: Global,
    prototype: &Rc<Prototype>,
    mut operands: &[Text],
) -> Result<(), OutOfMemory>
    ensures { OnOk result (texts.new ≡ texts.old ++ spec.positional_among prototype.now.value.parameters operands.entry.now) }
{
    while let [operand, rest @ ..] = operands {
        add_positional(texts, alloc, prototype, operand)?;
        operands = rest;
    }
    Ok(())
}

/// What `&SYSLIST` stands for with the numbers from 0 on, if it is named.
pub(crate) fn listed(
    alloc: Global,
    is_named: bool,
    prototype: &Rc<Prototype>,
    name_entry: &Text,
    operands: &Operands,
) -> Result<Operands, OutOfMemory>
    ensures { IfOk result (λ texts. texts ≡ spec.listed is_named name_entry.now
        (spec.positional_among prototype.now.value.parameters operands.now)) }
{
    let mut texts = Operands::new(alloc);
    if !is_named {
        return Ok(texts);
    }
    texts.push(name_entry.copy(alloc)?)?;
    add_positionals(&mut texts, alloc, prototype, operands.as_slice())?;
    Ok(texts)
}

/// Adds `&SYSLIST` with the numbers from 0 on.
fn add_operands(
    settings: &mut Settings,
    alloc: Global,
    mut texts: &[Text],
) -> Result<(), OutOfMemory>
    ensures { OnOk result (settings.new ≡ settings.old ++ spec.operands_shown 0 texts.entry.now) }
{
    let mut number: u32 = 0;
    while let [text, rest @ ..] = texts {
        add(settings, alloc, syslist(), number, text.as_str())?;
        number = number.checked_add(1).ok_or(OutOfMemory)?;
        texts = rest;
    }
    Ok(())
}

/// What is shown of a call whose operands are bound so: the parameters, these system variables, and `&SYSLIST` with these texts.
/// `OutOfMemory` also where it has more operands than a `u32` counts.
pub(crate) fn all_shown(
    alloc: Global,
    binding: &Binding,
    systems: &[SystemVariable],
    texts: &[Text],
) -> Result<Settings, OutOfMemory>
    ensures { IfOk result (λ settings. settings ≡ (map spec.parameter_shown binding.now.parameters ++ map spec.system_shown systems.now)
        ++ spec.operands_shown 0 texts.now) }
{
    let mut settings = Settings::new(alloc);
    add_parameters(&mut settings, alloc, binding)?;
    add_systems(&mut settings, alloc, systems)?;
    add_operands(&mut settings, alloc, texts)?;
    Ok(settings)
}
