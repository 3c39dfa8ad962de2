//! The system variables of a macro.
ghost use Rattle.std.specs.Prelude.{◌≡◌, ◌++◌, IfOk, OnOk, codes, option_copied};
ghost use Rattle.macro_library.specs.Contents.{content_of};
ghost use Rattle.call_knowledge.specs.Tellings.{answers_of};
ghost use Rattle.macro_entry.specs.Entries as entries;

use asking_core::Noted;
use call_knowledge::call_sites::Known;
use call_knowledge::{SystemVariable, answered};
use hl_base::{Answer, Key, Name, OutOfMemory, Text};
use macro_library::{Def, SystemVariables};
use std::alloc::Global;

/// A system variable; `&SYSLIST` is none here, since a call's operands say what it stands for.
#[derive(Clone, Copy, Debug, PartialEq, Eq)]
pub enum System {
    Sysect,
    Sysmac,
    Sysndx,
    Sysnest,
    Sysparm,
}

/// Its name.
fn name_of(system: System) -> Name
    ensures { result ≡ entries.name_of system }
{
    match system {
        System::Sysect => Name::read("SYSECT").unwrap(),
        System::Sysmac => Name::read("SYSMAC").unwrap(),
        System::Sysndx => Name::read("SYSNDX").unwrap(),
        System::Sysnest => Name::read("SYSNEST").unwrap(),
        System::Sysparm => Name::read("SYSPARM").unwrap(),
    }
}

/// The number that is answered, or 0.
fn number_in(answer: Option<&Answer>) -> i32
    ensures { result ≡ entries.number_in (option_copied answer.entry) }
{
    match answer {
        Some(Answer::Number(number)) => *number,
        _ => 0,
    }
}

/// The text that is answered, or the empty one.
fn text_in(alloc: Global, answer: Option<&Answer>) -> Result<Text, OutOfMemory>
    ensures { IfOk result (λ text. text ≡ entries.text_in (option_copied answer.entry)) }
{
    match answer {
        Some(Answer::Chars(text)) => text.copy(alloc),
        _ => Ok(Text::new(alloc)),
    }
}

/// A number in decimal.
fn decimal(alloc: Global, number: i32) -> Result<Text, OutOfMemory>
    ensures { IfOk result (λ text. text ≡ entries.decimal number) }
{
    let digits = format!(in alloc; "{number}")?;
    Text::of(alloc, digits.as_str())
}

/// So many zeros, and then a text.
fn behind_zeros(alloc: Global, zeros: usize, text: &Text) -> Result<Text, OutOfMemory>
    ensures { IfOk result (λ padded. padded ≡ entries.behind_zeros zeros text.now) }
{
    let mut padded = Text::new(alloc);
    for _place in 0..zeros {
        padded.push_str("0")?;
    }
    padded.push_str(text.as_str())?;
    Ok(padded)
}

/// How many zeros stand before a number, so that it has four digits at least.
fn zeros_before(number: u32) -> usize
    ensures { result ≡ entries.zeros_before number }
{
    if number < 10 {
        return 3;
    }
    if number < 100 {
        return 2;
    }
    if number < 1000 {
        return 1;
    }
    0
}

/// A number in decimal, with zeros before it up to four digits.
fn index(alloc: Global, number: i32) -> Result<Text, OutOfMemory>
    ensures { IfOk result (λ text. text ≡ entries.index number) }
{
    let digits = decimal(alloc, number)?;
    behind_zeros(alloc, zeros_before(number.unsigned_abs()), &digits)
}

/// What it stands for in a macro of this operation, by the answers of its entry.
fn text_of(
    alloc: Global,
    system: System,
    operation: &Name,
    answers: &[Noted<Key, Known>],
) -> Result<Text, OutOfMemory>
    ensures { IfOk result (λ text. text ≡ entries.text_of system operation.now (answers_of answers.now)) }
{
    match system {
        System::Sysect => text_in(alloc, answered(answers, &Key::Sect)),
        System::Sysmac => Text::of(alloc, operation.text()),
        System::Sysndx => index(alloc, number_in(answered(answers, &Key::Counter))),
        System::Sysnest => decimal(alloc, number_in(answered(answers, &Key::Nest))),
        System::Sysparm => text_in(alloc, answered(answers, &Key::Parm)),
    }
}

/// Whether it is among those that are named.
fn is_named(named: SystemVariables, system: System) -> bool
    ensures { result ≡ entries.is_named named system }
{
    match system {
        System::Sysect => named.sysect,
        System::Sysmac => named.sysmac,
        System::Sysndx => named.sysndx,
        System::Sysnest => named.sysnest,
        System::Sysparm => named.sysparm,
    }
}

/// Those that a macro knows: those that its definition names, all of them where it may copy members.
#[tactic(auto, using(crate::proofs::SystemLaws::variables_said, crate::proofs::SystemLaws::copies_said))]
pub(crate) fn known_systems(definition: &Def) -> SystemVariables
    ensures { result ≡ entries.known_systems (content_of definition.now) }
{
    if definition.copies_later() {
        return SystemVariables {
            sysndx: true,
            sysect: true,
            syslist: true,
            sysmac: true,
            sysnest: true,
            sysparm: true,
        };
    }
    definition.variables()
}

/// Adds one, if it is named.
fn add(
    systems: &mut Vec<SystemVariable>,
    alloc: Global,
    system: System,
    named: SystemVariables,
    operation: &Name,
    answers: &[Noted<Key, Known>],
) -> Result<(), OutOfMemory>
    ensures { OnOk result (systems.new.items ≡ systems.old.items ++ entries.system_if named operation.now (answers_of answers.now) system) }
{
    if !is_named(named, system) {
        return Ok(());
    }
    let text = text_of(alloc, system, operation, answers)?;
    systems.push(SystemVariable {
        name: name_of(system),
        text,
    })?;
    Ok(())
}

/// Those that are named, in a macro of this operation, by the answers of its entry.
pub(crate) fn systems_of(
    alloc: Global,
    named: SystemVariables,
    operation: &Name,
    answers: &[Noted<Key, Known>],
) -> Result<Vec<SystemVariable>, OutOfMemory>
    ensures { IfOk result (λ systems. systems.items ≡ entries.systems_of named operation.now (answers_of answers.now)) }
{
    let mut systems = Vec::new(alloc);
    add(
        &mut systems,
        alloc,
        System::Sysect,
        named,
        operation,
        answers,
    )?;
    add(
        &mut systems,
        alloc,
        System::Sysmac,
        named,
        operation,
        answers,
    )?;
    add(
        &mut systems,
        alloc,
        System::Sysndx,
        named,
        operation,
        answers,
    )?;
    add(
        &mut systems,
        alloc,
        System::Sysnest,
        named,
        operation,
        answers,
    )?;
    add(
        &mut systems,
        alloc,
        System::Sysparm,
        named,
        operation,
        answers,
    )?;
    Ok(systems)
}
