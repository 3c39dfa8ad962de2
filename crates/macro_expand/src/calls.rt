//! Macro calls.
ghost use Rattle.std.specs.Prelude.{◌≡◌, ◌++◌, [], Some, None, IfOk};
ghost use Rattle.kept_values.specs.Answers.{answer_tree};
ghost use Rattle.kept_values.specs.Keys.{key_tree};
ghost use Rattle.asking_core.specs.Places.{pairs_of};
ghost use Rattle.call_sites.specs.Values.{known_tree};
ghost use Rattle.conditional_asm.specs.Repeating as repeating;
ghost use Rattle.macro_library.specs.Contents.{content_of};
ghost use Rattle.plain_expansion.specs.Questions.{Comes, and_then, led_by};
ghost use Rattle.expansion_step.specs.Meaning.{performed_by};
ghost use Rattle.asked_definitions.specs.Asked.{sought};
ghost use Rattle.asked_definitions.specs.Led.{sought_by};
ghost use Rattle.call_knowledge.specs.Knowledge.{Knowledge};
ghost use Rattle.macro_expand.specs.Acts as acts;
ghost use Rattle.macro_expand.specs.Codes.{means, told_by};

use crate::Said;
use crate::acting::{Done, Puts, joined, push_symbol, quiet, refused};
use crate::definitions::row_of_fault;
use asked_definitions::{AskedOperation, Sought, asked_operation, known_at};
use asking_core::Noted;
use call_knowledge::{Knowledge, Surroundings};
use call_sites::{CallSite, Known, MacroCall};
use conditional_asm::once;
use expansion_step::{Act as Acts, Entry, Performed};
use hl_base::{Answer, Key, Name, Notes, Origin, OutOfMemory, Text};
use hlasm_statements::Statement;
use label_attributes::{SymbolMeaning, of_call};
use macro_binding::bind;
use macro_library::KeptDefinition;
use macro_operands::{CallOperands, CallValues, call_operands};
use note_rows::Row;
use std::alloc::Global;
use std::rc::Rc;
use trace_values::copy_notes;

/// These notes are said of a call of the macro whose prototype stands here.
fn said_call(alloc: Global, called: Origin, notes: Notes) -> Result<Box<Said>, OutOfMemory>
    ensures { IfOk result (λ said. said.value ≡ acts.said_call_at called notes) }
{
    let mut said = quiet(alloc, notes)?;
    said.called = Some(called);
    Ok(said)
}

/// Notes, and others behind them; that a symbol has no length attribute is said once.
fn once_joined(alloc: Global, notes: &Notes, more: &Notes) -> Result<Notes, OutOfMemory>
    ensures { IfOk result (λ all. all ≡ repeating.once (notes.now ++ more.now)) }
{
    let all = joined(alloc, copy_notes(alloc, notes)?, more)?;
    once(alloc, &all)
}

/// The macro begins, with these entries, behind these puts; the first notes are those of its statement.
fn entered(
    alloc: Global,
    definition: KeptDefinition,
    values: CallValues,
    before: Notes,
    more: &Notes,
    puts: Puts,
) -> Result<Done, OutOfMemory>
    ensures { IfOk result (λ p. (k : Knowledge) → performed_by means k p ≡ Some (Comes (acts.entered (content_of definition.definition.value) before
        (record { value = Some values; notes = more.now }) (pairs_of key_tree known_tree puts.items)))) }
{
    let origin = definition.definition.origin();
    let notes = once_joined(alloc, &before, more)?;
    let prototype = definition.definition.prototype();
    let (_binding, repeated) = bind(alloc, prototype, values.label.as_str(), &values.operands)?;
    let notes = joined(alloc, notes, &repeated)?;
    let CallValues { label, operands } = values;
    let call = CallSite::Macro(Rc::new(
        alloc,
        MacroCall {
            definition,
            name_entry: label,
            operands,
        },
    )?);
    let entry = Entry::Calling(call, puts);
    let limited = said_call(alloc, origin, before)?;
    Ok(Performed::Does(
        said_call(alloc, origin, notes)?,
        Acts::Enters(limited, entry),
    ))
}

/// There is no call, since one of its entries cannot be read.
fn not_entered(
    alloc: Global,
    definition: &KeptDefinition,
    before: Notes,
    more: &Notes,
) -> Result<Done, OutOfMemory>
    ensures { IfOk result (λ p. (k : Knowledge) → performed_by means k p ≡ Some (Comes (acts.entered (content_of definition.now.definition.value) before
        (record { value = None; notes = more.now }) []))) }
{
    let origin = definition.definition.origin();
    let notes = once_joined(alloc, &before, more)?;
    let limited = said_call(alloc, origin, before)?;
    Ok(Performed::Does(
        said_call(alloc, origin, notes)?,
        Acts::Enters(limited, Entry::Nowhere),
    ))
}

/// Whether an answer is that there is nothing.
fn tells_nothing(answer: &Answer) -> bool
    ensures { result ≡ acts.is_nothing (answer_tree answer.now) }
{
    match answer {
        Answer::Nothing => true,
        Answer::Number(_) => false,
        Answer::Bit(_) => false,
        Answer::Chars(_) => false,
        Answer::Defined => false,
        Answer::File(_, _) => false,
        Answer::Unreadable => false,
        Answer::Meaning(_) => false,
    }
}

/// Whether nothing is known.
fn is_nothing(known: &Known) -> bool
    ensures { result ≡ acts.is_nothing (known_tree known.now) }
{
    match known {
        Known::Plain(answer) => tells_nothing(answer),
        Known::Macro(_) => false,
        Known::Member(_) => false,
    }
}

/// What is put of the label of a call, of which this is known: it means a macro call, unless it means something already.
fn label_puts(alloc: Global, name: Name, known: &Known) -> Result<Puts, OutOfMemory>
    ensures { IfOk result (λ ps. pairs_of key_tree known_tree ps.items ≡ acts.label_puts name (known_tree known.now)) }
{
    let mut puts = Vec::new(alloc);
    if is_nothing(known) {
        let attr = of_call();
        push_symbol(&mut puts, SymbolMeaning { name, attr })?;
    }
    Ok(puts)
}

/// The macro begins, with these entries, as far as the answers lead: what its label means is asked before.
fn labelling(
    alloc: Global,
    answers: &[Noted<Key, Known>],
    definition: KeptDefinition,
    values: CallValues,
    before: Notes,
    more: &Notes,
) -> Result<Done, OutOfMemory>
    ensures { IfOk result (λ p. (k : Knowledge) → performed_by means k p ≡ Some (led_by (told_by answers.now)
        (acts.labelling (content_of definition.definition.value) before (record { value = Some values; notes = more.now })
        (acts.call_label (Some values))))) }
{
    let Some(name) = Name::read(values.label.as_str()) else {
        return entered(alloc, definition, values, before, more, Vec::new(alloc));
    };
    let key = Key::Sym(name.copy());
    let Some(known) = known_at(answers, &key) else {
        return Ok(Performed::Wants(key));
    };
    let puts = label_puts(alloc, name, known)?;
    entered(alloc, definition, values, before, more, puts)
}

/// A macro is called by a statement, as far as the answers lead.
fn entering(
    alloc: Global,
    statement: &Statement,
    known: &Knowledge,
    answers: &[Noted<Key, Known>],
    definition: KeptDefinition,
    notes: Notes,
) -> Result<Done, OutOfMemory>
    ensures { IfOk result (λ p. performed_by means known.now p ≡ Some (led_by (told_by answers.now)
        (acts.calling statement.now.label statement.now.operands known.now notes (content_of definition.definition.value)))) }
{
    let around = Surroundings {
        knowledge: known,
        answers,
    };
    match call_operands(alloc, statement, &around)? {
        CallOperands::Wants(key) => Ok(Performed::Wants(key)),
        CallOperands::Made(values, more) => {
            labelling(alloc, answers, definition, values, notes, &more)
        }
        CallOperands::Unreadable(more) => not_entered(alloc, &definition, notes, &more),
    }
}

/// A statement with an operation that is this, as far as the answers lead.
fn called_by(
    alloc: Global,
    statement: &Statement,
    known: &Knowledge,
    answers: &[Noted<Key, Known>],
    name: &Name,
    found: Sought,
    notes: Notes,
) -> Result<Done, OutOfMemory>
    ensures { IfOk result (λ p. performed_by means known.now p ≡ Some (led_by (told_by answers.now)
        (acts.called_by statement.now.label statement.now.operands known.now name.now notes (sought_by found)))) }
{
    match found {
        Sought::Macro(definition) => {
            entering(alloc, statement, known, answers, definition, notes)
        }
        Sought::Refused(fault) => refused(alloc, &row_of_fault(&fault), notes),
        Sought::Unreadable => refused(alloc, &Row::UnreadableMember(name.copy()), notes),
        Sought::Unknown => {
            let row = Row::UndefinedOperation(Text::of(alloc, name.text())?);
            refused(alloc, &row, notes)
        }
    }
}

/// A statement with an operation of this name that is not built in, as far as the answers lead.
pub(crate) fn calling(
    alloc: Global,
    statement: &Statement,
    known: &Knowledge,
    answers: &[Noted<Key, Known>],
    name: &Name,
    notes: Notes,
) -> Result<Done, OutOfMemory>
    ensures { IfOk result (λ p. performed_by means known.now p ≡ Some (led_by (told_by answers.now)
        (and_then (sought name.now) (acts.called_by statement.now.label statement.now.operands known.now name.now notes)))) }
{
    match asked_operation(alloc, name, answers)? {
        AskedOperation::Wants(key) => Ok(Performed::Wants(key)),
        AskedOperation::Found(found) => {
            called_by(alloc, statement, known, answers, name, found, notes)
        }
    }
}
