//! What comes of the act of a statement: conditional assembly, generated statements and the ends of calls.
ghost use Rattle.std.specs.Prelude.{◌≡◌, ◌++◌, [], ◌∷◌, map, IfOk, OnOk, Some};
ghost use Rattle.kept_values.specs.Keys.{key_tree};
ghost use Rattle.asking_core.specs.Places.{pairs_of};
ghost use Rattle.plain_expansion.specs.Questions.{Comes};
ghost use Rattle.call_knowledge.specs.Knowledge.{Knowledge};
ghost use Rattle.expansion_step.specs.Meaning.{performed_by};
ghost use Rattle.call_sites.specs.Values.{known_tree};
ghost use Rattle.macro_binding.specs.Prototypes.{name_of};
ghost use Rattle.macro_expand.specs.Acts as acts;
ghost use Rattle.macro_expand.specs.Codes.{means};

use crate::{Passage, Said};
use asking_core::Noted;
use call_knowledge::{Change, Deed, Knowledge, Put};
use call_sites::{CallSite, Known};
use expansion_step::{Act as Acts, Performed};
use hl_base::{Answer, Declarations, Frames, Key, Line, Name, Notes, OutOfMemory, Text};
use label_attributes::{SymbolMeaning, meanings};
use note_rows::{Row, note};
use std::alloc::Global;
use std::collections::VecDeque;
use trace_values::Settings;

/// What a statement comes to. What is said of it stands apart: this is moved often, and that is larger than all else in it.
pub(crate) type Done = Performed<Passage, Name, Change, Box<Said>, CallSite, Key, Known>;

pub(crate) type Puts = Vec<Noted<Key, Known>>;

/// What is put.
fn puts_of(alloc: Global, put: Option<Put>) -> Result<Puts, OutOfMemory>
    ensures { IfOk result (λ ps. pairs_of key_tree known_tree ps.items ≡ acts.puts_of put) }
{
    let mut puts = Vec::new(alloc);
    match put {
        None => Ok(puts),
        Some(put) => {
            let key = put.key;
            let value = Known::Plain(put.answer);
            puts.push(Noted { key, value })?;
            Ok(puts)
        }
    }
}

/// Notes, and others behind them.
pub(crate) fn joined(alloc: Global, mut notes: Notes, more: &Notes) -> Result<Notes, OutOfMemory>
    ensures { IfOk result (λ all. all ≡ notes ++ more.now) }
{
    for note in more.as_slice() {
        notes.push(note.copy(alloc)?)?;
    }
    Ok(notes)
}

/// Nothing is said but these notes.
pub(crate) fn quiet(alloc: Global, notes: Notes) -> Result<Box<Said>, OutOfMemory>
    ensures { IfOk result (λ said. said.value ≡ acts.quiet notes) }
{
    let said = Said {
        notes,
        target: None,
        called: None,
        locals: Settings::new(alloc),
        declared: Declarations::new(alloc),
        globals: Settings::new(alloc),
        line: None,
    };
    Ok(Box::new(alloc, said)?)
}

/// A note more.
pub(crate) fn with_row(alloc: Global, row: &Row, mut notes: Notes) -> Result<Notes, OutOfMemory>
    ensures { IfOk result (λ all. all ≡ acts.with_row row.now notes) }
{
    notes.push(note(alloc, row, Frames::new(alloc))?)?;
    Ok(notes)
}

/// The next statement follows, and nothing has changed.
pub(crate) fn going_on(alloc: Global, said: Box<Said>) -> Done
    ensures { (k : Knowledge) → performed_by means k result ≡ Some (Comes (acts.going_on k said.value)) }
{
    Performed::Does(said, Acts::Continues(Change::Nothing, Vec::new(alloc)))
}

/// The next statement follows, and nothing is said but these notes.
pub(crate) fn passing(alloc: Global, notes: Notes) -> Result<Done, OutOfMemory>
    ensures { IfOk result (λ p. (k : Knowledge) → performed_by means k p ≡ Some (Comes (acts.going_on k (acts.quiet notes)))) }
{
    Ok(going_on(alloc, quiet(alloc, notes)?))
}

/// The same, with a note more.
pub(crate) fn refused(alloc: Global, row: &Row, notes: Notes) -> Result<Done, OutOfMemory>
    ensures { IfOk result (λ p. (k : Knowledge) → performed_by means k p ≡ Some (Comes (acts.refused k row.now notes))) }
{
    let notes = with_row(alloc, row, notes)?;
    Ok(going_on(alloc, quiet(alloc, notes)?))
}

/// A deed is done, and the next statement follows.
pub(crate) fn done_by(alloc: Global, deed: Deed, notes: Notes) -> Result<Done, OutOfMemory>
    ensures { IfOk result (λ p. (k : Knowledge) → performed_by means k p ≡ Some (Comes (acts.done_by k deed notes))) }
{
    let Deed {
        change,
        put,
        locals,
        globals,
        declared,
        notes: more,
    } = deed;
    let said = Said {
        notes: joined(alloc, notes, &more)?,
        target: None,
        called: None,
        locals,
        declared,
        globals,
        line: None,
    };
    let puts = puts_of(alloc, put)?;
    let said = Box::new(alloc, said)?;
    Ok(Performed::Does(said, Acts::Continues(change, puts)))
}

/// A branch to a sequence symbol, if one is left.
pub(crate) fn branching_to(
    alloc: Global,
    known: &Knowledge,
    label: Name,
    notes: Notes,
) -> Result<Done, OutOfMemory>
    ensures { IfOk result (λ p. performed_by means known.now p ≡ Some (Comes (acts.branching_to known.now label notes))) }
{
    let mut said = quiet(alloc, notes)?;
    said.target = Some(label.copy());
    Ok(Performed::Does(said, Acts::Branches(label, known.branching())))
}

/// Whether an operation begins a section.
fn is_section(op: &Name) -> bool
    ensures { result ≡ acts.is_section op.now }
{
    let name = op.text();
    name == "CSECT" || name == "DSECT" || name == "START"
}

/// The text of a section with this name, or of one that has none.
fn section_named(alloc: Global, name: Option<Name>) -> Result<Text, OutOfMemory>
    ensures { IfOk result (λ text. text ≡ acts.section_named name) }
{
    match name {
        None => Ok(Text::new(alloc)),
        Some(name) => Text::of(alloc, name.text()),
    }
}

/// What a generated statement puts of sections: the name of the one that it begins, if it begins one.
fn section_puts(alloc: Global, line: &Line) -> Result<Puts, OutOfMemory>
    ensures { IfOk result (λ ps. pairs_of key_tree known_tree ps.items ≡ acts.operation_puts (name_of line.now.op) line.now.label) }
{
    let mut puts = Vec::new(alloc);
    let Some(op) = Name::read(line.op.as_str()) else {
        return Ok(puts);
    };
    if is_section(&op) {
        let text = section_named(alloc, Name::read(line.label.as_str()))?;
        let value = Known::Plain(Answer::Chars(text));
        puts.push(Noted {
            key: Key::Sect,
            value,
        })?;
    }
    Ok(puts)
}

/// Adds what is put of a symbol: what it means from then on.
pub(crate) fn push_symbol(puts: &mut Puts, one: SymbolMeaning) -> Result<(), OutOfMemory>
    ensures { OnOk result (pairs_of key_tree known_tree puts.new.items ≡ pairs_of key_tree known_tree puts.old.items ++ acts.symbol_put one ∷ []) }
{
    let SymbolMeaning { name, attr } = one;
    puts.push(Noted {
        key: Key::Sym(name),
        value: Known::Plain(Answer::Meaning(attr)),
    })?;
    Ok(())
}

/// Adds what is put of some symbols.
fn push_symbols(puts: &mut Puts, mut found: VecDeque<SymbolMeaning>) -> Result<(), OutOfMemory>
    ensures { OnOk result (pairs_of key_tree known_tree puts.new.items
        ≡ pairs_of key_tree known_tree puts.old.items ++ map acts.symbol_put found.items) }
{
    while let Some(one) = found.pop_front() {
        push_symbol(puts, one)?;
    }
    Ok(())
}

/// What a generated statement puts: the name of the section that it begins, if it begins one, and what it tells of symbols.
fn line_puts(alloc: Global, line: &Line) -> Result<Puts, OutOfMemory>
    ensures { IfOk result (λ ps. pairs_of key_tree known_tree ps.items ≡ acts.line_puts line.now) }
{
    let mut puts = section_puts(alloc, line)?;
    push_symbols(&mut puts, meanings(alloc, line)?)?;
    Ok(puts)
}

/// A statement is generated.
pub(crate) fn generating(alloc: Global, line: Line, notes: Notes) -> Result<Done, OutOfMemory>
    ensures { IfOk result (λ p. (k : Knowledge) → performed_by means k p ≡ Some (Comes (acts.generated k line notes))) }
{
    let puts = line_puts(alloc, &line)?;
    let mut said = quiet(alloc, notes)?;
    said.line = Some(line);
    Ok(Performed::Does(said, Acts::Continues(Change::Nothing, puts)))
}

/// The macro ends; there is none in open code.
pub(crate) fn leaving(
    alloc: Global,
    known: &Knowledge,
    name: Name,
    notes: Notes,
) -> Result<Done, OutOfMemory>
    ensures { IfOk result (λ p. performed_by means known.now p ≡ Some (Comes (acts.leaving known.now name notes))) }
{
    if known.binding().is_some() {
        return Ok(Performed::Does(quiet(alloc, notes)?, Acts::Returns));
    }
    refused(alloc, &Row::OutsideMacro(name), notes)
}

/// All ends, and END is generated where its fields can be read.
pub(crate) fn ending(alloc: Global, line: Option<Line>, notes: Notes) -> Result<Done, OutOfMemory>
    ensures { IfOk result (λ p. (k : Knowledge) → performed_by means k p ≡ Some (Comes (acts.ended line notes))) }
{
    let mut said = quiet(alloc, notes)?;
    said.line = line;
    Ok(Performed::Does(said, Acts::Finishes))
}
