//! The entries of a call with the values of their variable symbols.
//!
//! Each call with notes tells an outcome, as those of `cond_expr::evaluate`.
ghost use Rattle.std.specs.Prelude.{◌≡◌, Ok, is_some};
ghost use Rattle.std.specs.Str.{chars};
ghost use Rattle.cond_expr.specs.Outcome.{Tells};
ghost use Rattle.conditional_fields.specs.Answers.{Says};
ghost use Rattle.statement_reading.specs.Fields as entries;
ghost use Rattle.statement_reading.specs.Readings.{sequence_label};
ghost use Rattle.statement_reading.specs.Templates as templates;
ghost use Rattle.statement_reading.specs.Views.{entry_of, parts_of};
ghost use Rattle.conditional_asm.specs.Generating.{entry_text};
ghost use Rattle.macro_operands.specs.Calling as calling;

use cond_expr::characters::limited;
use cond_expr::{Lookups, Stop};
use conditional_asm::{substitute, unreadable};
use conditional_fields::Template;
use conditional_fields::character::{head, name_of};
use hl_base::{Notes, Text};
use operand_grammar::{Operands, SyntaxFault};
use statement_reading::Entry;
use std::alloc::Global;

/// Whether a name entry is a sequence symbol.
fn is_sequence_symbol(label: &str) -> bool
    ensures { result ≡ is_some (sequence_label (chars label.now)) }
{
    match head(label) {
        Some((c, rest)) => c == '.' && name_of(rest).is_some(),
        None => false,
    }
}

/// What of a name entry is given to a call.
pub(crate) fn name_entry(label: &str) -> &str
    ensures { chars result.now ≡ calling.name_entry (chars label.now) }
{
    if is_sequence_symbol(label) { "" } else { label }
}

/// Whether a text has an ampersand.
fn is_varying(text: &str) -> bool
    ensures { result ≡ templates.has_ampersand (chars text.now) }
{
    text.chars().any(|c| c == '&')
}

/// The pieces of a text.
fn read_template(alloc: Global, text: &str) -> Result<Template, SyntaxFault>
    ensures { Says parts_of (templates.template (chars text.now)) result }
{
    Template::read(alloc, text)
}

/// An entry with an ampersand.
fn read_varying(alloc: Global, text: &str) -> Result<Entry, SyntaxFault>
    ensures { Says entry_of (entries.varied (templates.template (chars text.now))) result }
{
    match read_template(alloc, text) {
        Ok(template) => Ok(Entry::Varying(template)),
        Err(fault) => Err(fault),
    }
}

/// An entry as it is written, or in pieces.
fn read_entry(alloc: Global, text: &str) -> Result<Entry, SyntaxFault>
    ensures { Says entry_of (entries.entry (chars text.now) (chars text.now)) result }
{
    if is_varying(text) {
        return read_varying(alloc, text);
    }
    Ok(Entry::Written(Text::of(alloc, text)?))
}

/// An entry with the values of its variable symbols.
fn substituted<Q: Lookups>(
    alloc: Global,
    entry: Entry,
    q: &Q,
    notes: &mut Notes,
) -> Result<Text, Stop>
    ensures { Tells (entry_text (entry_of entry) (Q.told q.now)) notes.old notes.new result }
{
    match entry {
        Entry::Written(text) => Ok(text),
        Entry::Varying(template) => match substitute(alloc, &template, q, notes) {
            Ok(text) => Ok(text),
            Err(stop) => Err(stop),
        },
    }
}

/// The value of an entry that was read.
fn value_of<Q: Lookups>(
    alloc: Global,
    entry: Entry,
    q: &Q,
    notes: &mut Notes,
) -> Result<Option<Text>, Stop>
    ensures { Tells (calling.value_of (Ok (entry_of entry)) (Q.told q.now)) notes.old notes.new result }
{
    let text = substituted(alloc, entry, q, notes)?;
    let cut = limited(alloc, text, notes)?;
    Ok(Some(cut))
}

/// The value of a text; none, with a note, where it cannot be read.
pub(crate) fn value<Q: Lookups>(
    alloc: Global,
    text: &str,
    q: &Q,
    notes: &mut Notes,
) -> Result<Option<Text>, Stop>
    ensures { Tells (calling.value (chars text.now) (Q.told q.now)) notes.old notes.new result }
{
    match read_entry(alloc, text) {
        Ok(entry) => value_of(alloc, entry, q, notes),
        Err(SyntaxFault::At(at)) => {
            notes.push(unreadable(alloc, at)?)?;
            Ok(None)
        }
        Err(SyntaxFault::OutOfMemory) => Err(Stop::OutOfMemory),
    }
}

/// The values of some texts; none, where the first that cannot be read has its note.
pub(crate) fn values<Q: Lookups>(
    alloc: Global,
    texts: &[Text],
    q: &Q,
    notes: &mut Notes,
) -> Result<Option<Operands>, Stop>
    ensures { Tells (calling.values texts.now (Q.told q.now)) notes.old notes.new result }
{
    let mut done = Operands::new(alloc);
    for text in texts {
        match value(alloc, text.as_str(), q, notes) {
            Ok(Some(one)) => done.push(one)?,
            Ok(None) => return Ok(None),
            Err(stop) => return Err(stop),
        }
    }
    Ok(Some(done))
}
