//! Name entry and operands of a generated statement (SC26-4940, "Model statements").
ghost use Rattle.std.specs.Prelude.{◌≡◌, IfOk};
ghost use Rattle.std.specs.Str.{chars};
ghost use Rattle.conditional_fields.specs.Endings as endings;
ghost use Rattle.conditional_fields.specs.Answers.{Says};
ghost use Rattle.statement_reading.specs.Fields as entries;
ghost use Rattle.statement_reading.specs.Templates as templates;
ghost use Rattle.statement_reading.specs.Views.{entry_of, fields_of};

use crate::entry::{has_ampersand, read_template};
use conditional_fields::operand_grammar::SyntaxFault;
use conditional_fields::{Template, ended};
use hl_base::{OutOfMemory, Text};
use hlasm_statements::ends_quoted;
use std::alloc::Global;

/// An entry as it is written, or with variable symbols.
#[derive(Drop)]
pub enum Entry {
    Written(Text),
    Varying(Template),
}

/// Name entry and operands. Operands as they are written are all that belongs to the operand field; only they may have an
/// open end: they end within quotes.
#[derive(Drop)]
pub struct Fields {
    pub label: Entry,
    pub operands: Entry,
    pub open_end: bool,
}

/// An entry with an ampersand.
fn read_varying(alloc: Global, text: &str) -> Result<Entry, SyntaxFault>
    ensures { Says entry_of (entries.varied (templates.template (chars text.now))) result }
{
    match read_template(alloc, text) {
        Ok(template) => Ok(Entry::Varying(template)),
        Err(fault) => Err(fault),
    }
}

/// The name entry.
fn read_label(alloc: Global, label: &str) -> Result<Entry, SyntaxFault>
    ensures { Says entry_of (entries.entry (chars label.now) (chars label.now)) result }
{
    if has_ampersand(label) {
        return read_varying(alloc, label);
    }
    Ok(Entry::Written(Text::of(alloc, label)?))
}

/// The operands.
fn read_operands(alloc: Global, operands: &str) -> Result<Entry, SyntaxFault>
    ensures { Says entry_of (entries.entry (chars operands.now) (endings.field_of (chars operands.now))) result }
{
    if has_ampersand(operands) {
        return read_varying(alloc, operands);
    }
    Ok(Entry::Written(ended(alloc, operands)?))
}

/// Whether an entry is written and ends within quotes.
fn ends_open(entry: &Entry) -> Result<bool, OutOfMemory>
    ensures { IfOk result (λ open_end. open_end ≡ entries.ends_open (entry_of entry.now)) }
{
    match entry {
        Entry::Written(text) => ends_quoted(text.as_str()),
        Entry::Varying(_) => Ok(false),
    }
}

/// Whether operands without an ampersand end within quotes, also where the name entry cannot be read.
pub(crate) fn open_as_written(alloc: Global, operands: &str) -> Result<bool, OutOfMemory>
    ensures { IfOk result (λ open_end. open_end ≡ entries.open_as_written (chars operands.now)) }
{
    if has_ampersand(operands) {
        return Ok(false);
    }
    let field = ended(alloc, operands)?;
    ends_quoted(field.as_str())
}

/// A name entry alone.
pub(crate) fn read_alone(alloc: Global, label: &str) -> Result<Fields, SyntaxFault>
    ensures { Says fields_of (entries.alone (chars label.now)) result }
{
    match read_label(alloc, label) {
        Ok(label) => {
            let operands = Entry::Written(Text::new(alloc));
            let open_end = ends_open(&operands)?;
            Ok(Fields {
                label,
                operands,
                open_end,
            })
        }
        Err(fault) => Err(fault),
    }
}

/// Name entry and operands of a generated statement.
pub(crate) fn read_fields(alloc: Global, label: &str, operands: &str) -> Result<Fields, SyntaxFault>
    ensures { Says fields_of (entries.fields (chars label.now) (chars operands.now)) result }
{
    match read_label(alloc, label) {
        Ok(label) => match read_operands(alloc, operands) {
            Ok(operands) => {
                let open_end = ends_open(&operands)?;
                Ok(Fields {
                    label,
                    operands,
                    open_end,
                })
            }
            Err(fault) => Err(fault),
        },
        Err(fault) => Err(fault),
    }
}
