//! Entries with variable symbols.
ghost use Rattle.std.specs.Prelude.{◌≡◌, IfOk};
ghost use Rattle.std.specs.Str.{chars};
ghost use Rattle.conditional_fields.specs.Answers.{Says};
ghost use Rattle.statement_reading.specs.Symbols as symbols;
ghost use Rattle.statement_reading.specs.Templates as templates;
ghost use Rattle.statement_reading.specs.Views.{found_of, parts_of};

use conditional_fields::Template;
use conditional_fields::front::{Sought, reach};
use conditional_fields::operand_grammar::SyntaxFault;
use conditional_fields::template::{Found, symbol};
use hl_base::OutOfMemory;
use std::alloc::Global;

/// The variable symbol that a text begins with, if it can be read.
pub(crate) fn read_symbol(alloc: Global, text: &str) -> Result<Option<Found>, OutOfMemory>
    ensures { IfOk result (λ found. found_of found ≡ symbols.symbol (chars text.now)) }
{
    symbol(alloc, text)
}

/// How many characters of a text some variable symbol begins with.
pub(crate) fn symbol_length(alloc: Global, text: &str) -> Result<u32, OutOfMemory>
    ensures { IfOk result (λ count. count ≡ symbols.reach (chars text.now)) }
{
    reach(alloc, Sought::Variable, text)
}

/// The pieces of a field.
pub(crate) fn read_template(alloc: Global, field: &str) -> Result<Template, SyntaxFault>
    ensures { Says parts_of (templates.template (chars field.now)) result }
{
    Template::read(alloc, field)
}

/// Whether a text has an ampersand.
pub(crate) fn has_ampersand(text: &str) -> bool
    ensures { result ≡ templates.has_ampersand (chars text.now) }
{
    text.chars().any(|c| c == '&')
}
