//! The symbols that a document defines.
ghost use Rattle.std.specs.Prelude.{◌≡◌, ◌++◌, ◌∷◌, [], IfOk, OnOk, filter, map, if◌then◌else◌};
ghost use Rattle.symbol_answers.specs.Answers as answers;

use hl_base::{Frame, OutOfMemory, PathId, Text};
use lsp_messages::{DocumentSymbol, DocumentSymbols, SymbolKind};
use std::alloc::Global;
use text_sites::TextSite;
use trace_values::{Reloc, SymbolRow};

/// Whether a statement of open code stands in the text of a path.
fn stands_in(stack: &[Frame], path: PathId) -> bool
    ensures { result ≡ answers.stands_in path.0 stack.now }
{
    match stack {
        [frame, ..] => frame.origin.path.0 == path.0,
        [] => false,
    }
}

/// The line in which a statement of open code begins.
fn line_of(stack: &[Frame]) -> u32
    ensures { result ≡ answers.line_of stack.now }
{
    match stack {
        [frame, ..] => frame.origin.line,
        [] => 0,
    }
}

/// What a symbol of a value is.
fn kind_of(value: Option<Reloc>) -> SymbolKind
    ensures { result ≡ answers.kind_of value }
{
    match value {
        Some(value) => match value.section {
            Some(_) => SymbolKind::Variable,
            None => SymbolKind::Constant,
        },
        None => SymbolKind::Variable,
    }
}

/// A symbol as the client is shown it.
fn symbol_of(
    alloc: Global,
    site: &TextSite<'_>,
    row: &SymbolRow,
) -> Result<DocumentSymbol, OutOfMemory>
    ensures { IfOk result (λ symbol. symbol ≡ answers.symbol_of site.now.text row.now) }
{
    Ok(DocumentSymbol {
        kind: kind_of(row.value),
        name: Text::of(alloc, row.name.text())?,
        range: site.line_span(line_of(row.stack.as_slice())),
    })
}

/// Adds a symbol, if its statement of open code stands in the text.
fn add_symbol(
    alloc: Global,
    symbols: &mut DocumentSymbols,
    site: &TextSite<'_>,
    path: PathId,
    row: &SymbolRow,
) -> Result<(), OutOfMemory>
    ensures { OnOk result (symbols.new ≡ symbols.old
        ++ map (answers.symbol_of site.now.text) (if answers.stands_in path.0 row.now.stack then row.now ∷ [] else [])) }
{
    if stands_in(row.stack.as_slice(), path) {
        symbols.push(symbol_of(alloc, site, row)?)?;
    }
    Ok(())
}

/// The symbols whose statements of open code stand in a text.
pub(crate) fn symbols_in(
    alloc: Global,
    site: &TextSite<'_>,
    path: PathId,
    rows: &[SymbolRow],
) -> Result<DocumentSymbols, OutOfMemory>
    ensures { IfOk result (λ symbols. symbols ≡ map (answers.symbol_of site.now.text) (filter (λ row. answers.stands_in path.0 row.stack) rows.now)) }
{
    let mut symbols = DocumentSymbols::new(alloc);
    for row in rows {
        add_symbol(alloc, &mut symbols, site, path, row)?;
    }
    Ok(symbols)
}
