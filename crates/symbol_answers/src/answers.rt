//! The answers.
ghost use Rattle.std.specs.Prelude.{◌≡◌, IfOk};
ghost use Rattle.symbol_answers.specs.Answers as answers;

use crate::question::{asked, definition_of};
use crate::spots::{place_told, references_told};
use crate::symbols::symbols_in;
use crate::wording::hover_text;
use document_store::DocumentStore;
use hl_base::{OutOfMemory, PathId, Position, Text};
use lsp_messages::{Locations, SymbolAnswer};
use std::alloc::Global;
use text_sites::site_at;
use trace_values::{Occurrence, Section, SymbolRow};

/// Where the symbol at a position is defined (LSP 3.17, "Goto Definition Request"). The occurrences are those that stand, in
/// the order of processing.
#[tactic(auto, unfolding(crate::specs::Answers::definition))]
pub fn definition(
    alloc: Global,
    occurrences: &[Occurrence],
    store: &DocumentStore,
    path: PathId,
    at: Position,
) -> Result<SymbolAnswer, OutOfMemory>
    ensures { IfOk result (λ answer. answer ≡ answers.definition store.now.store occurrences.now path.0 at) }
{
    match asked(store, occurrences, path, at) {
        Some(one) => place_told(alloc, store, definition_of(occurrences, &one.entity)),
        None => Ok(SymbolAnswer::Nothing),
    }
}

/// Where the symbol at a position is named (LSP 3.17, "Find References Request"), in the order of paths, lines and columns;
/// where it is defined only if declarations are wanted.
#[tactic(auto, unfolding(crate::specs::Answers::references))]
pub fn references(
    alloc: Global,
    occurrences: &[Occurrence],
    store: &DocumentStore,
    path: PathId,
    at: Position,
    declarations: bool,
) -> Result<SymbolAnswer, OutOfMemory>
    ensures { IfOk result (λ answer. answer ≡ answers.references store.now.store occurrences.now path.0 at declarations) }
{
    match asked(store, occurrences, path, at) {
        Some(one) => {
            let list = references_told(alloc, store, occurrences, &one.entity, declarations)?;
            Ok(SymbolAnswer::Places(list))
        }
        None => Ok(SymbolAnswer::Places(Locations::new(alloc))),
    }
}

/// What is said of the symbol at a position (LSP 3.17, "Hover Request").
#[tactic(auto, unfolding(crate::specs::Answers::hover))]
pub fn hover(
    alloc: Global,
    rows: &[SymbolRow],
    sections: &[Section],
    occurrences: &[Occurrence],
    store: &DocumentStore,
    path: PathId,
    at: Position,
) -> Result<SymbolAnswer, OutOfMemory>
    ensures { IfOk result (λ answer. answer ≡ answers.hover rows.now sections.now store.now.store occurrences.now path.0 at) }
{
    match asked(store, occurrences, path, at) {
        Some(one) => {
            let text = hover_text(alloc, rows, sections, store, one)?;
            Ok(SymbolAnswer::Hover(Text::of(alloc, text.as_str())?))
        }
        None => Ok(SymbolAnswer::Nothing),
    }
}

/// The symbols whose statements of open code stand in the text of a path (LSP 3.17, "Document Symbols Request"), in the order
/// of definition. In the text of a member no open code stands.
#[tactic(auto, unfolding(crate::specs::Answers::document_symbols))]
pub fn document_symbols(
    alloc: Global,
    rows: &[SymbolRow],
    store: &DocumentStore,
    path: PathId,
) -> Result<SymbolAnswer, OutOfMemory>
    ensures { IfOk result (λ answer. answer ≡ answers.document_symbols rows.now store.now.store path.0) }
{
    let site = site_at(alloc, store, path)?;
    let symbols = symbols_in(alloc, &site, path, rows)?;
    Ok(SymbolAnswer::Symbols(symbols))
}
