//! What is written: the messages of the server.
ghost use Rattle.std.specs.Prelude.{◌≡◌, [], ◌∷◌, ◌++◌, OnOk, OnErr};

use crate::incoming::Id;
use hl_base::{OutOfMemory, Position, Text};
use serde_json::Value;
use std::alloc::Global;
use std::marker::Model;

/// What lies from one place up to another, which it leaves out.
#[derive(Clone, Copy, Debug, PartialEq, Eq)]
pub struct Span {
    pub start: Position,
    pub end: Position,
}

/// Another place that a report speaks of (LSP 3.17, `DiagnosticRelatedInformation`).
#[derive(Debug, Drop)]
pub struct Relation {
    pub uri: Text,
    pub range: Span,
    pub message: Text,
}

impl PartialEq for Relation {
    ghost use Rattle.std.specs.Cmp.{partial_equiv_from_equiv};
    ghost use Rattle.lsp_messages.specs.Same.{is_same_relation, is_same_relation-laws};

    ghost eq = { is_same_relation };

    ghost laws = { partial_equiv_from_equiv is_same_relation-laws };

    fn eq(&self, other: &Relation) -> bool {
        self.uri.as_str() == other.uri.as_str()
            && self.range == other.range
            && self.message.as_str() == other.message.as_str()
    }
}

/// One report of a document, as the editor shows it (LSP 3.17, `Diagnostic`); its severity is 1 for an error, 2 for a
/// warning, 3 for information.
#[derive(Debug, Drop)]
pub struct Diagnostic {
    pub code: Text,
    pub message: Text,
    pub range: Span,
    pub severity: u8,
    pub related: Relations,
}

impl PartialEq for Diagnostic {
    ghost use Rattle.std.specs.Cmp.{partial_equiv_from_equiv};
    ghost use Rattle.lsp_messages.specs.Same.{is_same_diagnostic, is_same_diagnostic-laws};

    ghost eq = { is_same_diagnostic };

    ghost laws = { partial_equiv_from_equiv is_same_diagnostic-laws };

    fn eq(&self, other: &Diagnostic) -> bool {
        self.code.as_str() == other.code.as_str()
            && self.message.as_str() == other.message.as_str()
            && self.range == other.range
            && self.severity == other.severity
            && self.related == other.related
    }
}

/// A place in a document (LSP 3.17, `Location`).
#[derive(Debug, Drop)]
pub struct Location {
    pub uri: Text,
    pub range: Span,
}

/// What a symbol is to an editor (LSP 3.17, `SymbolKind`: 13 and 14). One with an absolute value is a constant.
#[derive(Clone, Copy, Debug, PartialEq, Eq)]
pub enum SymbolKind {
    Variable,
    Constant,
}

/// A symbol of a document, and the statement that defines it (LSP 3.17, `DocumentSymbol`).
#[derive(Debug, Drop)]
pub struct DocumentSymbol {
    pub kind: SymbolKind,
    pub name: Text,
    pub range: Span,
}

/// What a request on symbols is answered: nothing, the place of a definition, places of references, the text of a hover, or
/// the symbols of a document.
#[derive(Debug, Drop)]
pub enum SymbolAnswer {
    Nothing,
    Place(Location),
    Places(Locations),
    Hover(Text),
    Symbols(DocumentSymbols),
}

/// A message of the server.
#[derive(Drop)]
pub enum LspOut {
    /// The answer to a request.
    Reply {
        id: Id,
        result: Value,
    },

    /// The refusal of a request, or of what has no id that can be read.
    Fault {
        id: Option<Id>,
        code: i32,
        message: Text,
    },

    /// A warning for the log of the client.
    Log {
        message: Text,
    },

    /// The list of a document: of this version of it, or of one that left.
    Published {
        uri: Text,
        version: Option<i32>,
        diagnostics: Diagnostics,
    },

    /// A message of a debug session for its client.
    Dap {
        session: u32,
        message: Value,
    },
}

/// Other places, in order. Contracts see the list.
#[derive(Debug, Drop)]
pub struct Relations {
    relations: Vec<Relation>,
}

impl Model for Relations {
    ghost use Rattle.std.specs.Prelude.{List};
    ghost use Rattle.lsp_messages.specs.declared.outgoing.Relation.{Relation};

    ghost Value = { List Relation };

    ghost view = { λ s. s.relations.items };
}

impl PartialEq for Relations {
    ghost use Rattle.std.specs.Cmp.{partial_equiv_from_equiv};
    ghost use Rattle.lsp_messages.specs.Same.{are_same_relations, are_same_relations-laws};

    ghost eq = { are_same_relations };

    ghost laws = { partial_equiv_from_equiv are_same_relations-laws };

    fn eq(&self, other: &Relations) -> bool {
        self.as_slice() == other.as_slice()
    }
}

impl Relations {
    /// No place.
    pub fn new(alloc: Global) -> Relations
        ensures { result ≡ [] }
    {
        Relations {
            relations: Vec::new(alloc),
        }
    }

    /// Adds a place behind those that are there. An `Err` changes nothing.
    pub fn push(&mut self, relation: Relation) -> Result<(), OutOfMemory>
        ensures ok { OnOk result (self.new ≡ self.old ++ relation ∷ []) }
        ensures err { OnErr result (self.new ≡ self.old) }
    {
        self.relations.push(relation)?;
        Ok(())
    }

    /// The places in order.
    pub fn as_slice(&self) -> &[Relation]
        ensures { result.now ≡ self.now }
    {
        self.relations.as_slice()
    }
}

/// Reports, in order. Contracts see the list.
#[derive(Debug, Drop)]
pub struct Diagnostics {
    diagnostics: Vec<Diagnostic>,
}

impl Model for Diagnostics {
    ghost use Rattle.std.specs.Prelude.{List};
    ghost use Rattle.lsp_messages.specs.declared.outgoing.Diagnostic.{Diagnostic};

    ghost Value = { List Diagnostic };

    ghost view = { λ s. s.diagnostics.items };
}

impl PartialEq for Diagnostics {
    ghost use Rattle.std.specs.Cmp.{partial_equiv_from_equiv};
    ghost use Rattle.lsp_messages.specs.Same.{is_same_list, is_same_list-laws};

    ghost eq = { is_same_list };

    ghost laws = { partial_equiv_from_equiv is_same_list-laws };

    fn eq(&self, other: &Diagnostics) -> bool {
        self.as_slice() == other.as_slice()
    }
}

impl Diagnostics {
    /// No report.
    pub fn new(alloc: Global) -> Diagnostics
        ensures { result ≡ [] }
    {
        Diagnostics {
            diagnostics: Vec::new(alloc),
        }
    }

    /// Adds a report behind those that are there. An `Err` changes nothing.
    pub fn push(&mut self, diagnostic: Diagnostic) -> Result<(), OutOfMemory>
        ensures ok { OnOk result (self.new ≡ self.old ++ diagnostic ∷ []) }
        ensures err { OnErr result (self.new ≡ self.old) }
    {
        self.diagnostics.push(diagnostic)?;
        Ok(())
    }

    /// The reports in order.
    pub fn as_slice(&self) -> &[Diagnostic]
        ensures { result.now ≡ self.now }
    {
        self.diagnostics.as_slice()
    }
}

/// Places in documents, in order. Contracts see the list.
#[derive(Debug, Drop)]
pub struct Locations {
    places: Vec<Location>,
}

impl Model for Locations {
    ghost use Rattle.std.specs.Prelude.{List};
    ghost use Rattle.lsp_messages.specs.declared.outgoing.Location.{Location};

    ghost Value = { List Location };

    ghost view = { λ s. s.places.items };
}

impl Locations {
    /// No place.
    pub fn new(alloc: Global) -> Locations
        ensures { result ≡ [] }
    {
        Locations {
            places: Vec::new(alloc),
        }
    }

    /// Adds a place behind those that are there. An `Err` changes nothing.
    pub fn push(&mut self, place: Location) -> Result<(), OutOfMemory>
        ensures ok { OnOk result (self.new ≡ self.old ++ place ∷ []) }
        ensures err { OnErr result (self.new ≡ self.old) }
    {
        self.places.push(place)?;
        Ok(())
    }

    /// The places in order.
    pub fn as_slice(&self) -> &[Location]
        ensures { result.now ≡ self.now }
    {
        self.places.as_slice()
    }
}

/// Symbols, in order. Contracts see the list.
#[derive(Debug, Drop)]
pub struct DocumentSymbols {
    symbols: Vec<DocumentSymbol>,
}

impl Model for DocumentSymbols {
    ghost use Rattle.std.specs.Prelude.{List};
    ghost use Rattle.lsp_messages.specs.declared.outgoing.DocumentSymbol.{DocumentSymbol};

    ghost Value = { List DocumentSymbol };

    ghost view = { λ s. s.symbols.items };
}

impl DocumentSymbols {
    /// No symbol.
    pub fn new(alloc: Global) -> DocumentSymbols
        ensures { result ≡ [] }
    {
        DocumentSymbols {
            symbols: Vec::new(alloc),
        }
    }

    /// Adds a symbol behind those that are there. An `Err` changes nothing.
    pub fn push(&mut self, symbol: DocumentSymbol) -> Result<(), OutOfMemory>
        ensures ok { OnOk result (self.new ≡ self.old ++ symbol ∷ []) }
        ensures err { OnErr result (self.new ≡ self.old) }
    {
        self.symbols.push(symbol)?;
        Ok(())
    }

    /// The symbols in order.
    pub fn as_slice(&self) -> &[DocumentSymbol]
        ensures { result.now ≡ self.now }
    {
        self.symbols.as_slice()
    }
}
