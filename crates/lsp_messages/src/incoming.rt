//! What is read: the messages of a client, and why a value is none.
ghost use Rattle.std.specs.Prelude.{◌≡◌, List, [], ◌∷◌, ◌++◌, IfOk, OnOk, OnErr};
ghost use Rattle.serde_json.specs.View.{view};

use hl_base::{Edits, OutOfMemory, Position, Text};
use serde_json::Value;
use std::alloc::Global;
use std::marker::Model;
use thiserror::Error;

/// What a request is known by (JSON-RPC 2.0, "Request object"). Ids of different kinds differ: `1` is not `"1"`.
#[derive(Debug, Drop)]
pub enum Id {
    Number(i32),
    Words(Text),
}

impl Id {
    /// Another id that is the same.
    pub fn copy(&self, alloc: Global) -> Result<Id, OutOfMemory>
        ensures { IfOk result (λ id. id ≡ self.now) }
    {
        match self {
            Id::Number(number) => Ok(Id::Number(*number)),
            Id::Words(words) => Ok(Id::Words(words.copy(alloc)?)),
        }
    }
}

/// What a message says of itself, whatever its parameters are. One without an id is a notification.
#[derive(Debug, Drop)]
pub struct Head {
    pub id: Option<Id>,
    pub method: Text,
}

/// What happened to a file (LSP 3.17, `FileChangeType`): 1, 2 and 3.
#[derive(Clone, Copy, Debug, PartialEq, Eq)]
pub enum ChangeKind {
    Created,
    Changed,
    Deleted,
}

/// A file that changed outside the editor (LSP 3.17, `FileEvent`). The URI is as it came; it need not name a file.
#[derive(Debug, Drop)]
pub struct FileChange {
    pub uri: Text,
    pub kind: ChangeKind,
}

/// Changes of files, in order. Contracts see the list.
#[derive(Debug, Drop)]
pub struct FileChanges {
    changes: Vec<FileChange>,
}

impl Model for FileChanges {
    ghost use Rattle.std.specs.Prelude.{List};
    ghost use Rattle.lsp_messages.specs.declared.incoming.FileChange.{FileChange};

    ghost Value = { List FileChange };

    ghost view = { λ s. s.changes.items };
}

impl FileChanges {
    /// No change.
    pub fn new(alloc: Global) -> FileChanges
        ensures { result ≡ [] }
    {
        FileChanges {
            changes: Vec::new(alloc),
        }
    }

    /// Adds a change behind those that are there. An `Err` changes nothing.
    pub fn push(&mut self, change: FileChange) -> Result<(), OutOfMemory>
        ensures ok { OnOk result (self.new ≡ self.old ++ change ∷ []) }
        ensures err { OnErr result (self.new ≡ self.old) }
    {
        self.changes.push(change)?;
        Ok(())
    }

    /// The changes in order.
    pub fn as_slice(&self) -> &[FileChange]
        ensures { result.now ≡ self.now }
    {
        self.changes.as_slice()
    }
}

/// A message of a debugger's client, as it came: an object of JSON. Contracts see what it stands for.
#[derive(Drop)]
pub struct DebugMessage {
    json: Value,
}

impl Model for DebugMessage {
    ghost use Rattle.serde_json.specs.Data.{Data};
    ghost use Rattle.serde_json.specs.View.{view as data_of};
    ghost use Rattle.lsp_messages.specs.Codes.{data_code};

    ghost Value = { Data };

    ghost coded = { data_code };

    ghost view = { λ s. data_of s.json };
}

impl DebugMessage {
    /// A copy of this JSON.
    pub fn of(json: &Value) -> Result<DebugMessage, OutOfMemory>
        ensures { IfOk result (λ message. message ≡ view json.now) }
    {
        Ok(DebugMessage {
            json: json.clone()?,
        })
    }

    /// The JSON.
    pub fn as_json(&self) -> &Value
        ensures { view result.now ≡ self.now }
    {
        &self.json
    }
}

/// A message of the client (LSP 3.17, "Lifecycle Messages", "Text Document Synchronization", "Language Features" and
/// "Workspace Features"). URIs and texts are as they came; `root` is the URI of the folder that the client works in, and `Dap`
/// a message for one of the debug sessions.
#[derive(Drop)]
pub enum LspIn {
    Initialize {
        id: Id,
        root: Option<Text>,
    },
    Shutdown {
        id: Id,
    },
    Definition {
        id: Id,
        uri: Text,
        at: Position,
    },
    References {
        id: Id,
        uri: Text,
        at: Position,
        declarations: bool,
    },
    Hover {
        id: Id,
        uri: Text,
        at: Position,
    },
    DocumentSymbol {
        id: Id,
        uri: Text,
    },
    Initialized,
    Exit,
    DidOpen {
        uri: Text,
        language: Text,
        version: i32,
        text: Text,
    },
    DidChange {
        uri: Text,
        version: i32,
        edits: Edits,
    },
    DidClose {
        uri: Text,
    },
    DidSave,
    DidChangeConfiguration,
    DidChangeWatchedFiles {
        changes: FileChanges,
    },
    Cancel {
        id: Id,
    },
    Dap {
        session: u32,
        message: DebugMessage,
    },
}

/// Why a value is no message that is understood.
#[derive(Debug, Drop, Error)]
pub enum Refusal {
    /// It is no request and no notification of JSON-RPC 2.0.
    #[error("no request")]
    NotRequest,

    /// There is no such request, or no such notification.
    #[error("unknown method")]
    UnknownMethod(Head),

    /// The parameter of that name is missing or wrong.
    #[error("bad parameter")]
    BadParams(Head, Text),

    /// There was no memory for the message or its refusal.
    #[error("out of memory")]
    OutOfMemory,
}

impl From<OutOfMemory> for Refusal {
    ghost use Rattle.lsp_messages.specs.declared.incoming.Refusal.TheVariants.{OutOfMemory as out_of_memory};

    ghost from_gives = { λ _ refusal. refusal ≡ out_of_memory };

    fn from(_refused: OutOfMemory) -> Refusal {
        Refusal::OutOfMemory
    }
}
