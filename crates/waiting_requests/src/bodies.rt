//! The bodies that are written for requests that waited (JSON-RPC 2.0, "Response object"; LSP 3.17, `ErrorCodes`).
ghost use Rattle.std.specs.Prelude.{◌≡◌, IfOk};
ghost use Rattle.waiting_requests.specs.Bodies as bodies;

use crate::answer::answer_of;
use crate::names::ProgramNames;
use crate::request::Request;
use document_store::DocumentStore;
use hl_base::{OutOfMemory, Text};
use lsp_messages::{Id, LspOut, answer_text};
use std::alloc::Global;

/// The code of a request that was cancelled (LSP 3.17, `RequestCancelled`).
const REQUEST_CANCELLED: i32 = -32800;

/// The reply to a request that was cancelled.
#[tactic(auto, unfolding(lsp_messages::specs::Written::text_of, lsp_messages::specs::Written::value_of))]
pub(crate) fn cancelled(alloc: Global, id: Id) -> Result<Vec<u8>, OutOfMemory>
    ensures { IfOk result (λ body. body.items ≡ bodies.cancelled id) }
{
    let message = Text::of(alloc, "cancelled")?;
    let fault = LspOut::Fault {
        id: Some(id),
        code: REQUEST_CANCELLED,
        message,
    };
    fault.text(alloc)
}

/// The reply to a request.
pub(crate) fn reply(
    alloc: Global,
    store: &DocumentStore,
    programs: &[ProgramNames<'_>],
    request: Request,
) -> Result<Vec<u8>, OutOfMemory>
    ensures { IfOk result (λ body. body.items ≡ bodies.reply_to store.now.store programs.now request) }
{
    let answer = answer_of(alloc, store, programs, &request)?;
    answer_text(alloc, &request.id, &answer)
}
