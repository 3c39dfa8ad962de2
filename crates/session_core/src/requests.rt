//! Requests that are refused (JSON-RPC 2.0, "Error object"; LSP 3.17, `ErrorCodes`).
ghost use Rattle.std.specs.Prelude.{◌≡◌, [], ◌∷◌, ℕ, List, true, false, Some, IfOk};
ghost use Rattle.session_core.specs.Inside.{unknown_asked, wrong_asked};
ghost use Rattle.session_core.specs.Refusals.{TooEarly, OutOfPlace, is_initialize, reply};
ghost use Rattle.session_core.specs.Step.{Acts};

use crate::bodies::Bodies;
use crate::replies;
use crate::session_state::SessionState;
use crate::state::Stage;
use hl_base::{OutOfMemory, Text};
use lsp_messages::{Head, Id};
use std::alloc::Global;

/// Whether a method is that of the first request.
fn is_initialize(method: &Text) -> bool
    ensures { result ≡ is_initialize method.now }
{
    "initialize" == method.as_str()
}

/// A request before `initialize`.
pub(crate) fn too_early(alloc: Global, id: Id) -> Result<Bodies, OutOfMemory>
    ensures { IfOk result (λ bodies. bodies ≡ reply (TooEarly id) ∷ []) }
{
    let refusal = replies::not_initialized(alloc, id)?;
    Bodies::one(alloc, refusal)
}

/// `initialize` once more, a request after `shutdown`, or one with the id of a request that waits.
pub(crate) fn out_of_place(alloc: Global, id: Id) -> Result<Bodies, OutOfMemory>
    ensures { IfOk result (λ bodies. bodies ≡ reply (OutOfPlace id) ∷ []) }
{
    let refusal = replies::invalid_request(alloc, Some(id))?;
    Bodies::one(alloc, refusal)
}

impl SessionState {
    /// A request or a notification of no known method.
    pub(crate) fn unknown_method(
        &mut self,
        alloc: Global,
        head: Head,
    ) -> Result<Bodies, OutOfMemory>
        ensures { IfOk result (λ bodies. Acts (unknown_asked self.old head.id head.method) self.new bodies) }
    {
        let Head { id, method } = head;
        match id {
            Some(id) => self.unknown_request(alloc, id),
            None => self.unknown_notification(alloc, &method),
        }
    }

    fn unknown_request(&mut self, alloc: Global, id: Id) -> Result<Bodies, OutOfMemory>
        ensures { IfOk result (λ bodies. (method : List ℕ) → Acts (unknown_asked self.old (Some id) method) self.new bodies) }
    {
        match self.stage {
            Stage::Fresh => too_early(alloc, id),
            Stage::Active => {
                if self.waiting.waits(&id) {
                    return out_of_place(alloc, id);
                }
                let refusal = replies::unknown_method(alloc, id)?;
                Bodies::one(alloc, refusal)
            }
            Stage::Closing => out_of_place(alloc, id),
            Stage::Ended { .. } => out_of_place(alloc, id),
        }
    }

    /// A request or a notification with a parameter that is missing or of a wrong kind.
    pub(crate) fn bad_params(
        &mut self,
        alloc: Global,
        head: Head,
        name: Text,
    ) -> Result<Bodies, OutOfMemory>
        ensures { IfOk result (λ bodies. Acts (wrong_asked self.old head.id head.method name) self.new bodies) }
    {
        let Head { id, method } = head;
        match id {
            Some(id) => self.bad_request(alloc, id, &method, &name),
            None => self.bad_notification(alloc, &method, &name),
        }
    }

    fn bad_request(
        &mut self,
        alloc: Global,
        id: Id,
        method: &Text,
        name: &Text,
    ) -> Result<Bodies, OutOfMemory>
        ensures { IfOk result (λ bodies. Acts (wrong_asked self.old (Some id) method.now name.now) self.new bodies) }
    {
        if is_initialize(method) {
            self.bad_initialize(alloc, id, name)
        } else {
            self.bad_other(alloc, id, name)
        }
    }

    /// `initialize` with a bad parameter.
    fn bad_initialize(&mut self, alloc: Global, id: Id, name: &Text) -> Result<Bodies, OutOfMemory>
        ensures { IfOk result (λ bodies. (method : List ℕ) → is_initialize method ≡ true
            → Acts (wrong_asked self.old (Some id) method name.now) self.new bodies) }
    {
        match self.stage {
            Stage::Fresh => {
                if self.waiting.waits(&id) {
                    return out_of_place(alloc, id);
                }
                let refusal = replies::bad_parameter(alloc, id, name)?;
                Bodies::one(alloc, refusal)
            }
            Stage::Active => out_of_place(alloc, id),
            Stage::Closing => out_of_place(alloc, id),
            Stage::Ended { .. } => out_of_place(alloc, id),
        }
    }

    /// Another request with a bad parameter.
    fn bad_other(&mut self, alloc: Global, id: Id, name: &Text) -> Result<Bodies, OutOfMemory>
        ensures { IfOk result (λ bodies. (method : List ℕ) → is_initialize method ≡ false
            → Acts (wrong_asked self.old (Some id) method name.now) self.new bodies) }
    {
        match self.stage {
            Stage::Fresh => too_early(alloc, id),
            Stage::Active => {
                if self.waiting.waits(&id) {
                    return out_of_place(alloc, id);
                }
                let refusal = replies::bad_parameter(alloc, id, name)?;
                Bodies::one(alloc, refusal)
            }
            Stage::Closing => out_of_place(alloc, id),
            Stage::Ended { .. } => out_of_place(alloc, id),
        }
    }
}
