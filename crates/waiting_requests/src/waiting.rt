//! The requests that wait.
ghost use Rattle.std.specs.Prelude.{◌≡◌, [], ◌∷◌, ◌++◌, IfOk, OnOk, OnErr, map, option_map, MatchBool, ◌≢◌};
ghost use Rattle.waiting_requests.specs.Bodies.{replies_to, cancel_reply};
ghost use Rattle.waiting_requests.specs.Requests as requests;

use crate::bodies::{cancelled, reply};
use crate::names::ProgramNames;
use crate::request::{Request, is_same_id};
use document_store::DocumentStore;
use hl_base::OutOfMemory;
use lsp_messages::Id;
use std::alloc::Global;
use std::marker::Model;
use std::mem;

/// The requests that wait, in the order of arrival. Contracts see the list.
#[derive(Drop)]
pub struct Waiting {
    requests: Vec<Request>,
    // Given out in place of the requests: a `Vec` that takes no memory needs an allocator all the same.
    alloc: Global,
}

impl Model for Waiting {
    ghost use Rattle.std.specs.Prelude.{List};
    ghost use Rattle.waiting_requests.specs.declared.request.Request.{Request};

    ghost Value = { List Request };

    ghost view = { λ s. s.requests.items };
}

/// Drops what has this id.
fn remove(waiting: &mut Vec<Request>, id: &Id)
    ensures { waiting.new.items ≡ requests.without waiting.old.items id.now }
{
    waiting.retain(|request| !is_same_id(&request.id, id));
}

/// The replies to requests in order.
fn replies(
    alloc: Global,
    store: &DocumentStore,
    programs: &[ProgramNames<'_>],
    requests: Vec<Request>,
) -> Result<Vec<Vec<u8>>, OutOfMemory>
    ensures { IfOk result (λ bodies. map (λ body. body.items) bodies.items ≡ replies_to store.now.store programs.now requests.items) }
{
    let mut bodies = Vec::new(alloc);
    for request in requests {
        bodies.push(reply(alloc, store, programs, request)?)?;
    }
    Ok(bodies)
}

impl Waiting {
    /// No request waits. It takes no memory.
    pub fn new(alloc: Global) -> Waiting
        ensures { result ≡ [] }
    {
        Waiting {
            requests: Vec::new(alloc),
            alloc,
        }
    }

    /// Whether no request waits.
    pub fn is_empty(&self) -> bool
        ensures { MatchBool result (self.now ≡ []) (self.now ≢ []) }
    {
        self.requests.is_empty()
    }

    /// The requests that wait, in order.
    pub fn as_slice(&self) -> &[Request]
        ensures { result.now ≡ self.now }
    {
        self.requests.as_slice()
    }

    /// Whether a request of this id waits.
    pub fn waits(&self, id: &Id) -> bool
        ensures { result ≡ requests.waits self.now id.now }
    {
        self.requests
            .iter()
            .any(|request| is_same_id(&request.id, id))
    }

    /// A request waits behind the others. An `Err` changes nothing.
    pub fn push(&mut self, request: Request) -> Result<(), OutOfMemory>
        ensures ok { OnOk result (self.new ≡ self.old ++ request ∷ []) }
        ensures err { OnErr result (self.new ≡ self.old) }
    {
        self.requests.push(request)?;
        Ok(())
    }

    /// The client cancels the request of this id: where it waits, it is removed and refused; else nothing is done. An `Err`
    /// changes nothing.
    pub fn cancel(&mut self, alloc: Global, id: Id) -> Result<Option<Vec<u8>>, OutOfMemory>
        ensures body { IfOk result (λ body. option_map (λ bytes. bytes.items) body ≡ cancel_reply self.old id) }
        ensures ok { OnOk result (self.new ≡ requests.without self.old id) }
        ensures err { OnErr result (self.new ≡ self.old) }
    {
        if !self.waits(&id) {
            return Ok(None);
        }
        let copy = id.copy(alloc)?;
        let body = cancelled(alloc, copy)?;
        remove(&mut self.requests, &id);
        Ok(Some(body))
    }

    /// All that wait are answered in order, from what the open programs tell of names, in the order of opening. Then none waits,
    /// also after an `Err`.
    pub fn answer(
        &mut self,
        alloc: Global,
        store: &DocumentStore,
        programs: &[ProgramNames<'_>],
    ) -> Result<Vec<Vec<u8>>, OutOfMemory>
        ensures bodies { IfOk result (λ bodies. map (λ body. body.items) bodies.items ≡ replies_to store.now.store programs.now self.old) }
        ensures waiting { self.new ≡ [] }
    {
        let requests = mem::replace(&mut self.requests, Vec::new(self.alloc));
        replies(alloc, store, programs, requests)
    }
}
