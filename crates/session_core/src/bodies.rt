//! The bodies that an event writes.
ghost use Rattle.std.specs.Prelude.{◌≡◌, [], ◌∷◌, ◌++◌, map, option_map, IfOk, OnOk, OnErr};
ghost use Rattle.session_core.specs.Message.{body_in};
ghost use Rattle.session_core.specs.Step.{written};

use hl_base::OutOfMemory;
use rpc_framing::write_frame;
use std::alloc::Global;
use std::marker::Model;

/// Bodies in the order in which they are written. Contracts see the list of them.
#[derive(Drop)]
pub(crate) struct Bodies {
    bodies: Vec<Vec<u8>>,
}

impl Model for Bodies {
    ghost use Rattle.std.specs.Prelude.{ℕ, List, map};

    ghost Value = { List (List ℕ) };

    ghost view = { λ s. map (λ body. body.items) s.bodies.items };
}

impl Bodies {
    /// No body.
    pub(crate) fn none(alloc: Global) -> Bodies
        ensures { result ≡ [] }
    {
        Bodies {
            bodies: Vec::new(alloc),
        }
    }

    /// One body.
    pub(crate) fn one(alloc: Global, body: Vec<u8>) -> Result<Bodies, OutOfMemory>
        ensures { IfOk result (λ bodies. bodies ≡ body.items ∷ []) }
    {
        let mut bodies = Bodies::none(alloc);
        bodies.push(body)?;
        Ok(bodies)
    }

    /// One body or none.
    pub(crate) fn of_option(alloc: Global, body: Option<Vec<u8>>) -> Result<Bodies, OutOfMemory>
        ensures { IfOk result (λ bodies. bodies ≡ body_in (option_map (λ body. body.items) body)) }
    {
        match body {
            Some(body) => Bodies::one(alloc, body),
            None => Ok(Bodies::none(alloc)),
        }
    }

    /// These bodies.
    pub(crate) fn of(bodies: Vec<Vec<u8>>) -> Bodies
        ensures { result ≡ map (λ body. body.items) bodies.items }
    {
        Bodies { bodies }
    }

    /// One body more.
    pub(crate) fn push(&mut self, body: Vec<u8>) -> Result<(), OutOfMemory>
        ensures { OnOk result (self.new ≡ self.old ++ body.items ∷ []) }
    {
        self.bodies.push(body)?;
        Ok(())
    }

    /// All of these bodies more.
    pub(crate) fn append(&mut self, more: Bodies) -> Result<(), OutOfMemory>
        ensures { OnOk result (self.new ≡ self.old ++ more) }
    {
        for body in more.bodies {
            self.bodies.push(body)?;
        }
        Ok(())
    }

    /// Their bytes, each in a frame.
    fn framed(&self, alloc: Global) -> Result<Vec<u8>, OutOfMemory>
        ensures { IfOk result (λ bytes. bytes.items ≡ written self.now) }
    {
        let mut bytes = Vec::new(alloc);
        for body in &self.bodies {
            write_frame(alloc, body, &mut bytes)?;
        }
        Ok(bytes)
    }

    /// Adds them to the output, each in a frame. An `Err` changes nothing.
    pub(crate) fn write_to(&self, alloc: Global, output: &mut Vec<u8>) -> Result<(), OutOfMemory>
        ensures ok { OnOk result (output.new.items ≡ output.old.items ++ written self.now) }
        ensures err { OnErr result (output.new.items ≡ output.old.items) }
    {
        let bytes = self.framed(alloc)?;
        output.extend_from_slice(&bytes)?;
        Ok(())
    }
}
