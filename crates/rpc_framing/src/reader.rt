//! The frames of a stream that comes in pieces.
ghost use Rattle.std.specs.Prelude.{◌≡◌, ◌≢◌, ◌+◌, ◌^◌, ◌<◌, ◌∷◌, [], length, None, OnOk, IfSome, IfNone, IfErr, IsSome, IsErrOf};
ghost use Rattle.rpc_framing.specs.Reading.{GoesOn, Stops, IsWanted, Waits};

use crate::FrameFault;
use crate::unfinished::{Unfinished, accept};
use std::alloc::Global;
use std::collections::VecDeque;
use std::marker::Model;

/// Reads the frames of a stream, in whatever pieces it comes. Contracts see the bodies that wait, what has come of the
/// next frame, the number of bytes fed, and the first fault.
#[derive(Drop)]
pub struct FrameReader {
    ready: VecDeque<Vec<u8>>,
    rest: Unfinished,
    fed: u64,
    fault: Option<FrameFault>,
}

impl Model for FrameReader {
    ghost use Rattle.std.specs.Prelude.{◌++◌};
    ghost use Rattle.rpc_framing.specs.Reading.{Reading, bodies_of};
    ghost use Rattle.rpc_framing.specs.Steps.{Stands};

    ghost Value = { Reading };

    ghost view = { λ r. record {
      ready = bodies_of r.ready.items;
      rest = r.rest.header.items ++ r.rest.body.items;
      fed = r.fed;
      fault = r.fault;
    } };

    ghost invariant = { λ r. Stands r.rest.stage r.rest.header.items r.rest.body.items };
}

impl FrameReader {
    /// A reader to which nothing was fed.
    pub fn new(alloc: Global) -> FrameReader
        ensures { result ≡ record { ready = []; rest = []; fed = 0; fault = None } }
    {
        FrameReader {
            ready: VecDeque::new(alloc),
            rest: Unfinished::new(alloc),
            fed: 0,
            fault: None,
        }
    }

    /// How many bytes may be fed next without passing the end of a frame: one at a time in a header, then those that
    /// are missing of the body.
    pub fn wanted(&self) -> usize
        ensures exact { self.now.fault ≡ None → IsWanted self.now.rest result }
        // Fewer bytes complete no frame; so these bytes complete at most one, and nothing of the next.
        ensures waits { self.now.fault ≡ None → Waits self.now.rest result }
        ensures faulted { IsSome self.now.fault → result ≡ 1 }
    {
        if self.fault.is_some() {
            return 1;
        }
        self.rest.missing().unwrap_or(1)
    }

    /// How many bytes were fed, over all pieces.
    pub fn fed(&self) -> u64
        ensures { result ≡ self.now.fed }
    {
        self.fed
    }

    /// The first fault, if there was one.
    pub fn fault(&self) -> Option<FrameFault>
        ensures { result ≡ self.now.fault }
    {
        self.fault
    }

    /// Takes the next piece of the stream. Bodies that it completes before a fault wait too; what is held of the rest
    /// after a fault is not said.
    pub fn feed(&mut self, alloc: Global, piece: &[u8]) -> Result<(), FrameFault>
        requires room { self.old.fed + length piece.now < 2 ^ 64 }
        ensures ok { OnOk result (GoesOn self.old self.new piece.now) }
        ensures stops { IfErr result (λ fault. fault ≢ FrameFault.OutOfMemory → self.old.fault ≡ None
            → Stops self.old self.new piece.now fault) }
        // After a fault each piece is refused for it.
        ensures stays { IfSome self.old.fault (λ fault. IsErrOf result fault × (self.new ≡ self.old)) }
        ensures memory { IsErrOf result FrameFault.OutOfMemory → self.new ≡ self.old }
    {
        if let Some(fault) = self.fault {
            return Err(fault);
        }
        let before = self.fed;
        let fault = accept(alloc, &mut self.rest, &mut self.ready, piece)?;
        self.fed = before + piece.len() as u64;
        match fault {
            None => Ok(()),
            Some(astray) => {
                let fault = FrameFault::of(astray.departure, before + astray.count as u64);
                self.fault = Some(fault);
                Err(fault)
            }
        }
    }

    /// The first body that waits, and None where no whole frame waits. It takes no memory.
    pub fn next(&mut self) -> Option<Vec<u8>>
        ensures some { IfSome result (λ body. self.old ≡ record self.new { ready = body.items ∷ self.new.ready }) }
        ensures none { IfNone result ((self.old.ready ≡ []) × (self.new ≡ self.old)) }
    {
        self.ready.pop_front()
    }
}
