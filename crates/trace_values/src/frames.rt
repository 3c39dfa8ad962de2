//! The frames of one call at one of its statements, most of which its statements share.
ghost use Rattle.std.specs.Prelude.{◌≡◌, ◌<◌, ◌++◌, length, IfOk, OnOk};
ghost use Rattle.trace_values.specs.CallFrames.{frames_of, at_statement};

use hl_base::{Frame, FrameKind, Frames, Name, Origin, OutOfMemory};
use std::alloc::Global;
use std::marker::Model;
use std::rc::Rc;

/// What the frames of a call have alike at all its statements between the beginnings and ends of copies: the frames
/// round the innermost, and what the innermost one runs.
#[derive(Drop)]
struct Surroundings {
    outer: Frames,
    kind: FrameKind,
    name: Option<Name>,
}

/// The frames of a call at one of its statements: that of the call, and one for each member that is being copied.
/// Contracts see the innermost frame and the list of those round it. It takes 16 bytes, and memory of its own only once
/// for all statements between the beginnings and ends of copies.
#[derive(Drop)]
pub struct OwnFrames {
    shared: Rc<Surroundings>,
    origin: Origin,
}

impl Model for OwnFrames {
    ghost use Rattle.trace_values.specs.CallFrames.{CallFrames};

    ghost Value = { CallFrames };

    ghost view = { λ f. record {
      outer = f.shared.value.outer;
      innermost = record { kind = f.shared.value.kind; name = f.shared.value.name; origin = f.origin };
    } };
}

impl OwnFrames {
    /// A frame within others, which stand outermost first.
    pub fn of(alloc: Global, outer: Frames, innermost: Frame) -> Result<OwnFrames, OutOfMemory>
        ensures { IfOk result (λ f. f ≡ record { outer = outer; innermost = innermost }) }
    {
        let Frame { kind, name, origin } = innermost;
        let shared = Rc::new(alloc, Surroundings { outer, kind, name })?;
        Ok(OwnFrames { shared, origin })
    }

    /// The same frames at another statement of the innermost one. It takes no memory; an `Err` comes only where more
    /// statements share the frames than can be counted.
    pub fn at(&self, origin: Origin) -> Result<OwnFrames, OutOfMemory>
        ensures { IfOk result (λ f. f ≡ at_statement self.now origin) }
    {
        Ok(OwnFrames {
            shared: self.shared.clone()?,
            origin,
        })
    }

    /// The same frames once more; an `Err` comes as for `at`.
    pub fn copy(&self, _alloc: Global) -> Result<OwnFrames, OutOfMemory>
        ensures { IfOk result (λ f. f ≡ self.now) }
    {
        self.at(self.origin)
    }

    /// How many frames there are: at least one.
    pub fn count(&self) -> usize
        ensures count { result ≡ length (frames_of self.now) }
        ensures some { 0 < result }
    {
        self.shared.outer.as_slice().len() + 1
    }

    /// Where the statement stands.
    pub fn origin(&self) -> Origin
        ensures { result ≡ self.now.innermost.origin }
    {
        self.origin
    }

    /// The innermost frame.
    pub fn innermost(&self) -> Frame
        ensures { result ≡ self.now.innermost }
    {
        let name = match &self.shared.name {
            Some(name) => Some(name.copy()),
            None => None,
        };
        Frame {
            kind: self.shared.kind,
            name,
            origin: self.origin,
        }
    }

    /// The frames round the innermost, outermost first.
    pub fn outer(&self) -> &[Frame]
        ensures { result.now ≡ self.now.outer }
    {
        self.shared.outer.as_slice()
    }

    /// Adds the frames within those that are there, the outermost first. An `Err` leaves only some of them added.
    pub fn push_onto(&self, frames: &mut Frames) -> Result<(), OutOfMemory>
        ensures { OnOk result (frames.new ≡ frames.old ++ frames_of self.now) }
    {
        for frame in self.outer() {
            frames.push(frame.copy())?;
        }
        frames.push(self.innermost())
    }
}
