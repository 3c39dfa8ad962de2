//! Where a statement stands: its file and line, and the calls and copies that led there.
ghost use Rattle.std.specs.Prelude.{◌≡◌, List, [], ◌∷◌, ◌++◌, IfOk, OnOk, OnErr};

use crate::{Name, OutOfMemory};
use std::alloc::Global;
use std::marker::Model;

/// The number of a path. Equal numbers are equal paths.
#[derive(Clone, Copy, Debug, PartialEq, Eq)]
pub struct PathId(pub u32);

/// The number of a text that is held once. Equal numbers of live texts are equal texts.
#[derive(Clone, Copy, Debug, PartialEq, Eq)]
pub struct TextId(pub u32);

/// The first line of a statement, counted from 0, in the file of a path.
#[derive(Clone, Copy, Debug, PartialEq, Eq)]
pub struct Origin {
    pub path: PathId,
    pub line: u32,
}

/// What a frame runs: the program's own text, a macro, or a copied member.
#[derive(Clone, Copy, Debug, PartialEq, Eq)]
pub enum FrameKind {
    OpenCode,
    Macro,
    Copy,
}

/// One level of a stack of calls and copies. Open code has no name.
#[derive(Drop)]
pub struct Frame {
    pub kind: FrameKind,
    pub name: Option<Name>,
    pub origin: Origin,
}

impl Frame {
    /// Another frame that says the same. It takes no memory.
    pub fn copy(&self) -> Frame
        ensures { result ≡ self.now }
    {
        let name = match &self.name {
            Some(name) => Some(name.copy()),
            None => None,
        };
        Frame {
            kind: self.kind,
            name,
            origin: self.origin,
        }
    }
}

/// A stack of frames, outermost first. Contracts see the list.
#[derive(Drop)]
pub struct Frames {
    frames: Vec<Frame>,
}

impl Model for Frames {
    ghost use Rattle.std.specs.Prelude.{List};
    ghost use Rattle.hl_base.specs.declared.place.Frame.{Frame};

    ghost Value = { List Frame };

    ghost view = { λ s. s.frames.items };
}

impl Frames {
    /// No frame.
    pub fn new(alloc: Global) -> Frames
        ensures { result ≡ [] }
    {
        Frames {
            frames: Vec::new(alloc),
        }
    }

    /// Adds a frame inside those that are there. An `Err` changes nothing.
    pub fn push(&mut self, frame: Frame) -> Result<(), OutOfMemory>
        ensures ok { OnOk result (self.new ≡ self.old ++ frame ∷ []) }
        ensures err { OnErr result (self.new ≡ self.old) }
    {
        self.frames.push(frame)?;
        Ok(())
    }

    /// The frames, outermost first.
    pub fn as_slice(&self) -> &[Frame]
        ensures { result.now ≡ self.now }
    {
        self.frames.as_slice()
    }

    /// Another list of the same frames.
    pub fn copy(&self, alloc: Global) -> Result<Frames, OutOfMemory>
        ensures { IfOk result (λ s. s ≡ self.now) }
    {
        let mut frames = Vec::with_capacity(alloc, self.frames.len())?;
        for frame in &self.frames {
            frames.push(frame.copy())?;
        }
        Ok(Frames { frames })
    }
}
