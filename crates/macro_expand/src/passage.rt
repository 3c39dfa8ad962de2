//! What a call processes.
ghost use Rattle.std.specs.Prelude.{◌≡◌, ◌++◌, Some, IfOk};
ghost use Rattle.std.specs.Str.{chars};
ghost use Rattle.macro_library.specs.Definitions.{is_open};
ghost use Rattle.hlasm_statements.specs.Statements.{statements_of};
ghost use Rattle.statement_listing.specs.Listings.{Element, listing_of};
ghost use Rattle.trace_values.specs.CallFrames.{frames_of};
ghost use Rattle.call_sites.specs.Calls.{called, macro_called, open_code};
ghost use Rattle.macro_expand.specs.Codes.{passage_by};
ghost use Rattle.macro_expand.specs.Passages.{call_frames, copied_by, copied_in, copied_passage, copying, frames_as, nowhere, origin_at, passage_of};

use call_sites::{CallSite, MacroCall};
use hl_base::{Frame, FrameKind, Frames, Name, Origin, OutOfMemory, PathId};
use hlasm_statements::read_statements;
use macro_library::MemberFile;
use statement_listing::Listing;
use std::alloc::Global;
use trace_values::OwnFrames;

/// A list of statements, where the prototype of its macro stands, and the frames of its call. The innermost frame is that of
/// the list: its place is that of each statement in turn.
#[derive(Drop)]
pub struct Passage {
    pub frames: OwnFrames,
    pub definition: Option<Origin>,
    pub listing: Listing,
}

/// Where a list has no statement, which no point and no frame shows.
const NOWHERE: Origin = Origin {
    path: PathId(0),
    line: 0,
};

/// The one frame of open code, or of a macro of this name.
fn frames_as(alloc: Global, kind: FrameKind, name: Option<Name>) -> Result<OwnFrames, OutOfMemory>
    ensures { IfOk result (λ f. f ≡ frames_as kind name) }
{
    let frame = Frame {
        kind,
        name,
        origin: NOWHERE,
    };
    OwnFrames::of(alloc, Frames::new(alloc), frame)
}

/// The statements of a path and its text: those of the file that was read, if it is that of this text.
fn list_of(
    alloc: Global,
    path: PathId,
    text: &str,
    read: &Option<MemberFile>,
) -> Result<Listing, OutOfMemory>
    ensures { IfOk result (λ l. l ≡ listing_of path (statements_of (chars text.now))) }
{
    if let Some(file) = read {
        if file.is_of(path, text) {
            return file.list().share();
        }
    }
    let statements = read_statements(alloc, text)?;
    Listing::of(alloc, path, statements)
}

/// The open code of a path and its text.
fn open_code(
    alloc: Global,
    path: PathId,
    text: &str,
    read: &Option<MemberFile>,
) -> Result<Passage, OutOfMemory>
    ensures { IfOk result (λ p. passage_by p ≡ passage_of (open_code path.0 (chars text.now))) }
{
    Ok(Passage {
        frames: frames_as(alloc, FrameKind::OpenCode, None)?,
        definition: None,
        listing: list_of(alloc, path, text, read)?,
    })
}

/// The statements of a macro.
fn in_macro(alloc: Global, call: &MacroCall) -> Result<Passage, OutOfMemory>
    ensures { IfOk result (λ p. passage_by p ≡ passage_of (macro_called call.now)) }
{
    let definition = &call.definition.definition;
    let name = definition.prototype().operation().copy();
    Ok(Passage {
        frames: frames_as(alloc, FrameKind::Macro, Some(name))?,
        definition: Some(definition.origin()),
        listing: definition.list().share()?,
    })
}

/// What a call processes, where the open code of a file may have been read.
pub(crate) fn passage_of(
    alloc: Global,
    call: &CallSite,
    read: &Option<MemberFile>,
) -> Result<Passage, OutOfMemory>
    ensures { IfOk result (λ p. passage_by p ≡ passage_of (called call.now)) }
{
    match call {
        CallSite::OpenCode(path, text) => open_code(alloc, *path, text.as_str(), read),
        CallSite::Macro(call) => in_macro(alloc, call),
    }
}

/// Whether a frame copies the member of this name.
fn copies(frame: &Frame, name: &Name) -> bool
    ensures { result ≡ is_open (copied_by frame.now.kind frame.now.name) name.now }
{
    match frame.kind {
        FrameKind::Copy => match &frame.name {
            Some(copied) => copied.text() == name.text(),
            None => false,
        },
        FrameKind::OpenCode | FrameKind::Macro => false,
    }
}

/// Whether one of these frames does.
#[tactic(auto, using(crate::proofs::PassageLaws::open_here, crate::proofs::PassageLaws::open_behind))]
fn copies_one(frames: &[Frame], name: &Name) -> bool
    ensures { result ≡ is_open (copied_in frames.now) name.now }
{
    let mut left = frames;
    while let [frame, rest @ ..] = left {
        if copies(frame, name) {
            return true;
        }
        left = rest;
    }
    false
}

impl Passage {
    /// Where the statement of a number stands.
    fn origin_at(&self, place: u32) -> Origin
        ensures { result ≡ origin_at (passage_by self.now) place }
    {
        match self.listing.element(place) {
            Some(element) => element.origin,
            None => NOWHERE,
        }
    }

    /// The frames of its call at that statement.
    pub(crate) fn frames_at(&self, place: u32) -> Result<OwnFrames, OutOfMemory>
        ensures { IfOk result (λ f. f ≡ call_frames (passage_by self.now) place) }
    {
        self.frames.at(self.origin_at(place))
    }

    /// The same, outermost first.
    pub(crate) fn all_frames_at(&self, alloc: Global, place: u32) -> Result<Frames, OutOfMemory>
        ensures { IfOk result (λ f. f ≡ frames_of (call_frames (passage_by self.now) place)) }
    {
        let mut frames = Frames::new(alloc);
        self.frames_at(place)?.push_onto(&mut frames)?;
        Ok(frames)
    }

    /// Whether its call is copying the member of this name where it processes this.
    pub(crate) fn is_copying(&self, alloc: Global, name: &Name) -> Result<bool, OutOfMemory>
        ensures { IfOk result (λ is. is ≡ is_open (copying (passage_by self.now)) name.now) }
    {
        let mut frames = Frames::new(alloc);
        self.frames.push_onto(&mut frames)?;
        Ok(copies_one(frames.as_slice(), name))
    }

    /// The member of this name and file, copied by the statement of a number.
    pub(crate) fn copied(
        &self,
        alloc: Global,
        place: u32,
        name: &Name,
        file: &MemberFile,
    ) -> Result<Passage, OutOfMemory>
        ensures { IfOk result (λ p. (element : Element) → passage_by p
            ≡ copied_passage (record { passage = passage_by self.now; place = place; element = element }) name.now file.now) }
    {
        let outer = self.all_frames_at(alloc, place)?;
        let frame = Frame {
            kind: FrameKind::Copy,
            name: Some(name.copy()),
            origin: NOWHERE,
        };
        Ok(Passage {
            frames: OwnFrames::of(alloc, outer, frame)?,
            definition: self.definition,
            listing: file.list().share()?,
        })
    }
}
