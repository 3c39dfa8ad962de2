//! How far a header has come, and how far a piece takes it.
ghost use Rattle.std.specs.Prelude.{◌≡◌, ◌+◌};
ghost use Rattle.rpc_framing.specs.Stages.{stage_after, fitting, whole_length};
ghost use Rattle.rpc_framing.specs.Places.{departure_at};
ghost use Rattle.rpc_framing.specs.Steps.{Heads};

use crate::place::{Departure, Place};

/// The most bytes of a header, with its empty line.
const MOST_BYTES: usize = 4_096;

/// How far a header has come: to this place, with so many bytes.
#[derive(Clone, Copy)]
pub(crate) struct Stage {
    place: Place,
    size: u16,
}

/// How far the bytes of a piece take a header.
#[derive(Clone, Copy)]
pub(crate) enum Headway {
    /// The piece ends within the header.
    Open(Stage),

    /// The header has ended after so many bytes of the piece, and says this length.
    Whole(usize, u32, Stage),

    /// With so many bytes of the piece no header begins so.
    Dead(usize, Departure),
}

/// The place behind so many bytes, if what it needs still fits.
fn fitting(size: u16, place: Place) -> Option<Stage>
    ensures { result ≡ fitting (size + 1) place }
{
    let size = usize::from(size) + 1;
    if size + place.need() <= MOST_BYTES {
        Some(Stage {
            place,
            size: size as u16,
        })
    } else {
        None
    }
}

impl Stage {
    /// Where a header begins.
    pub(crate) const START: Stage = Stage {
        place: Place::Line(None),
        size: 0,
    };

    /// The length that a whole header says.
    pub(crate) fn length(self) -> Option<u32>
        ensures { result ≡ whole_length self }
    {
        self.place.length()
    }

    /// The stage with one byte more, unless no header goes on so.
    #[tactic(auto, unfolding(crate::specs::Stages::stage_after))]
    fn after(self, byte: u8) -> Option<Stage>
        ensures { result ≡ stage_after self byte }
    {
        match self.place.after(byte) {
            Some(place) => fitting(self.size, place),
            None => None,
        }
    }

    /// What is wrong with a byte that no header goes on with from here.
    fn departure(self, byte: u8) -> Departure
        ensures { result ≡ departure_at self.place byte }
    {
        self.place.departure(byte)
    }
}

/// How far a piece takes a header that stands at a stage.
pub(crate) fn follow_header(start: Stage, piece: &[u8]) -> Headway
    ensures { Heads start piece.now result }
{
    let mut stage = start;
    for (size, byte) in piece.iter().enumerate() {
        if let Some(length) = stage.length() {
            return Headway::Whole(size, length, stage);
        }
        match stage.after(*byte) {
            Some(next) => stage = next,
            None => return Headway::Dead(size + 1, stage.departure(*byte)),
        }
    }
    match stage.length() {
        Some(length) => Headway::Whole(piece.len(), length, stage),
        None => Headway::Open(stage),
    }
}
