//! What is known of a program besides its points.
ghost use Rattle.std.specs.Prelude.{◌≡◌};
ghost use Rattle.std.specs.Option.{option_copied};
ghost use Rattle.program_occurrences.specs.Known as known;

use hl_base::{Answer, FrameKind, Name, PathId};
use statement_listing::Listing;
use text_lists::{DefinitionLists, TextLists};
use text_pool::Present;
use trace_values::TraceItem;

/// The file of a member that is found so.
fn file_in(answer: Answer) -> Option<PathId>
    ensures { result ≡ known.file_in answer }
{
    match answer {
        Answer::File(path, _) => Some(path),
        _ => None,
    }
}

/// The file of the member of a name, if there is one that can be read.
pub(crate) fn file_of<P: Present>(present: &P, name: &Name) -> Option<PathId>
    ensures { result ≡ known.path_in (P.members present.now name.now) }
{
    file_in(present.member(name))
}

/// The list that is run at a point: the statements of the definition of a macro, or those of a text.
pub(crate) fn running<'a>(
    texts: &'a TextLists,
    definitions: &'a DefinitionLists,
    item: &TraceItem,
) -> Option<&'a Listing>
    ensures { option_copied result ≡ known.running texts.now definitions.now item.now }
{
    let frame = item.frames.innermost();
    match frame.kind {
        FrameKind::Macro => match item.definition {
            Some(origin) => definitions.list_of(origin),
            None => None,
        },
        FrameKind::OpenCode | FrameKind::Copy => texts.list_of(frame.origin.path),
    }
}
