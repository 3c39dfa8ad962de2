//! Places in their order.
ghost use Rattle.std.specs.Prelude.{◌≡◌, [], encode_utf8_all, slice_index_or};
ghost use Rattle.symbol_answers.specs.Seen.{seen};
ghost use Rattle.symbol_answers.specs.Order.{spot_of};

use document_store::DocumentStore;
use hl_base::PathId;
use trace_values::Occurrence;

/// Where an occurrence stands: the text of its path, its line, its columns, and the number of its path, in the order in which
/// places are shown.
#[derive(Clone, Copy, PartialEq, Eq, PartialOrd, Ord)]
pub(crate) struct Place<'a> {
    pub(crate) path: &'a str,
    pub(crate) line: u32,
    pub(crate) from: u32,
    pub(crate) to: u32,
    pub(crate) number: u32,
}

/// The text of the path of a number; empty where that was not given.
fn path_text(store: &DocumentStore, path: PathId) -> &str
    ensures { result.now ≡ encode_utf8_all (slice_index_or store.now.store.paths path.0 []) }
{
    if (path.0 as usize) < store.path_count() {
        store.path_text(path)
    } else {
        ""
    }
}

impl<'a> Place<'a> {
    /// Where an occurrence stands.
    pub(crate) fn of(store: &'a DocumentStore, one: &Occurrence) -> Place<'a>
        ensures { seen result ≡ spot_of store.now.store one.now }
    {
        Place {
            path: path_text(store, one.path),
            line: one.line,
            from: one.from,
            to: one.to,
            number: one.path.0,
        }
    }
}
