//! How far a section has come.
ghost use Rattle.std.specs.Prelude.{◌≡◌, ◌<◌};
ghost use Rattle.section_table.specs.Spans as spans;
ghost use Rattle.section_table.specs.Views.{span_of};

use location_counter::Counter;

/// A section without its name: its location counter, and whether it began as a dummy section.
#[derive(Clone, Copy, Debug, PartialEq, Eq)]
pub struct Span {
    pub counter: Counter,
    pub dummy: bool,
}

impl Span {
    /// A section that has no byte yet.
    pub(crate) fn new(dummy: bool) -> Span
        ensures { span_of result ≡ spans.fresh dummy }
    {
        Span {
            counter: Counter::new(),
            dummy,
        }
    }

    /// Takes so many bytes on a boundary, and says where they begin.
    pub(crate) fn take(&mut self, boundary: u32, bytes: u64) -> Option<u32>
        requires { 0 < boundary }
        ensures begins { result ≡ spans.begins boundary bytes (span_of self.old) }
        ensures taken { span_of self.new ≡ spans.taken boundary bytes (span_of self.old) }
    {
        self.counter.take(boundary, bytes)
    }

    /// The counter goes on at a place, and says whether it does.
    pub(crate) fn org(&mut self, at: u32) -> bool
        ensures fits { result ≡ spans.fits at }
        ensures moved { span_of self.new ≡ spans.org at (span_of self.old) }
    {
        self.counter.org(at)
    }

    /// The counter goes on at the highest place where it stood.
    pub(crate) fn org_to_end(&mut self)
        ensures { span_of self.new ≡ spans.org_to_end (span_of self.old) }
    {
        self.counter.org_to_end();
    }
}
