//! Lines, and lists of them.
ghost use Rattle.std.specs.Prelude.{◌≡◌, ◌<◌, ℕ, Some, None, map, option_map, slice_get, nat_lt, if◌then◌else◌, vec_len};

/// What a line does: it says a number, what the world's value is, or how many calls were counted at its call's entry; it
/// sets the value; it sets it to the number of a line and goes on at that line; it branches to a label, always or where the value is not 0; it bears a label; it calls or copies a list,
/// or one that is not there; it ends its call; or it ends all.
#[derive(Clone, Copy)]
pub enum Line {
    Says(u32),
    SaysValue,
    SaysCalls,
    Sets(u32),
    SkipsTo(u32),
    BranchesTo(u32),
    BranchesIf(u32),
    Labelled(u32),
    CallsList(u32),
    CopiesList(u32),
    CopiesNothing,
    ReturnsNow,
    FinishesNow,
}

impl Line {
    ghost use Rattle.plain_expansion.specs.Example.{has_example_label};
    ghost use Rattle.example_language.specs.Lines.{line_by};

    /// Whether it bears this label.
    pub(crate) fn has_label(&self, label: u32) -> bool
        ensures { result ≡ has_example_label (line_by self.now) label }
    {
        match self {
            Line::Labelled(its_label) => *its_label == label,
            Line::Says(_) => false,
            Line::SaysValue => false,
            Line::SaysCalls => false,
            Line::Sets(_) => false,
            Line::SkipsTo(_) => false,
            Line::BranchesTo(_) => false,
            Line::BranchesIf(_) => false,
            Line::CallsList(_) => false,
            Line::CopiesList(_) => false,
            Line::CopiesNothing => false,
            Line::ReturnsNow => false,
            Line::FinishesNow => false,
        }
    }
}

/// A list of fewer than 2^32 lines.
#[derive(Drop)]
pub struct Listing {
    lines: Vec<Line>,
    ghost short: { vec_len lines < 4294967296 },
}

impl Listing {
    ghost use Rattle.plain_expansion.specs.Expansion.{first_where};
    ghost use Rattle.plain_expansion.specs.Example.{has_example_label};
    ghost use Rattle.example_language.specs.Lines.{line_by, lines_by};

    /// The list of these lines, unless there are too many.
    pub fn new(lines: Vec<Line>) -> Option<Listing>
        ensures { option_map lines_by result ≡ (if nat_lt (vec_len lines) 4294967296 then Some (map line_by lines.items) else None) }
    {
        if lines.len() < 4_294_967_296 {
            return Some(Listing { lines });
        }
        None
    }

    /// The line at a place.
    pub(crate) fn line_at(&self, position: u32) -> Option<Line>
        ensures { option_map line_by result ≡ slice_get (lines_by self.now) position }
    {
        self.lines.as_slice().get(position as usize).copied()
    }

    /// The place of the first line that bears this label.
    pub(crate) fn place_of(&self, label: u32) -> Option<u32>
        ensures { result ≡ first_where (λ s. has_example_label s label) (lines_by self.now) }
    {
        let mut position: u32 = 0;
        for line in self.lines.as_slice() {
            if line.has_label(label) {
                return Some(position);
            }
            position += 1;
        }
        None
    }
}
