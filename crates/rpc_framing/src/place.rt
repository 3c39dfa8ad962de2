//! A place in a header, and the next with one byte more: the one part that knows how a header line is written (LSP 3.17,
//! "Header Part").
ghost use Rattle.std.specs.Prelude.{◌≡◌, ◌≤◌, ◌+◌, ◌*◌, nat_lt};
ghost use Rattle.rpc_framing.specs.Frames.{is_name_byte, is_blank, is_printed};
ghost use Rattle.rpc_framing.specs.Places.{place_after, after_line, after_name, after_other_name, in_name, after_colon, after_digits, after_digit, after_gap, after_value, after_return, need, owed, departure_at, length_at};

/// The name of the line that says the length, in lower case.
const LENGTH_NAME: [u8; 14] = *b"content-length";

/// The most digits of a length.
const MOST_DIGITS: u8 = 10;

/// The greatest length of a body, in bytes.
const GREATEST_LENGTH: u64 = 16_777_216;

/// The bytes of the shortest line that says a length, with its end.
const SHORTEST_LENGTH_LINE: usize = 18;

/// A place in a header. The number beside it is the length, where a line before has said it.
#[derive(Clone, Copy)]
pub(crate) enum Place {
    /// Where a line begins.
    Line(Option<u32>),

    /// Behind so many bytes of a name, all of them as in the name of the length's line.
    Name(usize, Option<u32>),

    /// Within a name that differs from it.
    OtherName(Option<u32>),

    /// Behind the colon of the length's line, its blanks, and so many digits of this value.
    Digits(u8, u32),

    /// Behind the colon of another line, and blanks.
    Gap(Option<u32>),

    /// Within the value of another line.
    Value(Option<u32>),

    /// Behind the CR of a line.
    Return(Option<u32>),

    /// Behind the CR of the empty line.
    LastReturn(u32),

    /// Behind a whole header, which says this length.
    Whole(u32),
}

/// What is wrong with the first byte that no frame goes on with.
#[derive(Clone, Copy, Debug, PartialEq, Eq)]
pub enum Departure {
    /// No header goes on so.
    BadHeader,

    /// It is the digit with which the length passes the greatest.
    TooLong,
}

#[tactic(auto, unfolding(crate::specs::Frames::is_name_byte))]
fn is_name_byte(byte: u8) -> bool
    ensures { result ≡ is_name_byte byte }
{
    byte.is_ascii_alphanumeric() || byte == b'-'
}

#[tactic(auto, unfolding(crate::specs::Frames::is_blank))]
fn is_blank(byte: u8) -> bool
    ensures { result ≡ is_blank byte }
{
    byte == b' ' || byte == b'\t'
}

#[tactic(auto, unfolding(crate::specs::Frames::is_printed))]
fn is_printed(byte: u8) -> bool
    ensures { result ≡ is_printed byte }
{
    (b' '..=b'~').contains(&byte)
}

impl Place {
    /// The length that a whole header says.
    pub(crate) fn length(self) -> Option<u32>
        ensures { result ≡ length_at self }
    {
        match self {
            Place::Whole(length) => Some(length),
            _ => None,
        }
    }

    /// The place with one byte more, unless no line goes on so.
    #[tactic(auto, unfolding(crate::specs::Places::place_after))]
    pub(crate) fn after(self, byte: u8) -> Option<Place>
        ensures { result ≡ place_after self byte }
    {
        match self {
            Place::Line(known) => after_line(known, byte),
            Place::Name(seen, known) => after_name(seen, known, byte),
            Place::OtherName(known) => after_other_name(known, byte),
            Place::Digits(count, value) => after_digits(count, value, byte),
            Place::Gap(known) => after_gap(known, byte),
            Place::Value(known) => after_value(known, byte),
            Place::Return(known) => after_return(Place::Line(known), byte),
            Place::LastReturn(length) => after_return(Place::Whole(length), byte),
            Place::Whole(_) => None,
        }
    }

    /// The fewest bytes that make the header whole.
    pub(crate) fn need(self) -> usize
        ensures exact { result ≡ need self }
        ensures few { result ≤ 23 }
    {
        match self {
            Place::Line(known) => owed(known) + 2,
            Place::Name(seen, None) => 20usize.saturating_sub(seen),
            Place::Name(seen, Some(_)) => { if seen == LENGTH_NAME.len() { 6 } else { 5 } }
            Place::OtherName(known) => owed(known) + 5,
            Place::Digits(0, _) => 5,
            Place::Digits(_, _) => 4,
            Place::Gap(known) | Place::Value(known) => owed(known) + 4,
            Place::Return(known) => owed(known) + 3,
            Place::LastReturn(_) => 1,
            Place::Whole(_) => 0,
        }
    }

    /// What is wrong with a byte that does not go on from here.
    pub(crate) fn departure(self, byte: u8) -> Departure
        ensures { result ≡ departure_at self byte }
    {
        match self {
            Place::Digits(_, value) if byte.is_ascii_digit() && passes(value, byte - b'0') => {
                Departure::TooLong
            }
            _ => Departure::BadHeader,
        }
    }
}

/// The bytes that are owed for the line of the length.
fn owed(known: Option<u32>) -> usize
    ensures { result ≡ owed known }
{
    match known {
        None => SHORTEST_LENGTH_LINE,
        Some(_) => 0,
    }
}

fn after_line(known: Option<u32>, byte: u8) -> Option<Place>
    ensures { result ≡ after_line known byte }
{
    match known {
        Some(length) if byte == b'\r' => Some(Place::LastReturn(length)),
        _ => in_name(0, known, byte),
    }
}

/// A byte of a name, behind so many that agree with the length's.
#[tactic(auto, unfolding(crate::specs::Frames::length_name))]
fn in_name(seen: usize, known: Option<u32>, byte: u8) -> Option<Place>
    ensures { result ≡ in_name seen known byte }
{
    if !is_name_byte(byte) {
        return None;
    }
    if seen < LENGTH_NAME.len() && LENGTH_NAME[seen] == byte.to_ascii_lowercase() {
        Some(Place::Name(seen + 1, known))
    } else {
        Some(Place::OtherName(known))
    }
}

fn after_name(seen: usize, known: Option<u32>, byte: u8) -> Option<Place>
    ensures { result ≡ after_name seen known byte }
{
    if byte == b':' {
        after_colon(seen, known)
    } else {
        in_name(seen, known, byte)
    }
}

/// One line says the length, and no other.
fn after_colon(seen: usize, known: Option<u32>) -> Option<Place>
    ensures { result ≡ after_colon seen known }
{
    if seen != LENGTH_NAME.len() {
        return Some(Place::Gap(known));
    }
    match known {
        None => Some(Place::Digits(0, 0)),
        Some(_) => None,
    }
}

fn after_other_name(known: Option<u32>, byte: u8) -> Option<Place>
    ensures { result ≡ after_other_name known byte }
{
    if byte == b':' {
        Some(Place::Gap(known))
    } else if is_name_byte(byte) {
        Some(Place::OtherName(known))
    } else {
        None
    }
}

fn after_digits(count: u8, value: u32, byte: u8) -> Option<Place>
    ensures { result ≡ after_digits count value byte }
{
    if byte.is_ascii_digit() {
        return after_digit(count, value, byte - b'0');
    }
    if count == 0 {
        if is_blank(byte) {
            Some(Place::Digits(count, value))
        } else {
            None
        }
    } else if byte == b'\r' {
        Some(Place::Return(Some(value)))
    } else {
        None
    }
}

fn after_digit(count: u8, value: u32, digit: u8) -> Option<Place>
    ensures { result ≡ after_digit count value digit }
{
    let value = u64::from(value) * 10 + u64::from(digit);
    if count < MOST_DIGITS && value <= GREATEST_LENGTH {
        Some(Place::Digits(count + 1, value as u32))
    } else {
        None
    }
}

/// Whether a length passes the greatest with a digit more.
fn passes(value: u32, digit: u8) -> bool
    ensures { result ≡ nat_lt 16777216 (value * 10 + digit) }
{
    u64::from(value) * 10 + u64::from(digit) > GREATEST_LENGTH
}

fn after_gap(known: Option<u32>, byte: u8) -> Option<Place>
    ensures { result ≡ after_gap known byte }
{
    if is_blank(byte) {
        Some(Place::Gap(known))
    } else {
        after_value(known, byte)
    }
}

fn after_value(known: Option<u32>, byte: u8) -> Option<Place>
    ensures { result ≡ after_value known byte }
{
    if byte == b'\r' {
        Some(Place::Return(known))
    } else if is_printed(byte) {
        Some(Place::Value(known))
    } else {
        None
    }
}

fn after_return(next: Place, byte: u8) -> Option<Place>
    ensures { result ≡ after_return next byte }
{
    if byte == b'\n' { Some(next) } else { None }
}
