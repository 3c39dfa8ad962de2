//! Numbers among the words.
ghost use Rattle.std.specs.Prelude.{◌≡◌, ◌<◌, ◌≤◌, true, length, IsTrue};
ghost use Rattle.std.specs.Char.{is_ascii_digit};
ghost use Rattle.std.specs.List.{list_all};
ghost use Rattle.std.specs.Option.{option_map};
ghost use Rattle.std.specs.Str.Parse.{digits_value};
ghost use Rattle.command_words.specs.Commands.{budget_of, count_of, is_numeral, number_in, up_to};

/// How many statements a program may be given where nothing else is said.
const USUAL_BUDGET: u32 = 100_000;

/// Whether each of the bytes is a digit.
fn are_digits(bytes: &[u8]) -> bool
    ensures { result ≡ list_all is_ascii_digit bytes.now }
{
    bytes.iter().all(|c| c.is_ascii_digit())
}

/// Whether a word is digits, at least one and at most so many.
fn is_numeral(most: usize, word: &str) -> bool
    requires few { most ≤ 6 }
    ensures is { result ≡ is_numeral most word.now }
    ensures some { IsTrue result → 0 < length word.now }
    ensures short { IsTrue result → length word.now ≤ 6 }
    ensures digits { IsTrue result → list_all is_ascii_digit word.now ≡ true }
{
    let count = word.len();
    0 < count && count < most + 1 && are_digits(word.as_bytes())
}

/// The number that 1 to 6 digits write.
fn number_of(word: &str) -> u32
    requires some { 0 < length word.now }
    requires few { length word.now ≤ 6 }
    requires digits { list_all is_ascii_digit word.now ≡ true }
    ensures { result ≡ digits_value 10 word.now }
{
    match word.parse::<u32>() {
        Ok(number) => number,
        Err(_) => unreachable!(),
    }
}

/// A number, if it is from 1 on and not above this one.
fn up_to(greatest: u32, number: u32) -> Option<u32>
    requires room { greatest < 1000000 }
    ensures { result ≡ up_to greatest number }
{
    if 0 < number && number < greatest + 1 {
        Some(number)
    } else {
        None
    }
}

/// The number that a word writes, of so many digits at most and up to this one.
fn number_in(most: usize, greatest: u32, word: &str) -> Option<u32>
    requires few { most ≤ 6 }
    requires room { greatest < 1000000 }
    ensures { result ≡ number_in most greatest word.now }
{
    if is_numeral(most, word) {
        up_to(greatest, number_of(word))
    } else {
        None
    }
}

/// The budget, as it is given or left out.
pub(crate) fn budget_of(word: Option<&str>) -> Option<u32>
    ensures { result ≡ budget_of (option_map (λ text. text.now) word.entry) }
{
    match word {
        Some(word) => number_in(6, 400_000, word),
        None => Some(USUAL_BUDGET),
    }
}

/// The count, if it is given.
pub(crate) fn count_of(word: Option<&str>) -> Option<u32>
    ensures { result ≡ count_of (option_map (λ text. text.now) word.entry) }
{
    match word {
        Some(word) => number_in(5, 10_000, word),
        None => None,
    }
}
