//! What there is where the statement of a case stands.
use crate::symbols::value;
use hl_base::OutOfMemory;
use std::alloc::Global;
use trace_values::Reloc;
use using_ranges::{REGISTERS, Ranges};

/// The symbols, the ranges, and the places of the literals of a case, as they are written.
#[derive(Drop)]
pub struct Words<'a> {
    pub symbols: &'a str,
    pub ranges: &'a str,
    pub places: &'a str,
}

/// Begins a range: its register, an equals sign and the address where it begins, and behind a hyphen its end.
fn begin(ranges: &mut Ranges, words: &str) {
    let Some((register, rest)) = words.split_once('=') else {
        return;
    };
    let (base, end) = match rest.split_once('-') {
        Some((base, end)) => (base, end.parse::<i32>().ok()),
        None => (rest, None),
    };
    let register = register.parse::<u8>().unwrap_or(0);
    if (register as usize) < REGISTERS {
        ranges.using(value(base), end, &[register]);
    }
}

/// The ranges in force, with blanks between them.
pub fn ranges(words: &str) -> Ranges {
    let mut ranges = Ranges::new();
    for word in words.split(' ') {
        begin(&mut ranges, word);
    }
    ranges
}

/// The places of literals, with blanks between them; a hyphen is one that was refused.
pub fn places(alloc: Global, words: &str) -> Result<Vec<Option<Reloc>>, OutOfMemory> {
    let mut places = Vec::new(alloc);
    for word in words.split(' ') {
        places.push(if word == "-" { None } else { Some(value(word)) })?;
    }
    Ok(places)
}
