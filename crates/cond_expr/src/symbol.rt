//! What attribute references tell of ordinary symbols (SC26-4940, "Data attributes").
//!
//! Each call tells an outcome: the value, with its notes after those that were there, or the key whose answer is needed
//! and was not given. After an `Err` the notes are of no use: whoever evaluates begins again with one more answer.
ghost use Rattle.std.specs.Prelude.{◌≡◌, List, [], ◌∷◌, IfOk};
ghost use Rattle.hl_base.specs.declared.note.Note.{Note};
ghost use Rattle.hl_base.specs.declared.set.Key.TheVariants.{Sym, Look};
ghost use Rattle.cond_expr.specs.Outcome.{Tells};
ghost use Rattle.cond_expr.specs.Symbols as symbols;

use crate::lookups::Lookups;
use crate::stop::Stop;
use crate::{arithmetic, trouble};
use hl_base::{Answer, Attr, Key, Name, Notes, OutOfMemory, Text};
use std::alloc::Global;

/// A number that was computed, where it fits; else 0 with a note.
pub fn checked(alloc: Global, number: Option<i32>, notes: &mut Notes) -> Result<i32, Stop>
    ensures { Tells (symbols.checked number) notes.old notes.new result }
{
    match number {
        Some(number) => Ok(number),
        None => {
            notes.push(trouble::overflow(alloc)?)?;
            Ok(0)
        }
    }
}

/// A count as a number.
pub fn counted(alloc: Global, count: usize, notes: &mut Notes) -> Result<i32, Stop>
    ensures { Tells (symbols.counted count) notes.old notes.new result }
{
    checked(alloc, arithmetic::counted(count), notes)
}

/// The meaning that an answer tells.
fn meaning_in(answer: &Answer) -> Option<Attr>
    ensures { result ≡ symbols.meaning_in answer.now }
{
    match answer {
        Answer::Meaning(attr) => Some(*attr),
        Answer::Nothing
        | Answer::Number(_)
        | Answer::Bit(_)
        | Answer::Chars(_)
        | Answer::Defined
        | Answer::File(_, _)
        | Answer::Unreadable => None,
    }
}

/// What the statements so far tell of a symbol.
fn defined_so_far<Q: Lookups>(name: &Name, q: &Q) -> Result<Option<Attr>, Stop>
    ensures { (notes : List Note) →
        Tells (symbols.defined_so_far name.now ((Q.told q.now).answer (Sym name.now))) notes notes result }
{
    let key = Key::Sym(name.copy());
    match q.answer(&key) {
        Some(answer) => Ok(meaning_in(answer)),
        None => Err(Stop::Asked(Key::Sym(name.copy()))),
    }
}

/// What lookahead tells of a symbol.
fn found_ahead<Q: Lookups>(name: &Name, q: &Q) -> Result<Option<Attr>, Stop>
    ensures { (notes : List Note) →
        Tells (symbols.found_ahead (Q.told q.now) name.now ((Q.told q.now).answer (Look name.now))) notes notes result }
{
    let key = Key::Look(name.copy());
    match q.answer(&key) {
        Some(answer) => Ok(meaning_in(answer)),
        None => Err(Stop::Asked(Key::Look(name.copy()))),
    }
}

/// The meaning of a symbol: what the statements so far tell, or else lookahead.
fn meaning<Q: Lookups>(name: &Name, q: &Q) -> Result<Option<Attr>, Stop>
    ensures { (notes : List Note) → Tells (symbols.meaning (Q.told q.now) name.now) notes notes result }
{
    match defined_so_far(name, q)? {
        Some(attr) => Ok(Some(attr)),
        None => found_ahead(name, q),
    }
}

/// L' of a symbol.
pub fn length_of<Q: Lookups>(
    alloc: Global,
    name: &Name,
    q: &Q,
    notes: &mut Notes,
) -> Result<i32, Stop>
    ensures { Tells (symbols.length_of (Q.told q.now) name.now) notes.old notes.new result }
{
    match meaning(name, q)? {
        Some(attr) => counted(alloc, attr.length as usize, notes),
        None => {
            notes.push(trouble::no_length(alloc, name.text())?)?;
            Ok(1)
        }
    }
}

/// D' of a symbol, which never looks ahead.
pub fn defined_of<Q: Lookups>(name: &Name, q: &Q) -> Result<i32, Stop>
    ensures { (notes : List Note) → Tells (symbols.defined_of (Q.told q.now) name.now) notes notes result }
{
    match defined_so_far(name, q)? {
        Some(attr) => {
            if attr.letter == b'M' {
                return Ok(0);
            }
            Ok(1)
        }
        None => Ok(0),
    }
}

/// A text of one character.
pub fn letter(alloc: Global, letter: u8) -> Result<Text, OutOfMemory>
    ensures { IfOk result (λ text. text ≡ letter ∷ []) }
{
    let mut buffer = [0; 4];
    Text::of(alloc, (letter as char).encode_utf8(&mut buffer))
}

/// T' of a symbol.
pub fn type_of<Q: Lookups>(alloc: Global, name: &Name, q: &Q) -> Result<Text, Stop>
    ensures { (notes : List Note) → Tells (symbols.type_of (Q.told q.now) name.now) notes notes result }
{
    match meaning(name, q)? {
        Some(attr) => Ok(letter(alloc, attr.letter)?),
        None => Ok(letter(alloc, b'U')?),
    }
}

/// L' of a text that should name a symbol.
pub fn length_of_text<Q: Lookups>(
    alloc: Global,
    text: &Text,
    q: &Q,
    notes: &mut Notes,
) -> Result<i32, Stop>
    ensures { Tells (symbols.length_of_text (Q.told q.now) text.now) notes.old notes.new result }
{
    match Name::read(text.as_str()) {
        Some(name) => length_of(alloc, &name, q, notes),
        None => {
            notes.push(trouble::no_length(alloc, text.as_str())?)?;
            Ok(1)
        }
    }
}

/// D' of a text that may name a symbol.
pub fn defined_of_text<Q: Lookups>(text: &Text, q: &Q) -> Result<i32, Stop>
    ensures { (notes : List Note) → Tells (symbols.defined_of_text (Q.told q.now) text.now) notes notes result }
{
    match Name::read(text.as_str()) {
        Some(name) => defined_of(&name, q),
        None => Ok(0),
    }
}
