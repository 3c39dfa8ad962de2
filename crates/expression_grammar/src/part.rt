//! A term that is being read, character by character.
ghost use Rattle.std.specs.Prelude.{◌≡◌, ◌<◌, ◌≤◌, ◌^◌, [], ◌∷◌, ◌++◌, length, option_map, is_some, IsTrue, None, IfSome};
ghost use Rattle.std.specs.Char.{to_ascii_uppercase};
ghost use Rattle.hl_base.specs.Symbols.{is_symbol_character};
ghost use Rattle.expression_grammar.specs.Characters as characters;
ghost use Rattle.expression_grammar.specs.Parts as parts;
ghost use Rattle.expression_grammar.specs.Spelling as spelling;
ghost use Rattle.expression_grammar.specs.Views.{tree_of};

use crate::character::{Grammar, Kind, digit_value, kind_of};
use crate::spelled::{LONGEST, Spelled};
use crate::tree::{Attribute, Expr, Form, Reference, Symbol, variable};
use hl_base::ebcdic;
use std::alloc::Global;

/// How much of a term is there.
#[derive(Drop)]
pub enum Part {
    /// So many digits, of this value; behind the opening apostrophe, where the form has one.
    Figures(Form, u32, u32),
    /// So many characters, of this value, behind the opening apostrophe of a character term.
    Body(u32, u32),
    /// The same, and an apostrophe, which may end the term.
    BodyQuote(u32, u32),
    /// The same, and the first of two ampersands.
    BodyAmpersand(u32, u32),
    /// A letter that asks for an attribute, with its apostrophe.
    Asked(Attribute),
    /// The `&` at a place.
    Sigil(Reference, u32),
    /// An ordinary symbol at a place, or the letter of a term.
    Word(u32, Spelled),
    /// An ordinary symbol at a place whose attribute is asked for.
    Property(Attribute, u32, Spelled),
    /// A variable symbol at a place.
    Named(Reference, u32, Spelled),
}

/// What a character does to a term.
#[derive(Drop)]
pub enum Move {
    /// It belongs to the term.
    To(Part),
    /// It ends a self-defining term.
    Done(Form, u32),
    /// It opens the subscripts of a variable symbol.
    Begins(Reference, Symbol),
    /// It does not belong to the term.
    Over(Part),
}

impl Form {
    fn base(self) -> u32
        ensures { result ≡ spelling.base_of self }
    {
        match self {
            Form::Decimal => 10,
            Form::Hexadecimal => 16,
            Form::Binary => 2,
            Form::Character => 256,
        }
    }

    /// How many digits or characters a term has at most.
    fn most(self) -> u32
        ensures { result ≡ spelling.most_of self }
    {
        match self {
            Form::Decimal => 10,
            Form::Hexadecimal => 8,
            Form::Binary => 32,
            Form::Character => 4,
        }
    }

    fn greatest(self) -> u32
        ensures { result ≡ spelling.greatest_of self }
    {
        match self {
            Form::Decimal => 2_147_483_647,
            _ => 4_294_967_295,
        }
    }

    fn is_quoted(self) -> bool
        ensures { result ≡ parts.is_quoted self }
    {
        match self {
            Form::Decimal => false,
            _ => true,
        }
    }
}

/// The number with one digit more, where there is room for it.
fn with_digit(form: Form, count: u32, number: u32, digit: u32) -> Option<u32>
    requires { digit < 256 }
    ensures value { result ≡ parts.with_digit form count number digit }
    ensures few { IfSome result (λ _. count < 32) }
{
    let longer = u64::from(number) * u64::from(form.base()) + u64::from(digit);
    if count < form.most() && longer <= u64::from(form.greatest()) {
        Some(longer as u32)
    } else {
        None
    }
}

/// The apostrophe behind digits.
fn after_last_figure(kind: Kind, form: Form, count: u32, number: u32) -> Move
    ensures { result ≡ parts.close_figures kind form count number }
{
    match kind {
        Kind::Quote if form.is_quoted() && count > 0 => Move::Done(form, number),
        _ => Move::Over(Part::Figures(form, count, number)),
    }
}

fn after_figures(form: Form, count: u32, number: u32, c: char) -> Move
    ensures { result ≡ parts.after_figures form count number c }
{
    let digit = digit_value(c);
    if digit < form.base() {
        if let Some(longer) = with_digit(form, count, number, digit) {
            return Move::To(Part::Figures(form, count + 1, longer));
        }
    }
    after_last_figure(kind_of(c), form, count, number)
}

/// One character more of a character term.
fn grow(count: u32, number: u32, c: char, part: Part) -> Move
    ensures { result ≡ parts.grow count number c part }
{
    match with_digit(Form::Character, count, number, u32::from(ebcdic(c))) {
        Some(longer) => Move::To(Part::Body(count + 1, longer)),
        None => Move::Over(part),
    }
}

fn after_body(kind: Kind, count: u32, number: u32, c: char) -> Move
    ensures { result ≡ parts.after_body kind count number c }
{
    match kind {
        Kind::Quote => Move::To(Part::BodyQuote(count, number)),
        Kind::Ampersand => match with_digit(Form::Character, count, number, u32::from(ebcdic(c))) {
            Some(_) => Move::To(Part::BodyAmpersand(count, number)),
            None => Move::Over(Part::Body(count, number)),
        },
        _ => grow(count, number, c, Part::Body(count, number)),
    }
}

fn after_quote(kind: Kind, count: u32, number: u32, c: char) -> Move
    ensures { result ≡ parts.after_quote kind count number c }
{
    match kind {
        Kind::Quote => grow(count, number, c, Part::BodyQuote(count, number)),
        _ => Move::Over(Part::BodyQuote(count, number)),
    }
}

fn after_ampersand(kind: Kind, count: u32, number: u32, c: char) -> Move
    ensures { result ≡ parts.after_ampersand kind count number c }
{
    match kind {
        Kind::Ampersand => grow(count, number, c, Part::BodyAmpersand(count, number)),
        _ => Move::Over(Part::BodyAmpersand(count, number)),
    }
}

fn after_asked(grammar: Grammar, kind: Kind, asked: Attribute, c: char, at: u32) -> Move
    requires { kind ≡ characters.kind_of c }
    ensures { result ≡ parts.after_asked grammar kind asked (record { at = at; code = c }) }
{
    match kind {
        Kind::Ampersand if grammar.may_vary(Reference::Of(asked)) => Move::To(Part::Sigil(
            Reference::Of(asked),
            at,
        )),
        Kind::Letter if grammar.asks_of_symbol(asked) => Move::To(Part::Property(
            asked,
            at,
            Spelled::new(c),
        )),
        _ => Move::Over(Part::Asked(asked)),
    }
}

fn after_sigil(kind: Kind, asked: Reference, place: u32, c: char) -> Move
    requires { kind ≡ characters.kind_of c }
    ensures { result ≡ parts.after_sigil kind asked place c }
{
    match kind {
        Kind::Letter => Move::To(Part::Named(asked, place, Spelled::new(c))),
        _ => Move::Over(Part::Sigil(asked, place)),
    }
}

/// What the letter before an apostrophe begins.
#[tactic(auto, unfolding(crate::specs::Parts::opening))]
pub fn opening(grammar: Grammar, letter: u8) -> Option<Part>
    ensures { result ≡ parts.opening grammar letter }
{
    match letter {
        b'X' => Some(Part::Figures(Form::Hexadecimal, 0, 0)),
        b'B' => Some(Part::Figures(Form::Binary, 0, 0)),
        b'C' => Some(Part::Body(0, 0)),
        b'L' => Some(Part::Asked(Attribute::Length)),
        _ => opening_attribute(grammar, letter),
    }
}

fn opening_attribute(grammar: Grammar, letter: u8) -> Option<Part>
    ensures { result ≡ parts.opening_attribute grammar letter }
{
    if grammar.is_ordinary() {
        return None;
    }
    match letter {
        b'K' => Some(Part::Asked(Attribute::Count)),
        b'N' => Some(Part::Asked(Attribute::Number)),
        b'D' => Some(Part::Asked(Attribute::Defined)),
        _ => None,
    }
}

/// What an apostrophe behind a name begins.
fn open_name(grammar: Grammar, place: u32, name: Spelled) -> Move
    ensures { result ≡ parts.open_name grammar (parts.single name) (Part.Word place name) }
{
    if let Some(letter) = name.single() {
        if let Some(begun) = opening(grammar, letter) {
            return Move::To(begun);
        }
    }
    Move::Over(Part::Word(place, name))
}

fn after_word(grammar: Grammar, kind: Kind, place: u32, name: Spelled, c: char) -> Move
    requires { kind ≡ characters.kind_of c }
    ensures { result ≡ parts.after_word grammar kind place name c }
{
    match kind {
        Kind::Letter | Kind::Digit if grammar.is_ordinary() && name.len() < LONGEST => Move::To(
            Part::Word(place, name.with(c)),
        ),
        Kind::Quote => open_name(grammar, place, name),
        _ => Move::Over(Part::Word(place, name)),
    }
}

fn after_property(kind: Kind, asked: Attribute, place: u32, name: Spelled, c: char) -> Move
    requires { kind ≡ characters.kind_of c }
    ensures { result ≡ parts.after_property kind asked place name c }
{
    match kind {
        Kind::Letter | Kind::Digit if name.len() < LONGEST => Move::To(Part::Property(
            asked,
            place,
            name.with(c),
        )),
        _ => Move::Over(Part::Property(asked, place, name)),
    }
}

fn after_named(kind: Kind, asked: Reference, place: u32, name: Spelled, c: char) -> Move
    requires { kind ≡ characters.kind_of c }
    ensures { result ≡ parts.after_named kind asked place name c }
{
    match kind {
        Kind::Letter | Kind::Digit if name.len() < LONGEST => Move::To(Part::Named(
            asked,
            place,
            name.with(c),
        )),
        Kind::Open => Move::Begins(asked, symbol(place, &name)),
        _ => Move::Over(Part::Named(asked, place, name)),
    }
}

/// The symbol of this name at a place.
fn symbol(place: u32, name: &Spelled) -> Symbol
    ensures { result ≡ parts.symbol_at place name.now }
{
    Symbol {
        name: name.name(),
        at: place,
    }
}

impl Part {
    /// What a character at a place does to the term.
    #[tactic(auto, unfolding(crate::specs::Parts::after))]
    pub fn after(self, grammar: Grammar, kind: Kind, c: char, at: u32) -> Move
        requires { kind ≡ characters.kind_of c }
        ensures { result ≡ parts.after grammar self (record { at = at; code = c }) }
    {
        match self {
            Part::Figures(form, count, number) => after_figures(form, count, number, c),
            Part::Body(count, number) => after_body(kind, count, number, c),
            Part::BodyQuote(count, number) => after_quote(kind, count, number, c),
            Part::BodyAmpersand(count, number) => after_ampersand(kind, count, number, c),
            Part::Asked(asked) => after_asked(grammar, kind, asked, c, at),
            Part::Sigil(asked, place) => after_sigil(kind, asked, place, c),
            Part::Word(place, name) => after_word(grammar, kind, place, name, c),
            Part::Property(asked, place, name) => after_property(kind, asked, place, name, c),
            Part::Named(asked, place, name) => after_named(kind, asked, place, name, c),
        }
    }

    /// Whether all of the term is there.
    #[tactic(auto, unfolding(crate::specs::Parts::finish))]
    pub fn is_whole(&self, grammar: Grammar) -> bool
        ensures { result ≡ is_some (parts.finish grammar self.now) }
    {
        match self {
            Part::Figures(Form::Decimal, _, _) | Part::Property(..) | Part::Named(..) => true,
            Part::BodyQuote(count, _) => *count > 0,
            Part::Word(..) => grammar.is_ordinary(),
            _ => false,
        }
    }

    /// The term, where all of it is there. It takes no memory.
    #[tactic(auto, unfolding(crate::specs::Parts::finish))]
    pub fn finish(self, alloc: Global, grammar: Grammar) -> Option<Expr>
        ensures { option_map tree_of result ≡ parts.finish grammar self }
    {
        match self {
            Part::Figures(Form::Decimal, _, number) => Some(Expr::Number(Form::Decimal, number)),
            Part::BodyQuote(count, number) if count > 0 => Some(Expr::Number(
                Form::Character,
                number,
            )),
            Part::Word(place, name) if grammar.is_ordinary() => Some(Expr::Symbol(
                Reference::Value,
                symbol(place, &name),
            )),
            Part::Property(asked, place, name) => Some(Expr::Symbol(
                Reference::Of(asked),
                symbol(place, &name),
            )),
            Part::Named(asked, place, name) => Some(variable(
                asked,
                symbol(place, &name),
                Vec::new(alloc),
            )),
            _ => None,
        }
    }
}
