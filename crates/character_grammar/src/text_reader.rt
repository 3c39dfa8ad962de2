//! One character more of a character expression.
//!
//! A character expression nests only through the arithmetic expressions in it, so it is where it stands, and within
//! one of these the automaton of arithmetic. No call recurses on the text.
ghost use Rattle.std.specs.Prelude.{◌≡◌, ◌+◌, ◌<◌, ◌≤◌, ◌^◌, [], ◌∷◌, IfOk, IfSome, IsTrue, is_some, option_map, Some, true};
ghost use Rattle.expression_grammar.specs.Characters as characters;
ghost use Rattle.expression_grammar.specs.Parts as parts;
ghost use Rattle.expression_grammar.specs.Reading as reading;
ghost use Rattle.expression_grammar.specs.Stacks.{stack_of, stand};
ghost use Rattle.character_grammar.specs.TextReading as texts;
ghost use Rattle.character_grammar.specs.declared.text_point.TextPoint.TheVariants as points;
ghost use Rattle.character_grammar.specs.TextViews.{TextMoves, Settles, left_of, opened_of, holder_of, frame_of, text_state};
ghost use Rattle.expression_grammar.specs.Trees.{NoItems, NoTrees, Quoted, size, size_items};
ghost use Rattle.expression_grammar.specs.Views.{tree_of, trees_in, items_in};

use crate::quoted::{Characters, with_characters, with_symbol};
use crate::text_point::{Frame, Holder, Opened, TextPoint, built, typed, typed_name};
use expression_grammar::character::{Grammar, Kind, kind_of};
use expression_grammar::part::Part;
use expression_grammar::pending::{Pending, Point, fold};
use expression_grammar::reader::{Moved, step};
use expression_grammar::spelled::{LONGEST, Spelled};
use expression_grammar::tree::{Expr, Item, Operator, Symbol, quoted, substring, substring_to_end};
use hl_base::OutOfMemory;
use std::alloc::Global;

/// The next point, and by how many terms, operators and parentheses each expression that begins so is larger.
#[derive(Drop)]
pub struct TextMoved {
    pub point: TextPoint,
    pub more: u64,
}

/// A point that is so much larger.
fn moved(point: TextPoint, more: u64) -> Option<TextMoved>
    ensures { result ≡ Some (record { point = point; more = more }) }
{
    Some(TextMoved { point, more })
}

/// Behind a whole part comes a period.
fn after_part(part: Expr, c: char) -> Option<TextMoved>
    ensures { TextMoves (texts.after_part (tree_of part) c) (size (tree_of part)) result }
{
    match c {
        '.' => moved(TextPoint::WantPart(Some(part)), 2),
        _ => None,
    }
}

/// An arithmetic expression begins.
fn arithmetic(alloc: Global, frame: Frame) -> TextPoint
    ensures { text_state result ≡ texts.Within (frame_of frame) (reading.Want []) }
{
    TextPoint::Within(frame, Point::Want, Vec::new(alloc))
}

/// A quoted text begins.
pub fn quotation(alloc: Global, left: Option<Expr>, factor: Option<Expr>) -> TextPoint
    ensures { text_state result ≡ texts.Inside (record { left = left_of left; factor = left_of factor }) NoItems [] }
{
    TextPoint::Inside(
        Opened { left, factor },
        Vec::new(alloc),
        Characters::new(alloc),
    )
}

/// A character where a part is wanted.
pub fn begin_part(alloc: Global, left: Option<Expr>, kind: Kind, c: char) -> Option<TextMoved>
    ensures moves { TextMoves (texts.begin_part (left_of left) kind c) (texts.left_size (left_of left) + 1) result }
    ensures small { IfSome result (λ moved. moved.more ≤ 2) }
{
    match kind {
        Kind::Quote => moved(quotation(alloc, left, None), 0),
        Kind::Open => moved(arithmetic(alloc, Frame::Factor(left)), 2),
        Kind::Letter if c.to_ascii_uppercase() == 'T' => moved(TextPoint::Letter(left), 0),
        _ => None,
    }
}

/// A character behind a duplication factor.
fn begin_quoted(alloc: Global, left: Option<Expr>, factor: Expr, kind: Kind) -> Option<TextMoved>
    ensures { TextMoves (texts.begin_quoted (left_of left) (tree_of factor) kind) (texts.left_size (left_of left) + size (tree_of factor) + 2) result }
{
    match kind {
        Kind::Quote => moved(quotation(alloc, left, Some(factor)), 0),
        _ => None,
    }
}

/// A character within a quoted text.
fn go_inside(
    opened: Opened,
    items: Vec<Item>,
    plain: Characters,
    kind: Kind,
    c: char,
    at: u32,
) -> Result<TextPoint, OutOfMemory>
    ensures { IfOk result (λ point. text_state point
        ≡ texts.go_inside (opened_of opened) (items_in NoItems items.items) plain kind (record { at = at; code = c })) }
{
    match kind {
        Kind::Quote => Ok(TextPoint::Closed(opened, items, plain)),
        Kind::Ampersand => Ok(TextPoint::Lone(opened, items, plain, at)),
        _ => Ok(TextPoint::Inside(opened, items, plain.with(c)?)),
    }
}

/// The first letter of a variable symbol in a quoted text.
fn begin_symbol(
    alloc: Global,
    opened: Opened,
    items: Vec<Item>,
    plain: Characters,
    place: u32,
    c: char,
) -> Result<TextPoint, OutOfMemory>
    requires { characters.kind_of c ≡ Kind.Letter }
    ensures { IfOk result (λ point. text_state point
        ≡ texts.after_lone (opened_of opened) (items_in NoItems items.items) plain place Kind.Letter (record { at = 0; code = c })) }
{
    let before = with_characters(alloc, items, plain)?;
    Ok(TextPoint::Naming(Holder::InText(opened, before), place, Spelled::new(c)))
}

/// A character behind an ampersand.
fn after_lone(
    alloc: Global,
    opened: Opened,
    items: Vec<Item>,
    plain: Characters,
    place: u32,
    kind: Kind,
    c: char,
) -> Result<Option<TextMoved>, OutOfMemory>
    requires { kind ≡ characters.kind_of c }
    ensures { IfOk result (λ found. TextMoves (Some (texts.after_lone (opened_of opened) (items_in NoItems items.items) plain place kind (record { at = 0; code = c })))
        (texts.opened_size (opened_of opened) + size_items (items_in NoItems items.items)) found) }
{
    match kind {
        Kind::Letter => {
            let point = begin_symbol(alloc, opened, items, plain, place, c)?;
            Ok(moved(point, 1))
        }
        Kind::Quote => {
            let longer = plain.with('&')?;
            Ok(moved(TextPoint::Closed(opened, items, longer), 0))
        }
        _ => {
            let longer = plain.with('&')?.with(c)?;
            Ok(moved(TextPoint::Inside(opened, items, longer), 0))
        }
    }
}

/// A character behind a variable symbol in a quoted text: a period there only ends the symbol.
fn after_symbol(
    alloc: Global,
    opened: Opened,
    items: Vec<Item>,
    kind: Kind,
    c: char,
    at: u32,
) -> Result<TextPoint, OutOfMemory>
    ensures { IfOk result (λ point. text_state point
        ≡ texts.after_symbol (opened_of opened) (items_in NoItems items.items) kind (record { at = at; code = c })) }
{
    let plain = Characters::new(alloc);
    match c {
        '.' => Ok(TextPoint::Inside(opened, items, plain)),
        _ => go_inside(opened, items, plain, kind, c, at),
    }
}

/// A character behind the name of a variable symbol.
fn after_name(
    alloc: Global,
    holder: Holder,
    symbol: Symbol,
    kind: Kind,
    c: char,
    at: u32,
) -> Result<Option<TextMoved>, OutOfMemory>
    ensures { IfOk result (λ found. TextMoves (texts.after_name (holder_of holder) symbol kind (record { at = at; code = c })) (texts.holder_size (holder_of holder)) found) }
{
    match holder {
        Holder::InText(opened, items) => {
            let all = with_symbol(items, symbol, Vec::new(alloc))?;
            let point = after_symbol(alloc, opened, all, kind, c, at)?;
            Ok(moved(point, 0))
        }
        Holder::AsType(left) => {
            let part = typed(alloc, left, symbol, Vec::new(alloc))?;
            Ok(after_part(part, c))
        }
    }
}

/// The symbol of this name at a place.
fn symbol(place: u32, name: &Spelled) -> Symbol
    ensures { result ≡ record { name = name.now; at = place } }
{
    Symbol {
        name: name.name(),
        at: place,
    }
}

/// A character in the name of a variable symbol, or behind it.
fn go_naming(
    alloc: Global,
    holder: Holder,
    place: u32,
    name: Spelled,
    kind: Kind,
    c: char,
    at: u32,
) -> Result<Option<TextMoved>, OutOfMemory>
    requires { kind ≡ characters.kind_of c }
    ensures { IfOk result (λ found. TextMoves (texts.go_naming (holder_of holder) place name kind (record { at = at; code = c })) (texts.holder_size (holder_of holder)) found) }
{
    match kind {
        Kind::Letter | Kind::Digit => {
            if name.len() < LONGEST {
                Ok(moved(TextPoint::Naming(holder, place, name.with(c)), 0))
            } else {
                Ok(None)
            }
        }
        Kind::Open => {
            let frame = Frame::Subscripts(holder, symbol(place, &name), Vec::new(alloc));
            Ok(moved(arithmetic(alloc, frame), 2))
        }
        _ => after_name(alloc, holder, symbol(place, &name), kind, c, at),
    }
}

/// A character behind the apostrophe that may end a quoted text.
fn after_closed(
    alloc: Global,
    opened: Opened,
    items: Vec<Item>,
    plain: Characters,
    kind: Kind,
    c: char,
) -> Result<Option<TextMoved>, OutOfMemory>
    ensures { IfOk result (λ found. TextMoves (texts.after_closed (opened_of opened) (items_in NoItems items.items) plain kind c)
        (texts.opened_size (opened_of opened) + size_items (items_in NoItems items.items)) found) }
{
    match kind {
        Kind::Quote => {
            let longer = plain.with(c)?;
            Ok(moved(TextPoint::Inside(opened, items, longer), 0))
        }
        Kind::Open => {
            let all = with_characters(alloc, items, plain)?;
            Ok(moved(arithmetic(alloc, Frame::Start(opened, all)), 2))
        }
        _ => {
            let whole = quotation_built(alloc, opened, items, plain)?;
            Ok(after_part(whole, c))
        }
    }
}

/// A quoted text behind all that stands before it.
fn quotation_built(
    alloc: Global,
    opened: Opened,
    items: Vec<Item>,
    plain: Characters,
) -> Result<Expr, OutOfMemory>
    ensures { IfOk result (λ e. tree_of e ≡ texts.built (opened_of opened) (Quoted (texts.with_plain (items_in NoItems items.items) plain))) }
{
    let all = with_characters(alloc, items, plain)?;
    built(alloc, opened, quoted(all))
}

/// The closing parenthesis of subscripts.
fn subscripted(
    alloc: Global,
    holder: Holder,
    symbol: Symbol,
    subscripts: Vec<Expr>,
) -> Result<TextPoint, OutOfMemory>
    ensures { IfOk result (λ point. text_state point ≡ texts.subscripted (holder_of holder) symbol (trees_in NoTrees subscripts.items)) }
{
    match holder {
        Holder::InText(opened, items) => Ok(TextPoint::Behind(
            opened,
            with_symbol(items, symbol, subscripts)?,
        )),
        Holder::AsType(left) => Ok(TextPoint::Done(typed(alloc, left, symbol, subscripts)?)),
    }
}

/// A parenthesis or a comma behind subscripts.
#[tactic(auto, using(expression_grammar::proofs::StackLaws::trees_in_push))]
fn leave_subscripts(
    alloc: Global,
    holder: Holder,
    symbol: Symbol,
    others: Vec<Expr>,
    last: Expr,
    kind: Kind,
) -> Result<Option<TextMoved>, OutOfMemory>
    ensures { IfOk result (λ found. TextMoves (texts.leave (texts.Subscripts (holder_of holder) symbol (trees_in NoTrees others.items)) (tree_of last) kind)
        (texts.frame_size (texts.Subscripts (holder_of holder) symbol (trees_in NoTrees others.items)) + size (tree_of last)) found) }
{
    let mut subscripts = others;
    subscripts.push(last)?;
    match kind {
        Kind::Close => {
            let point = subscripted(alloc, holder, symbol, subscripts)?;
            Ok(moved(point, 0))
        }
        Kind::Comma => {
            let frame = Frame::Subscripts(holder, symbol, subscripts);
            Ok(moved(arithmetic(alloc, frame), 1))
        }
        _ => Ok(None),
    }
}

/// The closing parenthesis behind the count of a substring.
fn leave_count(
    alloc: Global,
    opened: Opened,
    items: Vec<Item>,
    start: Expr,
    count: Expr,
    kind: Kind,
) -> Result<Option<TextMoved>, OutOfMemory>
    ensures { IfOk result (λ found. TextMoves (texts.leave (texts.Count (opened_of opened) (items_in NoItems items.items) (tree_of start)) (tree_of count) kind)
        (texts.frame_size (texts.Count (opened_of opened) (items_in NoItems items.items) (tree_of start)) + size (tree_of count)) found) }
{
    match kind {
        Kind::Close => {
            let part = substring(alloc, quoted(items), start, count)?;
            let whole = built(alloc, opened, part)?;
            Ok(moved(TextPoint::Done(whole), 0))
        }
        _ => Ok(None),
    }
}

/// A character behind an arithmetic expression.
fn leave(
    alloc: Global,
    frame: Frame,
    tree: Expr,
    kind: Kind,
) -> Result<Option<TextMoved>, OutOfMemory>
    ensures { IfOk result (λ found. TextMoves (texts.leave (frame_of frame) (tree_of tree) kind) (texts.frame_size (frame_of frame) + size (tree_of tree)) found) }
{
    match frame {
        Frame::Factor(left) => match kind {
            Kind::Close => Ok(moved(TextPoint::WantQuote(left, tree), 0)),
            _ => Ok(None),
        },
        Frame::Start(opened, items) => match kind {
            Kind::Comma => Ok(moved(TextPoint::WantCount(opened, items, tree), 0)),
            _ => Ok(None),
        },
        Frame::Subscripts(holder, symbol, others) => {
            leave_subscripts(alloc, holder, symbol, others, tree, kind)
        }
        Frame::Count(opened, items, start) => {
            leave_count(alloc, opened, items, start, tree, kind)
        }
    }
}

/// Where an arithmetic expression stands within a text, if it goes on.
fn within(frame: Frame, stack: Vec<Pending>, next: Option<Moved>) -> Option<TextMoved>
    ensures { result ≡ option_map (λ next. record { point = points.Within frame next.point stack; more = next.more }) next }
{
    match next {
        Some(next) => moved(
            TextPoint::Within(frame, next.point, stack),
            u64::from(next.more),
        ),
        None => None,
    }
}

/// One character more of an arithmetic expression.
fn step_within(
    alloc: Global,
    frame: Frame,
    inner: Point,
    stack: Vec<Pending>,
    c: char,
    at: u32,
) -> Result<Option<TextMoved>, OutOfMemory>
    ensures moves { IfOk result (λ found. TextMoves (option_map (texts.Within (frame_of frame))
        (reading.step Grammar.Arithmetic (stand inner (stack_of stack.items [])) (record { at = at; code = c })))
        (texts.frame_size (frame_of frame) + reading.weight (stand inner (stack_of stack.items []))) found) }
    ensures small { IfOk result (λ found. IfSome found (λ moved. moved.more < 2 ^ 32)) }
{
    let mut above = stack;
    let next = step(alloc, Grammar::Arithmetic, inner, c, at, &mut above)?;
    Ok(within(frame, above, next))
}

/// An arithmetic expression that may end here, or where it stands.
#[derive(Drop)]
pub enum Settled {
    Tree(Expr),
    Open(Point),
}

/// Whether an arithmetic expression may end here.
#[tactic(auto, unfolding(expression_grammar::specs::Parts::finish))]
pub fn settle(alloc: Global, inner: Point) -> Settled
    ensures { Settles inner result }
{
    match inner {
        Point::Have(tree) => Settled::Tree(tree),
        Point::Want => Settled::Open(Point::Want),
        Point::Within(part) => {
            if part.is_whole(Grammar::Arithmetic) {
                settle_part(alloc, part)
            } else {
                Settled::Open(Point::Within(part))
            }
        }
    }
}

/// A term that may end here.
fn settle_part(alloc: Global, part: Part) -> Settled
    requires { IsTrue (is_some (parts.finish Grammar.Arithmetic part)) }
    ensures { Settles (Point.Within part) result }
{
    match part.finish(alloc, Grammar::Arithmetic) {
        Some(tree) => Settled::Tree(tree),
        None => unreachable!(),
    }
}

/// Whether this may stand directly behind an arithmetic expression.
fn is_end(kind: Kind) -> bool
    ensures { result ≡ texts.is_end kind }
{
    matches!(kind, Kind::Close | Kind::Comma)
}

/// A parenthesis or a comma behind a tree of an arithmetic expression.
fn end_tree(
    alloc: Global,
    frame: Frame,
    tree: Expr,
    stack: Vec<Pending>,
    kind: Kind,
    c: char,
    at: u32,
) -> Result<Option<TextMoved>, OutOfMemory>
    requires kind { kind ≡ characters.kind_of c }
    requires ends { texts.is_end kind ≡ true }
    ensures { IfOk result (λ found. TextMoves (texts.go_within (frame_of frame)
        (reading.step Grammar.Arithmetic (reading.Have (tree_of tree) (stack_of stack.items [])) (record { at = at; code = c }))
        (reading.accept Grammar.Arithmetic (reading.Have (tree_of tree) (stack_of stack.items []))) kind)
        (texts.frame_size (frame_of frame) + reading.weight (reading.Have (tree_of tree) (stack_of stack.items []))) found) }
{
    let mut below = stack;
    let inner = fold(alloc, 0, tree, &mut below)?;
    if below.is_empty() {
        let left = leave(alloc, frame, inner, kind)?;
        return Ok(left);
    }
    let found = step_within(alloc, frame, Point::Have(inner), below, c, at)?;
    Ok(found)
}

/// A character within an arithmetic expression, or behind it.
fn go_within(
    alloc: Global,
    frame: Frame,
    inner: Point,
    stack: Vec<Pending>,
    kind: Kind,
    c: char,
    at: u32,
) -> Result<Option<TextMoved>, OutOfMemory>
    requires { kind ≡ characters.kind_of c }
    ensures { IfOk result (λ found. TextMoves (texts.go_within (frame_of frame)
        (reading.step Grammar.Arithmetic (stand inner (stack_of stack.items [])) (record { at = at; code = c }))
        (reading.accept Grammar.Arithmetic (stand inner (stack_of stack.items []))) kind)
        (texts.frame_size (frame_of frame) + reading.weight (stand inner (stack_of stack.items []))) found) }
{
    if !is_end(kind) {
        let found = step_within(alloc, frame, inner, stack, c, at)?;
        return Ok(found);
    }
    match settle(alloc, inner) {
        Settled::Tree(tree) => {
            let left = end_tree(alloc, frame, tree, stack, kind, c, at)?;
            Ok(left)
        }
        Settled::Open(point) => {
            let within = step_within(alloc, frame, point, stack, c, at)?;
            Ok(within)
        }
    }
}

/// Whether this is the `*` of a substring.
fn is_star(kind: Kind) -> bool
    ensures { result ≡ texts.is_star kind }
{
    matches!(kind, Kind::Mark(Operator::Multiply))
}

/// A character where the count of a substring is wanted, or a `*`.
fn begin_count(
    alloc: Global,
    opened: Opened,
    items: Vec<Item>,
    start: Expr,
    kind: Kind,
    c: char,
    at: u32,
) -> Result<Option<TextMoved>, OutOfMemory>
    ensures { IfOk result (λ found. TextMoves (texts.begin_count (opened_of opened) (items_in NoItems items.items) (tree_of start)
        (reading.step Grammar.Arithmetic (reading.Want []) (record { at = at; code = c })) kind)
        (texts.opened_size (opened_of opened) + size_items (items_in NoItems items.items) + 1 + size (tree_of start)) found) }
{
    if is_star(kind) {
        return Ok(moved(TextPoint::Star(opened, items, start), 0));
    }
    match kind {
        Kind::Blank => Ok(moved(TextPoint::WantCount(opened, items, start), 0)),
        _ => {
            let frame = Frame::Count(opened, items, start);
            match step_within(alloc, frame, Point::Want, Vec::new(alloc), c, at)? {
                Some(next) => Ok(moved(next.point, next.more + 1)),
                None => Ok(None),
            }
        }
    }
}

/// A character behind the `*` of a substring.
fn after_star(
    alloc: Global,
    opened: Opened,
    items: Vec<Item>,
    start: Expr,
    kind: Kind,
) -> Result<Option<TextMoved>, OutOfMemory>
    ensures { IfOk result (λ found. TextMoves (texts.after_star (opened_of opened) (items_in NoItems items.items) (tree_of start) kind)
        (texts.opened_size (opened_of opened) + size_items (items_in NoItems items.items) + 1 + size (tree_of start)) found) }
{
    match kind {
        Kind::Blank => Ok(moved(TextPoint::Star(opened, items, start), 0)),
        Kind::Close => {
            let part = substring_to_end(alloc, quoted(items), start)?;
            let whole = built(alloc, opened, part)?;
            Ok(moved(TextPoint::Done(whole), 0))
        }
        _ => Ok(None),
    }
}

/// A character behind a `T`.
fn after_letter(left: Option<Expr>, kind: Kind) -> Option<TextMoved>
    ensures { TextMoves (texts.after_letter (left_of left) kind) (texts.left_size (left_of left) + 1) result }
{
    match kind {
        Kind::Quote => moved(TextPoint::Asked(left), 0),
        _ => None,
    }
}

/// A character behind a `T'`.
fn after_asked(left: Option<Expr>, kind: Kind, c: char, at: u32) -> Option<TextMoved>
    requires { kind ≡ characters.kind_of c }
    ensures { TextMoves (texts.after_asked (left_of left) kind (record { at = at; code = c })) (texts.left_size (left_of left) + 1) result }
{
    match kind {
        Kind::Ampersand => moved(TextPoint::Sigil(left, at), 0),
        Kind::Letter => moved(TextPoint::Word(left, at, Spelled::new(c)), 0),
        _ => None,
    }
}

/// A character behind the `&` whose type is asked for.
fn after_sigil(left: Option<Expr>, place: u32, kind: Kind, c: char) -> Option<TextMoved>
    requires { kind ≡ characters.kind_of c }
    ensures { TextMoves (texts.after_sigil (left_of left) place kind c) (texts.left_size (left_of left) + 1) result }
{
    match kind {
        Kind::Letter => moved(
            TextPoint::Naming(Holder::AsType(left), place, Spelled::new(c)),
            0,
        ),
        _ => None,
    }
}

/// A character in the ordinary symbol whose type is asked for, or behind it.
fn go_word(
    alloc: Global,
    left: Option<Expr>,
    place: u32,
    name: Spelled,
    kind: Kind,
    c: char,
) -> Result<Option<TextMoved>, OutOfMemory>
    requires { kind ≡ characters.kind_of c }
    ensures { IfOk result (λ found. TextMoves (texts.go_word (left_of left) place name kind c) (texts.left_size (left_of left) + 1) found) }
{
    match kind {
        Kind::Letter | Kind::Digit => {
            if name.len() < LONGEST {
                Ok(moved(TextPoint::Word(left, place, name.with(c)), 0))
            } else {
                Ok(None)
            }
        }
        _ => {
            let part = typed_name(alloc, left, place, &name)?;
            Ok(after_part(part, c))
        }
    }
}

/// One character more.
#[tactic(auto, unfolding(crate::specs::TextReading::text_step))]
pub fn text_step(
    alloc: Global,
    point: TextPoint,
    c: char,
    at: u32,
) -> Result<Option<TextMoved>, OutOfMemory>
    ensures { IfOk result (λ found. TextMoves (texts.text_step (text_state point) (record { at = at; code = c })) (texts.text_weight (text_state point)) found) }
{
    let kind = kind_of(c);
    match point {
        TextPoint::WantPart(left) => Ok(begin_part(alloc, left, kind, c)),
        TextPoint::WantQuote(left, factor) => Ok(begin_quoted(alloc, left, factor, kind)),
        TextPoint::Inside(opened, items, plain) => {
            let next = go_inside(opened, items, plain, kind, c, at)?;
            Ok(moved(next, 0))
        }
        TextPoint::Lone(opened, items, plain, place) => {
            after_lone(alloc, opened, items, plain, place, kind, c)
        }
        TextPoint::Naming(holder, place, name) => {
            go_naming(alloc, holder, place, name, kind, c, at)
        }
        TextPoint::Behind(opened, items) => {
            let next = after_symbol(alloc, opened, items, kind, c, at)?;
            Ok(moved(next, 0))
        }
        TextPoint::Closed(opened, items, plain) => {
            after_closed(alloc, opened, items, plain, kind, c)
        }
        TextPoint::Within(frame, inner, stack) => {
            go_within(alloc, frame, inner, stack, kind, c, at)
        }
        TextPoint::WantCount(opened, items, start) => {
            begin_count(alloc, opened, items, start, kind, c, at)
        }
        TextPoint::Star(opened, items, start) => after_star(alloc, opened, items, start, kind),
        TextPoint::Letter(left) => Ok(after_letter(left, kind)),
        TextPoint::Asked(left) => Ok(after_asked(left, kind, c, at)),
        TextPoint::Sigil(left, place) => Ok(after_sigil(left, place, kind, c)),
        TextPoint::Word(left, place, name) => go_word(alloc, left, place, name, kind, c),
        TextPoint::Done(part) => Ok(after_part(part, c)),
    }
}

/// The tree of a text that ends behind the name of a variable symbol.
#[tactic(auto, unfolding(crate::specs::TextReading::text_accept))]
fn finish_name(
    alloc: Global,
    holder: Holder,
    place: u32,
    name: Spelled,
) -> Result<Option<Expr>, OutOfMemory>
    ensures { IfOk result (λ found. option_map tree_of found ≡ texts.text_accept (texts.Naming (holder_of holder) place name)) }
{
    match holder {
        Holder::InText(..) => Ok(None),
        Holder::AsType(left) => {
            let part = typed(alloc, left, symbol(place, &name), Vec::new(alloc))?;
            Ok(Some(part))
        }
    }
}

/// The tree of a text that ends behind a closing apostrophe.
#[tactic(auto, unfolding(crate::specs::TextReading::text_accept))]
fn finish_quotation(
    alloc: Global,
    opened: Opened,
    items: Vec<Item>,
    plain: Characters,
) -> Result<Option<Expr>, OutOfMemory>
    ensures { IfOk result (λ found. option_map tree_of found
        ≡ texts.text_accept (texts.Closed (opened_of opened) (items_in NoItems items.items) plain)) }
{
    let whole = quotation_built(alloc, opened, items, plain)?;
    Ok(Some(whole))
}

/// The tree of a text that ends behind an ordinary symbol whose type is asked for.
#[tactic(auto, unfolding(crate::specs::TextReading::text_accept))]
fn finish_word(
    alloc: Global,
    left: Option<Expr>,
    place: u32,
    name: Spelled,
) -> Result<Option<Expr>, OutOfMemory>
    ensures { IfOk result (λ found. option_map tree_of found ≡ texts.text_accept (texts.Word (left_of left) place name)) }
{
    let part = typed_name(alloc, left, place, &name)?;
    Ok(Some(part))
}

/// The tree of a text that ends here.
#[tactic(auto, unfolding(crate::specs::TextReading::text_accept))]
pub fn text_finish(alloc: Global, point: TextPoint) -> Result<Option<Expr>, OutOfMemory>
    ensures { IfOk result (λ found. option_map tree_of found ≡ texts.text_accept (text_state point)) }
{
    match point {
        TextPoint::Naming(holder, place, name) => finish_name(alloc, holder, place, name),
        TextPoint::Closed(opened, items, plain) => finish_quotation(alloc, opened, items, plain),
        TextPoint::Word(left, place, name) => finish_word(alloc, left, place, name),
        TextPoint::Done(tree) => Ok(Some(tree)),
        point => {
            drop(point);
            Ok(None)
        }
    }
}

/// Whether a text that ends here is a character expression.
#[tactic(auto, unfolding(crate::specs::TextReading::text_accept))]
pub fn text_is_whole(point: &TextPoint) -> bool
    ensures { result ≡ is_some (texts.text_accept (text_state point.now)) }
{
    match point {
        TextPoint::Naming(Holder::AsType(_), _, _)
        | TextPoint::Closed(_, _, _)
        | TextPoint::Word(_, _, _)
        | TextPoint::Done(_) => true,
        _ => false,
    }
}
