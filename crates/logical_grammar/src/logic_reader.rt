//! One character more of a logical expression.
//!
//! A stack holds what is open, and a point stands above it, which reads numbers by the automaton of arithmetic and texts by
//! that of character expressions. No call recurses on the text.
ghost use Rattle.std.specs.Prelude.{◌≡◌, ℕ, ◌+◌, ◌<◌, ◌^◌, List, [], ◌∷◌, ◌&&◌, ◌==◌, true, false, IfOk, IfSome, None, Some, is_some, option_and_then, option_map, if◌then◌else◌};
ghost use Rattle.std.specs.Char.{to_ascii_uppercase};
ghost use Rattle.expression_grammar.specs.Characters as characters;
ghost use Rattle.expression_grammar.specs.Reading as reading;
ghost use Rattle.expression_grammar.specs.Stacks.{stack_of, stand};
ghost use Rattle.expression_grammar.specs.Trees.{Paren, size};
ghost use Rattle.expression_grammar.specs.Views.{tree_of};
ghost use Rattle.logical_grammar.specs.LogicReading as logic;
ghost use Rattle.logical_grammar.specs.LogicViews.{LogicMoves, all_close, closes_number, ends_number, letter_of, letters_of, may_end_text, open_of, operand_of, part_takes_letter, point_of, relation_of, text_takes_letter};
ghost use Rattle.character_grammar.specs.TextReading as texts;
ghost use Rattle.character_grammar.specs.TextViews.{text_state};

use crate::logic_behind::{behind, logic_fold};
use crate::logic_point::{
    Initial, LogicMoved, LogicPoint, OpenRelation, Opening, Operand, Remainder, logic_moved,
    number_side, text_side, truth_of,
};
use character_grammar::text_point::{Holder, TextPoint};
use character_grammar::text_reader::{
    Settled, begin_part, quotation, settle, text_finish, text_is_whole, text_step,
};
use expression_grammar::character::{Grammar, Kind, kind_of};
use expression_grammar::part::Part;
use expression_grammar::pending::{Pending, Point, fold};
use expression_grammar::reader::{finish, is_whole as is_whole_number, step};
use expression_grammar::spelled::LONGEST;
use expression_grammar::tree::{Comparison, Expr, paren};
use hl_base::{OutOfMemory, is_symbol_character};
use std::alloc::Global;

/// One character more of a number, which it belongs to.
fn step_number(
    alloc: Global,
    relation: Option<OpenRelation>,
    inner: Point,
    stack: Vec<Pending>,
    c: char,
    at: u32,
) -> Result<Option<LogicMoved>, OutOfMemory>
    ensures moves { IfOk result (λ found. (layers : List logic.Open) → LogicMoves
        (logic.on_number (option_map relation_of relation) (reading.step Grammar.Arithmetic (stand inner (stack_of stack.items [])) (record { at = at; code = c })) None false
        (record { at = at; code = c }) layers)
        (logic.open_size layers + (logic.relation_size (option_map relation_of relation) + reading.weight (stand inner (stack_of stack.items [])))) found layers) }
    ensures small { IfOk result (λ found. IfSome found (λ moved. moved.more < 2 ^ 32)) }
{
    let mut above = stack;
    match step(alloc, Grammar::Arithmetic, inner, c, at, &mut above)? {
        Some(next) => {
            let point = LogicPoint::Number(relation, next.point, above, is_symbol_character(c));
            Ok(logic_moved(point, u64::from(next.more)))
        }
        None => Ok(None),
    }
}

/// Whether a term takes a letter more.
fn part_takes_letter(part: &Part) -> bool
    ensures { result ≡ part_takes_letter part.now }
{
    match part {
        Part::Property(_, _, name) => name.len() < LONGEST,
        Part::Named(_, _, name) => name.len() < LONGEST,
        _ => false,
    }
}

/// Whether a character may stand behind a number, and not belong to it, where the number may end.
fn ends_number(inner: &Point, kind: Kind) -> bool
    ensures { result ≡ ends_number inner.now kind }
{
    match kind {
        Kind::Close => true,
        Kind::Letter => match inner {
            Point::Within(part) => !part_takes_letter(part),
            _ => true,
        },
        _ => false,
    }
}

/// A character behind a number that may end here, or a parenthesis within it.
fn end_number(
    alloc: Global,
    relation: Option<OpenRelation>,
    tree: Expr,
    stack: Vec<Pending>,
    touch: bool,
    c: char,
    at: u32,
    layers: &mut Vec<Opening>,
) -> Result<Option<LogicMoved>, OutOfMemory>
    requires { closes_number (characters.kind_of c) ≡ true }
    ensures { IfOk result (λ found. LogicMoves (logic.point_step (logic.Number (option_map relation_of relation) (reading.Have (tree_of tree) (stack_of stack.items [])) touch) (record { at = at; code = c }) (open_of layers.old.items []))
        (logic.open_size (open_of layers.old.items []) + logic.point_weight (logic.Number (option_map relation_of relation) (reading.Have (tree_of tree) (stack_of stack.items [])) touch)) found (open_of layers.new.items [])) }
{
    let mut below = stack;
    let inner = fold(alloc, 0, tree, &mut below)?;
    if below.is_empty() {
        let operand = number_side(alloc, relation, inner)?;
        let moved = behind(alloc, operand, touch, kind_of(c), c, layers)?;
        return Ok(moved);
    }
    let found = step_number(alloc, relation, Point::Have(inner), below, c, at)?;
    Ok(found)
}

/// A character within a number, or behind it.
fn go_number(
    alloc: Global,
    relation: Option<OpenRelation>,
    inner: Point,
    stack: Vec<Pending>,
    touch: bool,
    c: char,
    at: u32,
    layers: &mut Vec<Opening>,
) -> Result<Option<LogicMoved>, OutOfMemory>
    ensures { IfOk result (λ found. LogicMoves (logic.point_step (logic.Number (option_map relation_of relation) (stand inner (stack_of stack.items [])) touch) (record { at = at; code = c }) (open_of layers.old.items []))
        (logic.open_size (open_of layers.old.items []) + logic.point_weight (logic.Number (option_map relation_of relation) (stand inner (stack_of stack.items [])) touch)) found (open_of layers.new.items [])) }
{
    if !ends_number(&inner, kind_of(c)) {
        let found = step_number(alloc, relation, inner, stack, c, at)?;
        return Ok(found);
    }
    match settle(alloc, inner) {
        Settled::Tree(tree) => {
            let moved = end_number(alloc, relation, tree, stack, touch, c, at, layers)?;
            Ok(moved)
        }
        Settled::Open(point) => {
            let within = step_number(alloc, relation, point, stack, c, at)?;
            Ok(within)
        }
    }
}

/// One character more of a text, which it belongs to.
fn step_text(
    alloc: Global,
    relation: Option<OpenRelation>,
    inner: TextPoint,
    c: char,
    at: u32,
) -> Result<Option<LogicMoved>, OutOfMemory>
    ensures { IfOk result (λ found. (layers : List logic.Open) → LogicMoves (logic.on_text (option_map relation_of relation) (texts.text_step (text_state inner) (record { at = at; code = c })) None false (record { at = at; code = c }) layers)
        (logic.open_size layers + (logic.text_relation_size (option_map relation_of relation) + texts.text_weight (text_state inner))) found layers) }
{
    match text_step(alloc, inner, c, at)? {
        Some(next) => {
            let point = LogicPoint::Text(relation, next.point, is_symbol_character(c));
            Ok(logic_moved(point, next.more))
        }
        None => Ok(None),
    }
}

/// Whether a symbol takes a letter more where a text stands.
fn text_takes_letter(inner: &TextPoint) -> bool
    ensures { result ≡ text_takes_letter inner.now }
{
    match inner {
        TextPoint::Naming(_, _, name) => name.len() < LONGEST,
        TextPoint::Word(_, _, name) => name.len() < LONGEST,
        _ => false,
    }
}

/// Whether a text may end here.
#[tactic(auto, unfolding(character_grammar::specs::TextReading::text_accept))]
fn is_whole(inner: &TextPoint) -> bool
    ensures { result ≡ is_some (texts.text_accept (text_state inner.now)) }
{
    match inner {
        TextPoint::Naming(holder, _, _) => matches!(holder, Holder::AsType(_)),
        TextPoint::Closed(..) | TextPoint::Word(..) | TextPoint::Done(_) => true,
        _ => false,
    }
}

/// Whether a character may stand behind a text, and not belong to it, where the text may end.
fn may_end_text(inner: &TextPoint, kind: Kind) -> bool
    ensures { result ≡ may_end_text inner.now kind }
{
    match kind {
        Kind::Blank | Kind::Close => true,
        Kind::Letter => !text_takes_letter(inner),
        _ => false,
    }
}

/// Whether a character stands behind a text that may end here, and does not belong to it.
fn ends_text(inner: &TextPoint, kind: Kind) -> bool
    ensures { result ≡ (is_some (texts.text_accept (text_state inner.now)) && may_end_text inner.now kind) }
{
    is_whole(inner) && may_end_text(inner, kind)
}

/// A character behind a text.
fn end_text(
    alloc: Global,
    relation: Option<OpenRelation>,
    tree: Expr,
    touch: bool,
    c: char,
    layers: &mut Vec<Opening>,
) -> Result<Option<LogicMoved>, OutOfMemory>
    ensures { IfOk result (λ found. LogicMoves (logic.behind_one (logic.text_side (option_map relation_of relation) (tree_of tree)) touch (characters.kind_of c) c (open_of layers.old.items []))
        (logic.open_size (open_of layers.old.items []) + (logic.text_relation_size (option_map relation_of relation) + size (tree_of tree))) found (open_of layers.new.items [])) }
{
    let operand = text_side(alloc, relation, tree)?;
    let moved = behind(alloc, operand, touch, kind_of(c), c, layers)?;
    Ok(moved)
}

/// A character within a text, or behind it.
fn go_text(
    alloc: Global,
    relation: Option<OpenRelation>,
    inner: TextPoint,
    touch: bool,
    c: char,
    at: u32,
    layers: &mut Vec<Opening>,
) -> Result<Option<LogicMoved>, OutOfMemory>
    ensures { IfOk result (λ found. LogicMoves (logic.point_step (logic.Text (option_map relation_of relation) (text_state inner) touch) (record { at = at; code = c }) (open_of layers.old.items []))
        (logic.open_size (open_of layers.old.items []) + logic.point_weight (logic.Text (option_map relation_of relation) (text_state inner) touch)) found (open_of layers.new.items [])) }
{
    if !ends_text(&inner, kind_of(c)) {
        let found = step_text(alloc, relation, inner, c, at)?;
        return Ok(found);
    }
    let ended = text_finish(alloc, inner)?;
    match ended {
        Some(tree) => {
            let moved = end_text(alloc, relation, tree, touch, c, layers)?;
            Ok(moved)
        }
        None => Ok(None),
    }
}

/// A number where an operand is wanted.
fn begin_number(
    alloc: Global,
    relation: Option<OpenRelation>,
    c: char,
    at: u32,
) -> Result<Option<LogicMoved>, OutOfMemory>
    ensures { IfOk result (λ found. (layers : List logic.Open) → LogicMoves (logic.number_begun (option_map relation_of relation) (record { at = at; code = c }) layers)
        (logic.open_size layers + (logic.relation_size (option_map relation_of relation) + 1)) found layers) }
{
    step_number(alloc, relation, Point::Want, Vec::new(alloc), c, at)
}

/// A text where a truth is wanted: a comparison and a text have to come.
#[tactic(auto, unfolding(character_grammar::specs::TextReading::text_step))]
fn begin_text(alloc: Global, kind: Kind, c: char) -> Option<LogicMoved>
    requires { kind ≡ characters.kind_of c }
    ensures { (at : ℕ) (layers : List logic.Open) → LogicMoves (logic.text_begun None (record { at = at; code = c }) layers) (logic.open_size layers + 1) result layers }
{
    let next = begin_part(alloc, None, kind, c)?;
    let point = LogicPoint::Text(None, next.point, is_symbol_character(c));
    logic_moved(point, next.more + 2)
}

/// A letter where a truth is wanted.
fn begin_letter(
    alloc: Global,
    kind: Kind,
    c: char,
    at: u32,
) -> Result<Option<LogicMoved>, OutOfMemory>
    requires { kind ≡ characters.kind_of c }
    ensures { IfOk result (λ found. (layers : List logic.Open) → LogicMoves (logic.letter_begun (to_ascii_uppercase c) (record { at = at; code = c }) layers) (logic.open_size layers + 1) found layers) }
{
    match c.to_ascii_uppercase() {
        'N' => Ok(logic_moved(LogicPoint::NotOrAttribute(c, at), 0)),
        'T' => Ok(begin_text(alloc, kind, c)),
        _ => begin_number(alloc, None, c, at),
    }
}

/// A character where a truth is wanted, which does not touch a word.
#[tactic(auto, using(crate::proofs::LogicStackLaws::open_of_push))]
fn begin_apart(
    alloc: Global,
    kind: Kind,
    c: char,
    at: u32,
    layers: &mut Vec<Opening>,
) -> Result<Option<LogicMoved>, OutOfMemory>
    requires { kind ≡ characters.kind_of c }
    ensures { IfOk result (λ found. LogicMoves (logic.truth_apart kind (record { at = at; code = c }) (open_of layers.old.items [])) (logic.open_size (open_of layers.old.items []) + 1) found (open_of layers.new.items [])) }
{
    match kind {
        Kind::Blank => Ok(logic_moved(LogicPoint::Want(false), 0)),
        Kind::Open => {
            layers.push(Opening::Group)?;
            Ok(logic_moved(LogicPoint::Want(false), 1))
        }
        Kind::Quote => Ok(begin_text(alloc, kind, c)),
        Kind::Letter => {
            let moved = begin_letter(alloc, kind, c, at)?;
            Ok(moved)
        }
        _ => {
            let moved = begin_number(alloc, None, c, at)?;
            Ok(moved)
        }
    }
}

/// A character where a truth is wanted.
fn begin_truth(
    alloc: Global,
    touch: bool,
    c: char,
    at: u32,
    layers: &mut Vec<Opening>,
) -> Result<Option<LogicMoved>, OutOfMemory>
    ensures { IfOk result (λ found. LogicMoves (logic.truth_begun touch (record { at = at; code = c }) (open_of layers.old.items [])) (logic.open_size (open_of layers.old.items []) + 1) found (open_of layers.new.items [])) }
{
    if touch && is_symbol_character(c) {
        return Ok(None);
    }
    begin_apart(alloc, kind_of(c), c, at, layers)
}

/// A character where the right side of a comparison is wanted.
fn begin_right(
    alloc: Global,
    is_text: bool,
    relation: OpenRelation,
    touch: bool,
    c: char,
    at: u32,
) -> Result<Option<LogicMoved>, OutOfMemory>
    ensures { IfOk result (λ found. (layers : List logic.Open) → LogicMoves (logic.right_begun is_text (relation_of relation) touch (record { at = at; code = c }) layers)
        (logic.open_size layers + (size (tree_of relation.left) + 2)) found layers) }
{
    if touch && is_symbol_character(c) {
        return Ok(None);
    }
    match kind_of(c) {
        Kind::Blank => Ok(logic_moved(LogicPoint::Right(is_text, relation, false), 0)),
        _ => begin_side(alloc, is_text, relation, c, at),
    }
}

/// The right side of a comparison.
fn begin_side(
    alloc: Global,
    is_text: bool,
    relation: OpenRelation,
    c: char,
    at: u32,
) -> Result<Option<LogicMoved>, OutOfMemory>
    ensures { IfOk result (λ found. (layers : List logic.Open) → LogicMoves (if is_text then logic.text_begun (Some (relation_of relation)) (record { at = at; code = c }) layers else logic.number_begun (Some (relation_of relation)) (record { at = at; code = c }) layers)
        (logic.open_size layers + (size (tree_of relation.left) + 2)) found layers) }
{
    if is_text {
        let text = step_text(alloc, Some(relation), TextPoint::WantPart(None), c, at)?;
        return Ok(text);
    }
    let number = begin_number(alloc, Some(relation), c, at)?;
    Ok(number)
}

/// The apostrophe behind an N: an attribute.
fn begin_attribute(
    alloc: Global,
    first: char,
    place: u32,
    c: char,
    at: u32,
) -> Result<Option<LogicMoved>, OutOfMemory>
    ensures { IfOk result (λ found. (layers : List logic.Open) → LogicMoves (logic.after_first (record { at = place; code = first }) Kind.Quote (record { at = at; code = c }) layers)
        (logic.open_size layers + 1) found layers) }
{
    let mut stack = Vec::new(alloc);
    let letter = match step(
        alloc,
        Grammar::Arithmetic,
        Point::Want,
        first,
        place,
        &mut stack,
    )? {
        Some(letter) => letter,
        None => return Ok(None),
    };
    match step_number(alloc, None, letter.point, stack, c, at)? {
        Some(next) => Ok(logic_moved(next.point, u64::from(letter.more) + next.more)),
        None => Ok(None),
    }
}

/// A letter behind an N where a truth was wanted, upper-cased.
#[tactic(auto, using(crate::proofs::LogicStackLaws::open_of_push))]
fn begin_negation(
    letter: char,
    layers: &mut Vec<Opening>,
) -> Result<Option<LogicMoved>, OutOfMemory>
    ensures { IfOk result (λ found. LogicMoves
        (if letter == 79 then Some (logic.at_point (logic.Negation ∷ open_of layers.old.items []) (logic.Letters (84 ∷ []))) else None)
        (logic.open_size (open_of layers.old.items []) + 1) found (open_of layers.new.items [])) }
{
    match letter {
        'O' => {
            layers.push(Opening::Negation)?;
            Ok(logic_moved(LogicPoint::Letters(Remainder::T), 1))
        }
        _ => Ok(None),
    }
}

/// A character behind an N where a truth was wanted.
fn after_first(
    alloc: Global,
    first: char,
    place: u32,
    kind: Kind,
    c: char,
    at: u32,
    layers: &mut Vec<Opening>,
) -> Result<Option<LogicMoved>, OutOfMemory>
    ensures { IfOk result (λ found. LogicMoves (logic.after_first (record { at = place; code = first }) kind (record { at = at; code = c }) (open_of layers.old.items [])) (logic.open_size (open_of layers.old.items []) + 1) found (open_of layers.new.items [])) }
{
    match kind {
        Kind::Quote => {
            let moved = begin_attribute(alloc, first, place, c, at)?;
            Ok(moved)
        }
        Kind::Letter => begin_negation(c.to_ascii_uppercase(), layers),
        _ => Ok(None),
    }
}

/// A letter within an operator word, upper-cased.
fn after_letters(rest: Remainder, letter: char) -> Option<LogicMoved>
    ensures { (layers : List logic.Open) → LogicMoves (logic.after_letters (letters_of rest) letter layers) (logic.open_size layers + 1) result layers }
{
    match (rest, letter) {
        (Remainder::Nd, 'N') => logic_moved(LogicPoint::Letters(Remainder::D), 0),
        (Remainder::Or, 'O') => logic_moved(LogicPoint::Letters(Remainder::R), 0),
        (Remainder::D, 'D') => logic_moved(LogicPoint::Want(true), 0),
        (Remainder::R, 'R') => logic_moved(LogicPoint::Want(true), 0),
        (Remainder::T, 'T') => logic_moved(LogicPoint::Want(true), 0),
        _ => None,
    }
}

/// The comparison of two letters, upper-cased.
fn comparison_of(first: Initial, second: char) -> Option<Comparison>
    ensures { result ≡ logic.comparison_of (letter_of first) second }
{
    match (first, second) {
        (Initial::E, 'Q') => Some(Comparison::Eq),
        (Initial::N, 'E') => Some(Comparison::Ne),
        (Initial::L, 'T') => Some(Comparison::Lt),
        (Initial::L, 'E') => Some(Comparison::Le),
        (Initial::G, 'T') => Some(Comparison::Gt),
        (Initial::G, 'E') => Some(Comparison::Ge),
        _ => None,
    }
}

/// The second letter of a comparison, upper-cased.
fn after_comparing(first: Initial, is_text: bool, left: Expr, letter: char) -> Option<LogicMoved>
    ensures { (layers : List logic.Open) → LogicMoves (logic.after_comparing (logic.comparison_of (letter_of first) letter) is_text (tree_of left) layers)
        (logic.open_size layers + (size (tree_of left) + 2)) result layers }
{
    let comparison = comparison_of(first, letter)?;
    let relation = OpenRelation { comparison, left };
    logic_moved(LogicPoint::Right(is_text, relation, true), 0)
}

/// An apostrophe behind a number in parentheses, which is the duplication factor of a text.
fn begin_factored(alloc: Global, inner: Expr, c: char) -> Option<LogicMoved>
    requires { characters.kind_of c ≡ Kind.Quote }
    ensures { (at : ℕ) (layers : List logic.Open) → LogicMoves (logic.after_closed (tree_of inner) Kind.Quote (record { at = at; code = c }) layers)
        (logic.open_size layers + (1 + size (tree_of inner))) result layers }
{
    let text = quotation(alloc, None, Some(inner));
    logic_moved(LogicPoint::Text(None, text, is_symbol_character(c)), 3)
}

/// Another character there.
fn resume_number(
    alloc: Global,
    inner: Expr,
    c: char,
    at: u32,
    layers: &mut Vec<Opening>,
) -> Result<Option<LogicMoved>, OutOfMemory>
    ensures { IfOk result (λ found. LogicMoves (logic.point_step (logic.Number None (reading.Have (Paren (tree_of inner)) []) false) (record { at = at; code = c }) (open_of layers.old.items []))
        (logic.open_size (open_of layers.old.items []) + (1 + size (tree_of inner))) found (open_of layers.new.items [])) }
{
    let tree = paren(alloc, inner)?;
    let moved = go_number(
        alloc,
        None,
        Point::Have(tree),
        Vec::new(alloc),
        false,
        c,
        at,
        layers,
    )?;
    Ok(moved)
}

/// A character behind a number in parentheses, which may be the duplication factor of a text.
fn after_closed(
    alloc: Global,
    inner: Expr,
    kind: Kind,
    c: char,
    at: u32,
    layers: &mut Vec<Opening>,
) -> Result<Option<LogicMoved>, OutOfMemory>
    requires { kind ≡ characters.kind_of c }
    ensures { IfOk result (λ found. LogicMoves (logic.after_closed (tree_of inner) kind (record { at = at; code = c }) (open_of layers.old.items [])) (logic.open_size (open_of layers.old.items []) + (1 + size (tree_of inner))) found (open_of layers.new.items [])) }
{
    match kind {
        Kind::Quote => Ok(begin_factored(alloc, inner, c)),
        _ => {
            let moved = resume_number(alloc, inner, c, at, layers)?;
            Ok(moved)
        }
    }
}

/// One character more. What an `Err` or `None` leaves of the stack is of no use.
#[tactic(auto, unfolding(crate::specs::LogicReading::logic_step))]
pub(crate) fn logic_step(
    alloc: Global,
    point: LogicPoint,
    c: char,
    at: u32,
    layers: &mut Vec<Opening>,
) -> Result<Option<LogicMoved>, OutOfMemory>
    ensures { IfOk result (λ found. LogicMoves (logic.logic_step (logic.at_point (open_of layers.old.items []) (point_of point)) (record { at = at; code = c }))
        (logic.logic_weight (logic.at_point (open_of layers.old.items []) (point_of point))) found (open_of layers.new.items [])) }
{
    let kind = kind_of(c);
    match point {
        LogicPoint::Want(touch) => begin_truth(alloc, touch, c, at, layers),
        LogicPoint::NotOrAttribute(first, place) => {
            after_first(alloc, first, place, kind, c, at, layers)
        }
        LogicPoint::Letters(rest) => Ok(after_letters(rest, c.to_ascii_uppercase())),
        LogicPoint::Number(relation, inner, stack, touch) => {
            go_number(alloc, relation, inner, stack, touch, c, at, layers)
        }
        LogicPoint::Text(relation, inner, touch) => {
            go_text(alloc, relation, inner, touch, c, at, layers)
        }
        LogicPoint::BehindText(text) => behind(alloc, Operand::Text(text), false, kind, c, layers),
        LogicPoint::Comparing(first, is_text, left) => {
            Ok(after_comparing(first, is_text, left, c.to_ascii_uppercase()))
        }
        LogicPoint::Right(is_text, relation, touch) => {
            let moved = begin_right(alloc, is_text, relation, touch, c, at)?;
            Ok(moved)
        }
        LogicPoint::Closed(inner) => after_closed(alloc, inner, kind, c, at, layers),
        LogicPoint::BehindTruth(tree) => behind(
            alloc,
            Operand::Truth(tree),
            false,
            kind,
            c,
            layers,
        ),
    }
}

/// The operand that ends here.
fn settled(alloc: Global, point: LogicPoint) -> Result<Option<Operand>, OutOfMemory>
    ensures { IfOk result (λ found. option_map operand_of found ≡ logic.settled (point_of point)) }
{
    match point {
        LogicPoint::Number(relation, inner, stack, _) => {
            let mut below = stack;
            match finish(alloc, Grammar::Arithmetic, inner, &mut below)? {
                Some(tree) => Ok(Some(number_side(alloc, relation, tree)?)),
                None => Ok(None),
            }
        }
        LogicPoint::Text(relation, inner, _) => match text_finish(alloc, inner)? {
            Some(tree) => Ok(Some(text_side(alloc, relation, tree)?)),
            None => Ok(None),
        },
        LogicPoint::BehindText(text) => Ok(Some(Operand::Text(text))),
        LogicPoint::Closed(inner) => Ok(Some(Operand::Number(paren(alloc, inner)?))),
        LogicPoint::BehindTruth(tree) => Ok(Some(Operand::Truth(tree))),
        _ => Ok(None),
    }
}

/// The tree of a text that ends behind a truth.
fn finish_truth(
    alloc: Global,
    tree: Expr,
    layers: Vec<Opening>,
) -> Result<Option<Expr>, OutOfMemory>
    ensures { IfOk result (λ found. option_map tree_of found ≡ logic.whole (open_of layers.items []) (tree_of tree)) }
{
    let mut below = layers;
    let whole = logic_fold(alloc, 0, tree, &mut below)?;
    if below.is_empty() {
        return Ok(Some(whole));
    }
    Ok(None)
}

/// The tree of a text that ends here.
#[tactic(auto, unfolding(crate::specs::LogicReading::logic_accept))]
pub(crate) fn logic_finish(
    alloc: Global,
    point: LogicPoint,
    layers: Vec<Opening>,
) -> Result<Option<Expr>, OutOfMemory>
    ensures { IfOk result (λ found. option_map tree_of found ≡ logic.logic_accept (logic.at_point (open_of layers.items []) (point_of point))) }
{
    let Some(operand) = settled(alloc, point)? else {
        return Ok(None);
    };
    let Some(tree) = truth_of(operand) else {
        return Ok(None);
    };
    let found = finish_truth(alloc, tree, layers)?;
    Ok(found)
}

/// Whether nothing is open but NOTs and operators.
fn is_closed(layers: &[Opening]) -> bool
    ensures { result ≡ all_close layers.now }
{
    for opening in layers {
        if !opening.closes() {
            return false;
        }
    }
    true
}

/// Whether a truth may end here.
#[tactic(auto, using(crate::proofs::LogicClosedLaws::number_truth, crate::proofs::LogicClosedLaws::compared_truth, crate::proofs::LogicClosedLaws::text_truth))]
fn ends_truth(point: &LogicPoint) -> bool
    ensures { result ≡ is_some (option_and_then logic.truth_of (logic.settled (point_of point.now))) }
{
    match point {
        LogicPoint::Number(_, inner, stack, _) => {
            is_whole_number(Grammar::Arithmetic, inner, stack.as_slice())
        }
        LogicPoint::Text(Some(_), inner, _) => text_is_whole(inner),
        LogicPoint::Text(None, _, _) => false,
        LogicPoint::Closed(_) | LogicPoint::BehindTruth(_) => true,
        LogicPoint::Want(_)
        | LogicPoint::NotOrAttribute(_, _)
        | LogicPoint::Letters(_)
        | LogicPoint::BehindText(_)
        | LogicPoint::Comparing(_, _, _)
        | LogicPoint::Right(_, _, _) => false,
    }
}

/// Whether a text that ends here is a logical expression.
#[tactic(auto, unfolding(crate::specs::LogicReading::logic_accept), using(crate::proofs::LogicClosedLaws::accept_closed))]
pub(crate) fn logic_is_whole(point: &LogicPoint, layers: &[Opening]) -> bool
    ensures { result ≡ is_some (logic.logic_accept (logic.at_point (open_of layers.now []) (point_of point.now))) }
{
    ends_truth(point) && is_closed(layers)
}
