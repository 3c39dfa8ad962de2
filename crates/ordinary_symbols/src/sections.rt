//! Which relocatable terms of an expression are left over (SC26-4940, "Absolute and relocatable expressions").
ghost use Rattle.std.specs.Prelude.{◌≡◌, ◌≤◌, ◌&&◌, not, find};
ghost use Rattle.std.specs.Option.{option_or};
ghost use Rattle.expression_grammar.specs.Trees.{size};
ghost use Rattle.expression_grammar.specs.Spelling.{most_parts};
ghost use Rattle.expression_grammar.specs.Views.{tree_of};
ghost use Rattle.ordinary_symbols.specs.Shown.{table_of};
ghost use Rattle.ordinary_symbols.specs.Table.{known};
ghost use Rattle.ordinary_symbols.specs.Sections as sections;

use crate::Symbols;
use expression_grammar::{Expr, Operator, Reference, Sign};
use hl_base::Name;
use trace_values::{Reloc, SectionId};

/// The sign that another turns round.
fn under(before: Sign, sign: Sign) -> Sign
    ensures { result ≡ sections.under before sign }
{
    match before {
        Sign::Plus => sign,
        Sign::Minus => match sign {
            Sign::Plus => Sign::Minus,
            Sign::Minus => Sign::Plus,
        },
    }
}

/// The section of a value, if it has one.
fn section_of(value: Option<Reloc>) -> Option<SectionId>
    ensures { result ≡ sections.section_of value }
{
    value?.section
}

/// Whether two sections are one.
fn is_section(one: SectionId, other: SectionId) -> bool
    ensures { result ≡ sections.is_section one other }
{
    one.0 == other.0
}

/// 1 for a term in a section whose sign is a plus.
fn once(section: SectionId, sign: Sign, own: Option<SectionId>) -> u32
    ensures { result ≡ sections.once section sign own }
{
    match (sign, own) {
        (Sign::Plus, Some(own)) if is_section(own, section) => 1,
        _ => 0,
    }
}

/// Whether a section is another than this one, if there is one.
fn is_other(but: Option<SectionId>, section: SectionId) -> bool
    ensures { result ≡ sections.is_other but section }
{
    match but {
        Some(but) => !is_section(section, but),
        None => true,
    }
}

/// The first of two sections, if there is one.
fn first_of(one: Option<SectionId>, other: Option<SectionId>) -> Option<SectionId>
    ensures { result ≡ option_or one other }
{
    match one {
        Some(section) => Some(section),
        None => other,
    }
}

impl Symbols {
    /// The section of a symbol's value.
    fn section(&self, name: &Name) -> Option<SectionId>
        ensures { result ≡ sections.section_of (sections.value_in (known (table_of self.now) name.now)) }
    {
        section_of(self.value(name))
    }

    /// How many terms in a section count with a plus, where the whole sum has a sign before it.
    #[tactic(auto, using(crate::proofs::Counts::times_le))]
    fn times(&self, e: &Expr, here: Option<Reloc>, section: SectionId, sign: Sign) -> u32
        requires { size (tree_of e.now) ≤ most_parts }
        ensures { result ≡ sections.times (known (table_of self.now)) here section sign (tree_of e.now) }
    {
        match e {
            Expr::Symbol(Reference::Value, symbol) => {
                once(section, sign, self.section(&symbol.name))
            }
            Expr::Here => once(section, sign, section_of(here)),
            Expr::Signed(before, operand) => {
                self.times(operand, here, section, under(*before, sign))
            }
            Expr::Pair(Operator::Add, left, right) => {
                self.times(left, here, section, sign) + self.times(right, here, section, sign)
            }
            Expr::Pair(Operator::Subtract, left, right) => {
                self.times(left, here, section, sign)
                    + self.times(right, here, section, under(Sign::Minus, sign))
            }
            Expr::Paren(inner) => self.times(inner, here, section, sign),
            _ => 0,
        }
    }

    /// Whether the terms in a section cancel one another.
    fn cancels(&self, e: &Expr, here: Option<Reloc>, section: SectionId) -> bool
        requires { size (tree_of e.now) ≤ most_parts }
        ensures { result ≡ sections.cancels (known (table_of self.now)) here (tree_of e.now) section }
    {
        self.times(e, here, section, Sign::Plus) == self.times(e, here, section, Sign::Minus)
    }

    /// A section of the whole whose terms do not cancel, other than this one.
    fn is_left(
        &self,
        whole: &Expr,
        here: Option<Reloc>,
        but: Option<SectionId>,
        section: Option<SectionId>,
    ) -> Option<SectionId>
        requires { size (tree_of whole.now) ≤ most_parts }
        ensures { result ≡ find (λ s. sections.is_other but s && not (sections.cancels (known (table_of self.now)) here (tree_of whole.now) s)) (sections.listed section) }
    {
        let section = section?;
        if is_other(but, section) && !self.cancels(whole, here, section) {
            return Some(section);
        }
        None
    }

    /// The first section of a part whose terms do not cancel in the whole, other than this one.
    fn left_in(
        &self,
        part: &Expr,
        whole: &Expr,
        here: Option<Reloc>,
        but: Option<SectionId>,
    ) -> Option<SectionId>
        requires { size (tree_of whole.now) ≤ most_parts }
        ensures { result ≡ find (λ s. sections.is_other but s && not (sections.cancels (known (table_of self.now)) here (tree_of whole.now) s)) (sections.sections (known (table_of self.now)) here (tree_of part.now)) }
    {
        match part {
            Expr::Symbol(Reference::Value, symbol) => {
                self.is_left(whole, here, but, self.section(&symbol.name))
            }
            Expr::Here => self.is_left(whole, here, but, section_of(here)),
            Expr::Signed(_, operand) => self.left_in(operand, whole, here, but),
            Expr::Pair(Operator::Add, left, right) => first_of(
                self.left_in(left, whole, here, but),
                self.left_in(right, whole, here, but),
            ),
            Expr::Pair(Operator::Subtract, left, right) => first_of(
                self.left_in(left, whole, here, but),
                self.left_in(right, whole, here, but),
            ),
            Expr::Paren(inner) => self.left_in(inner, whole, here, but),
            _ => None,
        }
    }

    /// The first section whose terms do not cancel, other than this one.
    pub(crate) fn left_over(
        &self,
        e: &Expr,
        here: Option<Reloc>,
        but: Option<SectionId>,
    ) -> Option<SectionId>
        requires { size (tree_of e.now) ≤ most_parts }
        ensures { result ≡ sections.left_over (known (table_of self.now)) here (tree_of e.now) but }
    {
        self.left_in(e, e, here, but)
    }

    /// Whether all relocatable terms of a sum cancel.
    pub(crate) fn is_absolute(&self, e: &Expr, here: Option<Reloc>) -> bool
        requires { size (tree_of e.now) ≤ most_parts }
        ensures { result ≡ sections.is_absolute (known (table_of self.now)) here (tree_of e.now) }
    {
        self.left_over(e, here, None).is_none()
    }

    /// Whether the terms in this section come to one of them, and all others cancel.
    #[tactic(auto, using(crate::proofs::Counts::times_le))]
    pub(crate) fn is_simple(&self, e: &Expr, here: Option<Reloc>, section: SectionId) -> bool
        requires { size (tree_of e.now) ≤ most_parts }
        ensures { result ≡ sections.is_simple (known (table_of self.now)) here (tree_of e.now) section }
    {
        let with = self.times(e, here, section, Sign::Plus);
        let against = self.times(e, here, section, Sign::Minus);
        with == against + 1 && self.left_over(e, here, Some(section)).is_none()
    }
}
