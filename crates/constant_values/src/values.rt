//! The values of a constant, and what is said of all of them.
ghost use Rattle.std.specs.Prelude.{◌≡◌, ◌+◌, ◌*◌, ◌<◌, IfOk};
ghost use Rattle.std.specs.List.{list_any, sum_by};
ghost use Rattle.constant_grammar.specs.Views.{constant_of};
ghost use Rattle.constant_values.specs.Right as right;
ghost use Rattle.constant_values.specs.Values as spec;
ghost use Rattle.constant_values.specs.Views.{values_of};

use crate::right::{implied_bytes, is_right, is_too_long};
use crate::split::texts_of;
use constant_grammar::{Constant, Nominal};
use constant_table::{ConstantType, ValueKind};
use hl_base::{OutOfMemory, Text};
use std::alloc::Global;

/// The values of a constant.
#[derive(Drop)]
pub enum Values {
    /// None is written: the constant stands for one that has no value.
    Absent,
    /// Each text within apostrophes.
    Texts(Vec<Text>),
    /// So many within parentheses.
    Elements(usize),
}

/// How many bytes these values take together where no length is given.
#[tactic(auto, using(crate::proofs::Lists::sum_more, crate::proofs::Lists::sum_all, crate::proofs::Lists::sum_none))]
fn implied_sum(kind: ConstantType, texts: &[Text]) -> Result<u64, OutOfMemory>
    ensures { IfOk result (λ bytes. bytes ≡ sum_by (right.implied_bytes kind) texts.now) }
{
    let mut bytes: u64 = 0;
    for text in texts {
        bytes = plus(bytes, implied_bytes(kind, text.as_str()))?;
    }
    Ok(bytes)
}

/// A sum, where it can be counted.
fn plus(bytes: u64, more: usize) -> Result<u64, OutOfMemory>
    ensures { IfOk result (λ sum. sum ≡ bytes + more) }
{
    bytes.checked_add(more as u64).ok_or(OutOfMemory)
}

/// A product, where it can be counted.
fn times(count: usize, bytes: u64) -> Result<u64, OutOfMemory>
    ensures { IfOk result (λ product. product ≡ count * bytes) }
{
    (count as u64).checked_mul(bytes).ok_or(OutOfMemory)
}

/// Whether one of these values is wrong for its kind.
#[tactic(auto, using(crate::proofs::Lists::any_more, crate::proofs::Lists::any_past))]
fn any_wrong(kind: ValueKind, texts: &[Text]) -> bool
    ensures { result ≡ list_any (spec.is_wrong_text kind) texts.now }
{
    for text in texts {
        if !is_right(kind, text.as_str()) {
            return true;
        }
    }
    false
}

/// Whether one of these values is too long.
#[tactic(auto, using(crate::proofs::Lists::any_more, crate::proofs::Lists::any_past))]
fn any_too_long(kind: ConstantType, explicit: Option<u32>, texts: &[Text]) -> bool
    ensures { result ≡ list_any (right.is_too_long kind explicit) texts.now }
{
    for text in texts {
        if is_too_long(kind, explicit, text.as_str()) {
            return true;
        }
    }
    false
}

/// Whether any text is right: a text whose length is given.
fn is_any_text(kind: ValueKind, sized: bool) -> bool
    ensures { result ≡ spec.is_any_text kind sized }
{
    match kind {
        ValueKind::Text => sized,
        _ => false,
    }
}

/// The boundary in bytes on which a constant of this type stands; a constant with an explicit length stands on any byte.
#[tactic(auto, using(crate::proofs::Boundaries::boundary_some))]
pub fn boundary(kind: ConstantType, sized: bool) -> u32
    ensures boundary { result ≡ spec.boundary kind sized }
    ensures some { 0 < result }
{
    if sized { 1 } else { kind.alignment() }
}

impl Values {
    /// The values of a constant as it is written.
    pub fn of(alloc: Global, constant: &Constant) -> Result<Values, OutOfMemory>
        ensures { IfOk result (λ values. values_of values ≡ spec.values_of (constant_of constant.now)) }
    {
        match &constant.nominal {
            None => Ok(Values::Absent),
            Some(Nominal::Enclosed(elements)) => Ok(Values::Elements(elements.len())),
            Some(Nominal::Quoted(text)) => Ok(Values::Texts(texts_of(
                alloc,
                constant.kind.kind(),
                text.as_str(),
            )?)),
        }
    }

    /// How many constants there are, without the duplication factor.
    pub fn count(&self) -> usize
        ensures { result ≡ spec.count (values_of self.now) }
    {
        match self {
            Values::Absent => 1,
            Values::Texts(texts) => texts.len(),
            Values::Elements(count) => *count,
        }
    }

    /// How many bytes the constants of this type take together, without the duplication factor, each of the explicit length, or
    /// else of that of its value. An `Err` comes too where they could not be counted.
    pub fn bytes(&self, kind: ConstantType, explicit: Option<u32>) -> Result<u64, OutOfMemory>
        ensures { IfOk result (λ bytes. bytes ≡ spec.bytes kind explicit (values_of self.now)) }
    {
        match explicit {
            Some(length) => times(self.count(), u64::from(length)),
            None => self.implied(kind),
        }
    }

    /// How many bytes the constants take where no length is given.
    fn implied(&self, kind: ConstantType) -> Result<u64, OutOfMemory>
        ensures { IfOk result (λ bytes. bytes ≡ spec.implied kind (values_of self.now)) }
    {
        match self {
            Values::Absent => Ok(kind.implied_length(None) as u64),
            Values::Texts(texts) => implied_sum(kind, texts),
            Values::Elements(count) => times(*count, kind.implied_length(None) as u64),
        }
    }

    /// Whether a value is wrong for its type. A text of no characters is right where an explicit length is given.
    pub fn is_wrong(&self, kind: ConstantType, sized: bool) -> bool
        ensures { result ≡ spec.is_wrong kind sized (values_of self.now) }
    {
        match self {
            Values::Texts(texts) => !is_any_text(kind.kind(), sized)
                && any_wrong(kind.kind(), texts),
            Values::Absent | Values::Elements(_) => false,
        }
    }

    /// Whether a value that is right does not fit the length of its constant.
    pub fn is_too_long(&self, kind: ConstantType, explicit: Option<u32>) -> bool
        ensures { result ≡ spec.is_too_long kind explicit (values_of self.now) }
    {
        match self {
            Values::Texts(texts) => any_too_long(kind, explicit, texts),
            Values::Absent | Values::Elements(_) => false,
        }
    }
}
