//! The values of whole expressions, each under the answers that were given.
ghost use Rattle.std.specs.Prelude.{◌≡◌, [], Some, IfOk};
ghost use Rattle.expression_grammar.specs.Views.{tree_of};
ghost use Rattle.cond_expr.specs.Evaluated as evaluated;

use crate::evaluate;
use crate::lookups::Lookups;
use crate::stop::Stop;
use expression_grammar::Expr;
use hl_base::{Key, Notes, OutOfMemory, SetValue, Text};
use std::alloc::Global;

/// The value of an expression with its notes, in the order in which they came; or, where `asked` is set, the key whose
/// answer is needed first and was not given: then the value is 0, false or empty, and there is no note.
#[derive(Drop)]
pub struct Evaluated {
    pub value: SetValue,
    pub notes: Notes,
    pub asked: Option<Key>,
}

/// Which key is asked.
fn asking(alloc: Global, value: SetValue, key: Key) -> Evaluated
    ensures { result ≡ record { value = value; notes = []; asked = Some key } }
{
    Evaluated {
        value,
        notes: Notes::new(alloc),
        asked: Some(key),
    }
}

/// The value of an arithmetic expression, and its notes; or the first key whose answer is needed and was not given. Every
/// other tree has a value too, so nothing is asked of `e` (SC26-4940, "Arithmetic (SETA) expressions").
pub fn eval_a<Q: Lookups>(alloc: Global, e: &Expr, q: &Q) -> Result<Evaluated, OutOfMemory>
    ensures { IfOk result (λ found. found ≡ evaluated.arithmetic (tree_of e.now) (Q.told q.now)) }
{
    let mut notes = Notes::new(alloc);
    match evaluate::number(alloc, e, q, &mut notes) {
        Ok(number) => Ok(Evaluated {
            value: SetValue::A(number),
            notes,
            asked: None,
        }),
        Err(Stop::Asked(key)) => Ok(asking(alloc, SetValue::A(0), key)),
        Err(Stop::OutOfMemory) => Err(OutOfMemory),
    }
}

/// The value of a logical expression, and its notes; or the first key whose answer is needed and was not given (SC26-4940,
/// "Logical (SETB) expressions").
pub fn eval_b<Q: Lookups>(alloc: Global, e: &Expr, q: &Q) -> Result<Evaluated, OutOfMemory>
    ensures { IfOk result (λ found. found ≡ evaluated.logical (tree_of e.now) (Q.told q.now)) }
{
    let mut notes = Notes::new(alloc);
    match evaluate::number(alloc, e, q, &mut notes) {
        Ok(number) => Ok(Evaluated {
            value: SetValue::B(number != 0),
            notes,
            asked: None,
        }),
        Err(Stop::Asked(key)) => Ok(asking(alloc, SetValue::B(false), key)),
        Err(Stop::OutOfMemory) => Err(OutOfMemory),
    }
}

/// The value of a character expression, and its notes; or the first key whose answer is needed and was not given
/// (SC26-4940, "Character (SETC) expressions").
pub fn eval_c<Q: Lookups>(alloc: Global, e: &Expr, q: &Q) -> Result<Evaluated, OutOfMemory>
    ensures { IfOk result (λ found. found ≡ evaluated.character (tree_of e.now) (Q.told q.now)) }
{
    let mut notes = Notes::new(alloc);
    match evaluate::text(alloc, e, q, &mut notes) {
        Ok(text) => Ok(Evaluated {
            value: SetValue::C(text),
            notes,
            asked: None,
        }),
        Err(Stop::Asked(key)) => Ok(asking(alloc, SetValue::C(Text::new(alloc)), key)),
        Err(Stop::OutOfMemory) => Err(OutOfMemory),
    }
}
