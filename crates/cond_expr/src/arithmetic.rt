//! Arithmetic in 32 bits with sign (SC26-4940, "Arithmetic (SETA) expressions"). `None` is a number that does not fit.
ghost use Rattle.std.specs.Prelude.{◌≡◌, ◌+ℤ◌, ◌-ℤ◌, ◌*ℤ◌, neg_ℤ, pos};
ghost use Rattle.cond_expr.specs.Arithmetic as arithmetic;

/// The sum, where it fits.
#[tactic(auto, using(crate::proofs::ArithmeticLemmas::fitting))]
pub fn sum(left: i32, right: i32) -> Option<i32>
    ensures { result ≡ arithmetic.fitting (left +ℤ right) }
{
    left.checked_add(right)
}

/// The difference, where it fits.
#[tactic(auto, using(crate::proofs::ArithmeticLemmas::fitting))]
pub fn difference(left: i32, right: i32) -> Option<i32>
    ensures { result ≡ arithmetic.fitting (left -ℤ right) }
{
    left.checked_sub(right)
}

/// The product, where it fits.
#[tactic(auto, using(crate::proofs::ArithmeticLemmas::fitting))]
pub fn product(left: i32, right: i32) -> Option<i32>
    ensures { result ≡ arithmetic.fitting (left *ℤ right) }
{
    left.checked_mul(right)
}

/// The quotient without its fraction, where it fits; 0 where the divisor is 0.
#[tactic(auto, using(crate::proofs::ArithmeticLemmas::fitting))]
pub fn quotient(left: i32, right: i32) -> Option<i32>
    ensures { result ≡ arithmetic.quotient left right }
{
    if right == 0 {
        return Some(0);
    }
    left.checked_div(right)
}

/// The number below 0 in place of the one above, and the other way round, where it fits.
#[tactic(auto, using(crate::proofs::ArithmeticLemmas::fitting))]
pub fn negated(operand: i32) -> Option<i32>
    ensures { result ≡ arithmetic.fitting (neg_ℤ operand) }
{
    operand.checked_neg()
}

/// A count as a number, where it fits.
#[tactic(auto, using(crate::proofs::ArithmeticLemmas::fitting))]
pub fn counted(count: usize) -> Option<i32>
    ensures { result ≡ arithmetic.fitting (pos count) }
{
    if count > 2_147_483_647 {
        return None;
    }
    Some(count as i32)
}
