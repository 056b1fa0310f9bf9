//! The values of operators.

ghost use Rattle.std.specs.Prelude.{◌≡◌, pos, ◌+ℤ◌, ◌-ℤ◌, ◌*ℤ◌};
ghost use Rattle.arith_value.specs.Operators.{apply, checked, count_of, is_true, quotient, remainder, shift_left};
ghost use Rattle.arith_value.specs.Operators.{shift_right, truth, unary};
ghost use Rattle.arith_value.specs.Value.{decided};

use crate::fault::ValueFault;
use arith_syntax::{BinaryOperator, UnaryOperator};

/// Whether a number is true, which each but 0 is.
pub(crate) fn is_true(number: i64) -> bool
    ensures { result ≡ is_true number }
{
    number != 0
}

/// 1 for what is true, and 0 for what is false.
pub(crate) fn truth(holds: bool) -> i64
    ensures { result ≡ truth holds }
{
    if holds { 1 } else { 0 }
}

/// A sum.
fn add(left: i64, right: i64) -> Result<i64, ValueFault>
    ensures { result ≡ checked (left +ℤ right) }
{
    left.checked_add(right).ok_or(ValueFault::Overflow)
}

/// A difference.
fn subtract(left: i64, right: i64) -> Result<i64, ValueFault>
    ensures { result ≡ checked (left -ℤ right) }
{
    left.checked_sub(right).ok_or(ValueFault::Overflow)
}

/// A product.
fn multiply(left: i64, right: i64) -> Result<i64, ValueFault>
    ensures { result ≡ checked (left *ℤ right) }
{
    left.checked_mul(right).ok_or(ValueFault::Overflow)
}

/// A quotient, towards zero.
fn divide(left: i64, right: i64) -> Result<i64, ValueFault>
    ensures { result ≡ quotient left right }
{
    if right == 0 {
        return Err(ValueFault::ZeroDivision);
    }
    left.checked_div(right).ok_or(ValueFault::Overflow)
}

/// A remainder, with the dividend's sign or 0.
fn remainder(left: i64, right: i64) -> Result<i64, ValueFault>
    ensures { result ≡ remainder left right }
{
    if right == 0 {
        return Err(ValueFault::ZeroDivision);
    }
    left.checked_rem(right).ok_or(ValueFault::Overflow)
}

/// How far a shift goes, where it may go so far.
fn shift_count(count: i64) -> Result<u32, ValueFault>
    ensures { result ≡ count_of count }
{
    if 0 <= count && count < 64 {
        Ok(count as u32)
    } else {
        Err(ValueFault::Shift)
    }
}

/// A product with a power of two.
fn shift_left(left: i64, right: i64) -> Result<i64, ValueFault>
    ensures { result ≡ shift_left left right }
{
    if left < 0 {
        return Err(ValueFault::Shift);
    }
    let count = shift_count(right)?;
    match (left as u64).checked_mul(1u64 << count) {
        Some(product) => i64::try_from(product).map_err(|_| ValueFault::Overflow),
        None => Err(ValueFault::Overflow),
    }
}

/// A quotient by a power of two, rounded down.
fn shift_right(left: i64, right: i64) -> Result<i64, ValueFault>
    ensures { result ≡ shift_right left right }
{
    let count = shift_count(right)?;
    Ok(left >> count)
}

/// The value of an operator in front of its operand.
#[inline(always)]
pub fn unary(op: UnaryOperator, operand: i64) -> Result<i64, ValueFault>
    ensures { result ≡ unary op operand }
{
    match op {
        UnaryOperator::Plus => Ok(operand),
        UnaryOperator::Minus => operand.checked_neg().ok_or(ValueFault::Overflow),
        UnaryOperator::Complement => Ok(!operand),
        UnaryOperator::Not => Ok(truth(!is_true(operand))),
    }
}

/// The value of an operator between its operands.
#[inline(always)]
pub fn apply(op: BinaryOperator, left: i64, right: i64) -> Result<i64, ValueFault>
    ensures { result ≡ apply op left right }
{
    match op {
        BinaryOperator::Multiply => multiply(left, right),
        BinaryOperator::Divide => divide(left, right),
        BinaryOperator::Remainder => remainder(left, right),
        BinaryOperator::Add => add(left, right),
        BinaryOperator::Subtract => subtract(left, right),
        BinaryOperator::ShiftLeft => shift_left(left, right),
        BinaryOperator::ShiftRight => shift_right(left, right),
        BinaryOperator::Less => Ok(truth(left < right)),
        BinaryOperator::LessOrEqual => Ok(truth(left <= right)),
        BinaryOperator::Greater => Ok(truth(left > right)),
        BinaryOperator::GreaterOrEqual => Ok(truth(left >= right)),
        BinaryOperator::Equal => Ok(truth(left == right)),
        BinaryOperator::NotEqual => Ok(truth(left != right)),
        BinaryOperator::BitAnd => Ok(left & right),
        BinaryOperator::BitXor => Ok(left ^ right),
        BinaryOperator::BitOr => Ok(left | right),
        BinaryOperator::And => Ok(truth(is_true(left) && is_true(right))),
        BinaryOperator::Or => Ok(truth(is_true(left) || is_true(right))),
    }
}

/// The value that the left operand decides by itself: a false one that of `&&`, and a true one that of `||`.
#[inline(always)]
pub(crate) fn decided(op: BinaryOperator, left: i64) -> Option<i64>
    ensures { result ≡ decided op left }
{
    if op == BinaryOperator::And && !is_true(left) {
        Some(0)
    } else if op == BinaryOperator::Or && is_true(left) {
        Some(1)
    } else {
        None
    }
}

/// The number that a constant stands for.
pub(crate) fn constant(n: u64) -> Result<i64, ValueFault>
    ensures { result ≡ checked (pos n) }
{
    i64::try_from(n).map_err(|_| ValueFault::Overflow)
}
