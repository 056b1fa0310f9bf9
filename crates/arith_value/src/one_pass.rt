//! The value of an expression that assigns nothing, in one pass over its parts.

ghost use Rattle.std.specs.Prelude.{◌≡◌, ℕ, List, [], ◌∷◌, IfSome, if◌then◌else◌, reverse};
ghost use Rattle.arith_syntax.specs.Grammar.{Tree};
ghost use Rattle.arith_syntax.specs.Packed.{parts_of};
ghost use Rattle.arith_syntax.specs.Parts.{assembled};
ghost use Rattle.arith_syntax.specs.declared.part.Part.TheVariants.{Group, Unary, Binary, Conditional};
ghost use Rattle.arith_value.specs.OnePass.{HaveValues, Puts, Steps, Takes};
ghost use Rattle.arith_value.specs.Operators.{is_true};
ghost use Rattle.arith_value.specs.Variables.{Bindings};

use crate::fault::ValueFault;
use crate::operators::{apply, constant, is_true, unary};
use crate::variables::Variables;
use arith_syntax::{BinaryOperator, Part, PartsRef, UnaryOperator, word_at};
use std::alloc::Global;

/// For how many values there is room at first.
const ROOM: usize = 16;

/// The value of the tree that some parts of a text are, if one pass from the first part to the last finds it: each part
/// takes the values that it is made of off, and puts its own there. It finds none at an assignment, a fault or want of
/// memory, or if not just one value is there at the end.
pub(crate) fn value_in_one_pass(
    alloc: Global,
    text: &str,
    parts: PartsRef<'_>,
    variables: &Variables,
) -> Option<i64>
    ensures { IfSome result (λ number. (base : List Tree)
        → HaveValues variables.now base (assembled text.now base (parts_of parts.entry)) (number ∷ [])) }
{
    let Ok(mut waiting) = Vec::with_capacity(alloc, ROOM) else {
        return None;
    };
    let mut left = parts;
    while let Some(part) = left.next() {
        if !step(text, part, variables, &mut waiting) {
            return None;
        }
    }
    let value = take(&mut waiting)?;
    if waiting.is_empty() {
        Some(value)
    } else {
        None
    }
}

/// Goes on by a part, or tells that it can't.
#[inline(always)]
fn step(text: &str, part: Part, variables: &Variables, waiting: &mut Vec<i64>) -> bool
    ensures { Steps variables.now text.now part (reverse waiting.old.items) result (reverse waiting.new.items) }
{
    match part {
        Part::Constant(n) => put(waiting, constant(n)),
        Part::Variable(place) => put(waiting, Ok(variables.read(word_at(text, place)))),
        Part::Group => step_group(waiting),
        Part::Unary(op) => step_unary(op, waiting),
        Part::Binary(op) => step_binary(op, waiting),
        Part::Conditional => step_conditional(waiting),
        Part::Assignment(_) => false,
    }
}

/// Goes on by parentheses.
#[inline(always)]
fn step_group(waiting: &mut Vec<i64>) -> bool
    ensures { (variables : Bindings) (text : List ℕ) → Steps variables text Group (reverse waiting.old.items) result
        (reverse waiting.new.items) }
{
    match take(waiting) {
        Some(inner) => put(waiting, Ok(inner)),
        None => false,
    }
}

/// Goes on by an operator in front of its operand.
#[inline(always)]
fn step_unary(op: UnaryOperator, waiting: &mut Vec<i64>) -> bool
    ensures { (variables : Bindings) (text : List ℕ) → Steps variables text (Unary op) (reverse waiting.old.items)
        result (reverse waiting.new.items) }
{
    match take(waiting) {
        Some(operand) => put(waiting, unary(op, operand)),
        None => false,
    }
}

/// Goes on by an operator between its operands: where both are worth something and assign nothing, `&&` and `||` give
/// the same with the right one evaluated as without.
#[inline(always)]
fn step_binary(op: BinaryOperator, waiting: &mut Vec<i64>) -> bool
    ensures { (variables : Bindings) (text : List ℕ) → Steps variables text (Binary op) (reverse waiting.old.items)
        result (reverse waiting.new.items) }
{
    let Some(right) = take(waiting) else {
        return false;
    };
    match take(waiting) {
        Some(left) => put(waiting, apply(op, left, right)),
        None => false,
    }
}

/// Goes on by a conditional, both of whose branches are worth something.
#[inline(always)]
fn step_conditional(waiting: &mut Vec<i64>) -> bool
    ensures { (variables : Bindings) (text : List ℕ) → Steps variables text Conditional (reverse waiting.old.items)
        result (reverse waiting.new.items) }
{
    let Some(if_not) = take(waiting) else {
        return false;
    };
    let Some(if_so) = take(waiting) else {
        return false;
    };
    match take(waiting) {
        Some(tested) => put(waiting, Ok(chosen(tested, if_so, if_not))),
        None => false,
    }
}

/// The value of the branch that a condition chooses.
#[inline(always)]
fn chosen(tested: i64, if_so: i64, if_not: i64) -> i64
    ensures { result ≡ (if is_true tested then if_so else if_not) }
{
    if is_true(tested) { if_so } else { if_not }
}

/// Takes the last value off.
#[inline(always)]
fn take(waiting: &mut Vec<i64>) -> Option<i64>
    ensures { Takes (reverse waiting.old.items) result (reverse waiting.new.items) }
{
    waiting.pop()
}

/// Puts a value behind the others, or tells that there is none, or no memory for it.
#[inline(always)]
fn put(waiting: &mut Vec<i64>, value: Result<i64, ValueFault>) -> bool
    ensures { Puts (reverse waiting.old.items) value result (reverse waiting.new.items) }
{
    match value {
        Ok(number) => waiting.push(number).is_ok(),
        Err(_) => false,
    }
}
