//! The value of an expression, found by going down its tree.

ghost use Rattle.std.specs.Prelude.{◌≡◌};
ghost use Rattle.arith_syntax.specs.Parts.{tree_of};
ghost use Rattle.arith_value.specs.Value.{Evaluates, assignment_of, combined, operator_of, value};

use crate::fault::ValueFault;
use crate::operators::{apply, constant, decided, is_true, unary};
use crate::variables::Variables;
use arith_syntax::{AssignmentOperator, BinaryOperator, Part, name_of, parts_before, word_at};
use std::alloc::Global;

/// The operator that an assignment applies before it assigns, where it has one.
fn operator_of(op: AssignmentOperator) -> Option<BinaryOperator>
    ensures { result ≡ operator_of op }
{
    match op {
        AssignmentOperator::Assign => None,
        AssignmentOperator::Add => Some(BinaryOperator::Add),
        AssignmentOperator::Subtract => Some(BinaryOperator::Subtract),
        AssignmentOperator::Multiply => Some(BinaryOperator::Multiply),
        AssignmentOperator::Divide => Some(BinaryOperator::Divide),
        AssignmentOperator::Remainder => Some(BinaryOperator::Remainder),
        AssignmentOperator::ShiftLeft => Some(BinaryOperator::ShiftLeft),
        AssignmentOperator::ShiftRight => Some(BinaryOperator::ShiftRight),
        AssignmentOperator::BitAnd => Some(BinaryOperator::BitAnd),
        AssignmentOperator::BitXor => Some(BinaryOperator::BitXor),
        AssignmentOperator::BitOr => Some(BinaryOperator::BitOr),
    }
}

/// What an assignment assigns: its operand, or what its operator gives of the name's value and the operand.
#[tactic(auto, using(crate::proofs::EvaluateLemmas::chained, crate::proofs::EvaluateLemmas::given))]
#[inline(always)]
fn combined(
    op: AssignmentOperator,
    name: &str,
    operand: i64,
    variables: &Variables,
) -> Result<i64, ValueFault>
    ensures { Evaluates (combined (operator_of op) name.now operand) variables.now result variables.now }
{
    match operator_of(op) {
        None => Ok(operand),
        Some(op) => apply(op, variables.read(name), operand),
    }
}

/// An assignment whose operand has the value `operand`; its value is what was assigned.
#[tactic(auto, using(crate::proofs::EvaluateLemmas::chained, crate::proofs::EvaluateLemmas::broken))]
#[inline(always)]
pub(crate) fn assign(
    alloc: Global,
    name: &str,
    op: AssignmentOperator,
    operand: i64,
    variables: &mut Variables,
) -> Result<i64, ValueFault>
    ensures { Evaluates (assignment_of name.now op operand) variables.old result variables.new }
{
    let value = combined(op, name, operand, variables)?;
    variables.set(alloc, name, value)?;
    Ok(value)
}

/// The value of the tree that some parts of a text are; its assignments are made in the variables, also those before a
/// fault.
#[tactic(auto, using(crate::proofs::EvaluateLemmas::evaluations))]
pub(crate) fn evaluate(
    alloc: Global,
    text: &str,
    parts: &[Part],
    variables: &mut Variables,
) -> Result<i64, ValueFault>
    ensures { Evaluates (value (tree_of text.now parts.now)) variables.old result variables.new }
{
    let Some((part, operands)) = parts.split_last() else {
        return Ok(0);
    };
    match *part {
        Part::Constant(n) => constant(n),
        Part::Variable(place) => Ok(variables.read(word_at(text, place))),
        Part::Group => evaluate(alloc, text, operands, variables),
        Part::Unary(op) => {
            let value = evaluate(alloc, text, operands, variables)?;
            unary(op, value)
        }
        Part::Binary(op) => {
            let first = evaluate(alloc, text, parts_before(operands), variables)?;
            if let Some(value) = decided(op, first) {
                return Ok(value);
            }
            let second = evaluate(alloc, text, operands, variables)?;
            apply(op, first, second)
        }
        Part::Conditional => {
            let if_so = parts_before(operands);
            let tested = evaluate(alloc, text, parts_before(if_so), variables)?;
            if is_true(tested) {
                evaluate(alloc, text, if_so, variables)
            } else {
                evaluate(alloc, text, operands, variables)
            }
        }
        Part::Assignment(op) => {
            let assigned = evaluate(alloc, text, operands, variables)?;
            assign(
                alloc,
                name_of(text, parts_before(operands)),
                op,
                assigned,
                variables,
            )
        }
    }
}
