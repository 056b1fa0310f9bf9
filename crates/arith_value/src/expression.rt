//! The value of an expression.

ghost use Rattle.arith_syntax.specs.Packed.{parts_of};
ghost use Rattle.arith_syntax.specs.Parts.{tree_of};
ghost use Rattle.arith_value.specs.Value.{Evaluates, value};

use crate::evaluator::{assign, evaluate as evaluate_tree};
use crate::fault::ValueFault;
use crate::one_pass::value_in_one_pass;
use crate::variables::Variables;
use arith_syntax::{PartsRef, word_at};
use std::alloc::Global;

/// The value of the tree that some parts of a text are; its assignments are made in the variables, also those before a
/// fault.
pub fn evaluate(
    alloc: Global,
    text: &str,
    parts: PartsRef<'_>,
    variables: &mut Variables,
) -> Result<i64, ValueFault>
    ensures { Evaluates (value (tree_of text.now (parts_of parts.entry))) variables.old result variables.new }
{
    let Some(assignment) = parts.assignment() else {
        return match value_in_one_pass(alloc, text, parts, variables) {
            Some(value) => Ok(value),
            None => evaluate_parts(alloc, text, parts, variables),
        };
    };
    match value_in_one_pass(alloc, text, assignment.operand, variables) {
        Some(assigned) => assign(
            alloc,
            word_at(text, assignment.place),
            assignment.operator,
            assigned,
            variables,
        ),
        None => evaluate_parts(alloc, text, parts, variables),
    }
}

/// The same, by unpacking the parts and going down their tree.
fn evaluate_parts(
    alloc: Global,
    text: &str,
    parts: PartsRef<'_>,
    variables: &mut Variables,
) -> Result<i64, ValueFault>
    ensures { Evaluates (value (tree_of text.now (parts_of parts.entry))) variables.old result variables.new }
{
    let parts = parts.unpacked(alloc)?;
    evaluate_tree(alloc, text, parts.as_slice(), variables)
}
