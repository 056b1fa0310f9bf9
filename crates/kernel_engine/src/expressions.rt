//! User expressions, which are evaluated after a cell.

ghost use Rattle.std.specs.Prelude.{◌≡◌, ℕ, List, [], ◌∷◌, ◌++◌, Result, MatchResult};
ghost use Rattle.interp_core.specs.declared.fault.InterpFault.{InterpFault};
ghost use Rattle.kernel_engine.specs.Answer.{Evaluates, EvaluatesFront, LeavesExpression, shown_of};

use crate::words::own_words;
use interp_core::Interpreter;
use jmsg_types::Shown;
use listed::{Row, Text};
use std::alloc::{AllocError, Global};

/// Evaluates expressions one after the other: what each came to, by its name.
pub(crate) fn evaluate_all<I: Interpreter>(
    alloc: Global,
    interp: &mut I,
    expressions: Row<(Text, Text)>,
) -> Result<Row<(Text, Shown)>, AllocError>
    ensures { MatchResult result (λ values. Evaluates I.meaning interp.old expressions values interp.new)
        (λ _. EvaluatesFront I.meaning interp.old expressions interp.new) }
{
    let mut values = Vec::new(alloc);
    for expression in expressions.into_vec() {
        if let Err(AllocError) = evaluate_next(alloc, interp, expression, &mut values) {
            drop(values);
            return Err(AllocError);
        }
    }
    Ok(Row::new(values))
}

/// Evaluates the next expression, and puts what it came to after the others.
fn evaluate_next<I: Interpreter>(
    alloc: Global,
    interp: &mut I,
    expression: (Text, Text),
    values: &mut Vec<(Text, Shown)>,
) -> Result<(), AllocError>
    ensures { MatchResult result
        (λ _. (answer : Result (List ℕ) InterpFault)
        × I.meaning.evaluates interp.old expression.1 answer interp.new
        × (values.new.items ≡ values.old.items ++ (expression.0, shown_of answer) ∷ []))
        (λ _. LeavesExpression I.meaning interp.old expression.1 interp.new) }
{
    let (name, text) = expression;
    let shown = evaluate(alloc, interp, text.as_str());
    drop(text);
    let Ok(shown) = shown else {
        drop(name);
        return Err(AllocError);
    };
    match values.push((name, shown)) {
        Ok(()) => Ok(()),
        Err(refused) => {
            drop(refused);
            Err(AllocError)
        }
    }
}

/// What an expression came to.
fn evaluate<I: Interpreter>(alloc: Global, interp: &mut I, text: &str) -> Result<Shown, AllocError>
    ensures { MatchResult result
        (λ shown. (answer : Result (List ℕ) InterpFault)
        × I.meaning.evaluates interp.old text.now answer interp.new × (shown ≡ shown_of answer))
        (λ _. LeavesExpression I.meaning interp.old text.now interp.new) }
{
    match interp.evaluate(alloc, text) {
        Ok(value) => Ok(Shown::Text(value)),
        Err(fault) => {
            let words = own_words(alloc, &fault);
            drop(fault);
            let (ename, evalue) = words?;
            Ok(Shown::Fault { ename, evalue })
        }
    }
}
