//! The parts of a tree.

ghost use Rattle.std.specs.Prelude.{◌≡◌, ◌≢◌, ◌≤◌, ℕ, List, length, MatchOption};
ghost use Rattle.arith_syntax.specs.declared.part.Part.TheVariants.{Variable};
ghost use Rattle.arith_syntax.specs.Grammar.{Tree};
ghost use Rattle.arith_syntax.specs.Parts.{before, grown, last, name_of, operand_count, tree_of, trees_in};

use crate::lexer::word_at;
use crate::operator::{AssignmentOperator, BinaryOperator, UnaryOperator};

/// A part of a tree. A tree is kept as its parts in a row, each behind the parts that it is made of.
#[derive(Clone, Copy, PartialEq, Eq, Debug)]
pub enum Part {
    /// A constant.
    Constant(u64),
    /// The variable whose name is the word at this place of the text, which counts octets.
    Variable(u64),
    /// Parentheses around a tree.
    Group,
    /// An operator in front of its operand.
    Unary(UnaryOperator),
    /// An operator behind its operands.
    Binary(BinaryOperator),
    /// `?` and `:` behind the condition and both branches.
    Conditional,
    /// An operator that assigns, behind the variable and what is assigned.
    Assignment(AssignmentOperator),
}

impl Part {
    /// The name that the tree is which ends with this part, and else the empty text.
    fn name(self, text: &str) -> &str
        ensures { (trees : List Tree) → result.now ≡ name_of (last (grown text.now self trees)) }
    {
        match self {
            Part::Variable(place) => word_at(text, place),
            Part::Constant(_)
            | Part::Group
            | Part::Unary(_)
            | Part::Binary(_)
            | Part::Conditional
            | Part::Assignment(_) => "",
        }
    }

    /// The place of a variable's name; none of another part.
    #[inline(always)]
    pub(crate) fn variable(self) -> Option<u64>
        ensures { MatchOption result ((place : ℕ) → self ≢ Variable place) (λ place. self ≡ Variable place) }
    {
        match self {
            Part::Variable(place) => Some(place),
            Part::Constant(_)
            | Part::Group
            | Part::Unary(_)
            | Part::Binary(_)
            | Part::Conditional
            | Part::Assignment(_) => None,
        }
    }

    /// How many trees the part is made of.
    fn operand_count(self) -> usize
        ensures { result ≡ operand_count self }
    {
        match self {
            Part::Constant(_) | Part::Variable(_) => 0,
            Part::Group | Part::Unary(_) => 1,
            Part::Binary(_) | Part::Assignment(_) => 2,
            Part::Conditional => 3,
        }
    }
}

/// The parts of the trees before the last one.
#[inline(always)]
pub fn parts_before(parts: &[Part]) -> &[Part]
    ensures trees { (text : List ℕ) → trees_in text result.now ≡ before (trees_in text parts.now) }
    ensures fewer { length result.now ≤ length parts.now }
{
    let mut size = parts.len();
    let mut due = 1;
    while due != 0 && size != 0 {
        size -= 1;
        due = due - 1 + parts[size].operand_count();
    }
    &parts[..size]
}

/// The name that the last tree is, and else the empty text.
pub fn name_of<'a>(text: &'a str, parts: &[Part]) -> &'a str
    ensures { result.now ≡ name_of (tree_of text.now parts.now) }
{
    match parts.last() {
        Some(part) => part.name(text),
        None => "",
    }
}
