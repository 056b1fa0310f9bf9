//! Parts without their numbers.

ghost use Rattle.std.specs.Prelude.{◌≡◌, ℕ, List, MatchOption, false};
ghost use Rattle.arith_syntax.specs.declared.mark.Mark.TheVariants.{Assignment};
ghost use Rattle.arith_syntax.specs.declared.part.Part.{Part};
ghost use Rattle.arith_syntax.specs.Grammar.{Tree};
ghost use Rattle.arith_syntax.specs.Machine.{IsNameOf};
ghost use Rattle.arith_syntax.specs.Packed.{is_assignment_mark, mark_of};
ghost use Rattle.arith_syntax.specs.Parts.{grown, last};

use crate::operator::{AssignmentOperator, BinaryOperator, UnaryOperator};

/// Among which numbers one is kept.
#[derive(Clone, Copy)]
pub(crate) enum Width {
    /// Those below 2^32.
    Narrow,
    /// The others.
    Wide,
}

/// A part without its number.
#[derive(Clone, Copy)]
pub(crate) enum Mark {
    /// A constant.
    Constant(Width),
    /// A variable.
    Variable(Width),
    /// Parentheses.
    Group,
    /// An operator in front of its operand.
    Unary(UnaryOperator),
    /// An operator behind its operands.
    Binary(BinaryOperator),
    /// `?` and `:`.
    Conditional,
    /// An operator that assigns.
    Assignment(AssignmentOperator),
}

impl Mark {
    /// Whether a tree that ends with the part is a name.
    pub(crate) fn is_variable(self) -> bool
        ensures { (part : Part) → mark_of part ≡ self
            → (text : List ℕ) (trees : List Tree) → IsNameOf (last (grown text part trees)) result }
    {
        match self {
            Mark::Variable(_) => true,
            Mark::Constant(_)
            | Mark::Group
            | Mark::Unary(_)
            | Mark::Binary(_)
            | Mark::Conditional
            | Mark::Assignment(_) => false,
        }
    }

    /// The operator of an assignment; none of another part.
    #[inline(always)]
    pub(crate) fn assignment(self) -> Option<AssignmentOperator>
        ensures { MatchOption result (is_assignment_mark self ≡ false) (λ operator. self ≡ Assignment operator) }
    {
        match self {
            Mark::Assignment(operator) => Some(operator),
            Mark::Constant(_)
            | Mark::Variable(_)
            | Mark::Group
            | Mark::Unary(_)
            | Mark::Binary(_)
            | Mark::Conditional => None,
        }
    }
}
