//! The tokens of a text.

ghost use Rattle.std.specs.Prelude.{◌≡◌};
ghost use Rattle.arith_syntax.specs.Reading.{is_operator, is_semicolon};

use crate::operator::{AssignmentOperator, BinaryOperator};
use listed::Text;

/// A token of a text.
#[derive(Debug, Drop)]
pub enum Token {
    /// A constant; one that was read from a text is at most 2^63 - 1.
    Constant(u64),
    /// A name: ASCII letters, digits and `_`, the first of them no digit.
    Name(Text),
    /// The sign of an operator between two operands. `+` and `-` stand in front of one operand, too.
    Operator(BinaryOperator),
    /// The sign of an operator that assigns to a name.
    Assign(AssignmentOperator),
    /// `~`
    Complement,
    /// `!`
    Not,
    /// `++`, which no rule of the grammar uses.
    Increment,
    /// `--`, which no rule of the grammar uses.
    Decrement,
    /// `?`
    Question,
    /// `:`
    Colon,
    /// `(`
    Open,
    /// `)`
    Close,
    /// `;`, which ends a statement of a cell.
    Semicolon,
}

/// A token and the number of code points that stand before it in its text.
#[derive(Debug, Drop)]
pub struct Placed {
    /// The token.
    pub token: Token,
    /// How many code points stand before it.
    pub place: u64,
}

impl Token {
    /// Whether this is neither a name nor a constant.
    pub fn is_operator(&self) -> bool
        ensures { result ≡ is_operator self.now }
    {
        !matches!(self, Token::Constant(_) | Token::Name(_))
    }

    /// Whether this is `;`.
    pub fn is_semicolon(&self) -> bool
        ensures { result ≡ is_semicolon self.now }
    {
        matches!(self, Token::Semicolon)
    }
}
