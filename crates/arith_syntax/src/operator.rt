//! The operators, and how strongly they bind.

ghost use Rattle.std.specs.Prelude.{◌≡◌};
ghost use Rattle.arith_syntax.specs.Grammar.{operator_level};

/// The operators that stand between two operands.
#[derive(Clone, Copy, PartialEq, Eq, Debug)]
pub enum BinaryOperator {
    /// `*`
    Multiply,
    /// `/`
    Divide,
    /// `%`
    Remainder,
    /// `+`
    Add,
    /// `-`
    Subtract,
    /// `<<`
    ShiftLeft,
    /// `>>`
    ShiftRight,
    /// `<`
    Less,
    /// `<=`
    LessOrEqual,
    /// `>`
    Greater,
    /// `>=`
    GreaterOrEqual,
    /// `==`
    Equal,
    /// `!=`
    NotEqual,
    /// `&`
    BitAnd,
    /// `^`
    BitXor,
    /// `|`
    BitOr,
    /// `&&`
    And,
    /// `||`
    Or,
}

/// The operators that stand in front of one operand.
#[derive(Clone, Copy, PartialEq, Eq, Debug)]
pub enum UnaryOperator {
    /// `+`
    Plus,
    /// `-`
    Minus,
    /// `~`
    Complement,
    /// `!`
    Not,
}

/// The operators that assign to a name.
#[derive(Clone, Copy, PartialEq, Eq, Debug)]
pub enum AssignmentOperator {
    /// `=`
    Assign,
    /// `+=`
    Add,
    /// `-=`
    Subtract,
    /// `*=`
    Multiply,
    /// `/=`
    Divide,
    /// `%=`
    Remainder,
    /// `<<=`
    ShiftLeft,
    /// `>>=`
    ShiftRight,
    /// `&=`
    BitAnd,
    /// `^=`
    BitXor,
    /// `|=`
    BitOr,
}

impl BinaryOperator {
    /// The level of the operator, the strongest first: 2 for `*` `/` `%`, 3 for `+` `-`, 4 for shifts, 5 for relations,
    /// 6 for equalities, 7, 8 and 9 for `&`, `^` and `|`, 10 for `&&`, 11 for `||`.
    pub fn level(self) -> u8
        ensures { result ≡ operator_level self }
    {
        match self {
            BinaryOperator::Multiply | BinaryOperator::Divide | BinaryOperator::Remainder => 2,
            BinaryOperator::Add | BinaryOperator::Subtract => 3,
            BinaryOperator::ShiftLeft | BinaryOperator::ShiftRight => 4,
            BinaryOperator::Less
            | BinaryOperator::LessOrEqual
            | BinaryOperator::Greater
            | BinaryOperator::GreaterOrEqual => 5,
            BinaryOperator::Equal | BinaryOperator::NotEqual => 6,
            BinaryOperator::BitAnd => 7,
            BinaryOperator::BitXor => 8,
            BinaryOperator::BitOr => 9,
            BinaryOperator::And => 10,
            BinaryOperator::Or => 11,
        }
    }
}
