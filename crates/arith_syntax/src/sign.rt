//! The sign that a text begins with.

ghost use Rattle.std.specs.Prelude.{◌≡◌, [], ◌∷◌, ◌≢◌, true, Some, None, MatchOption};
ghost use Rattle.arith_syntax.specs.Lexed.{SpellsSign, StandsAlone, BeginsWithSign};

use crate::octet::octet_at;
use crate::operator::{AssignmentOperator, BinaryOperator};
use crate::spelled::Spelled;
use crate::token::Token;

/// The longest sign that a text begins with.
#[inline(always)]
pub(crate) fn sign(text: &[u8]) -> Option<Spelled>
    ensures { BeginsWithSign text.now result }
{
    let first = octet_at(text, 0);
    let second = octet_at(text, 1);
    let third = octet_at(text, 2);
    if stands_alone(first, second) {
        return short(first);
    }
    if let Some(token) = three(first, second, third) {
        return Some(Spelled { token, size: 3 });
    }
    if let Some(token) = two(first, second) {
        return Some(Spelled { token, size: 2 });
    }
    short(first)
}

/// Whether no sign of two or three characters begins with these two, as is so of most. A false answer says nothing.
#[inline(always)]
fn stands_alone(first: u8, second: u8) -> bool
    ensures { result ≡ true → StandsAlone first second }
{
    second != b'=' && second != first
}

/// The sign of one character, with its size.
#[inline(always)]
fn short(first: u8) -> Option<Spelled>
    ensures { MatchOption result (SpellsSign (first ∷ []) None)
        (λ spelled. (spelled.size ≡ 1) × SpellsSign (first ∷ []) (Some spelled.token)) }
{
    match one(first) {
        Some(token) => Some(Spelled { token, size: 1 }),
        None => None,
    }
}

/// The sign of three characters.
#[inline(always)]
fn three(first: u8, second: u8, third: u8) -> Option<Token>
    ensures { SpellsSign (first ∷ second ∷ third ∷ []) result }
{
    if first != second || third != b'=' {
        return None;
    }
    match first {
        b'<' => Some(Token::Assign(AssignmentOperator::ShiftLeft)),
        b'>' => Some(Token::Assign(AssignmentOperator::ShiftRight)),
        _ => None,
    }
}

/// The sign of two characters.
#[inline(always)]
fn two(first: u8, second: u8) -> Option<Token>
    ensures { SpellsSign (first ∷ second ∷ []) result }
{
    if second == b'=' {
        before_equals(first)
    } else if second == first {
        doubled(first)
    } else {
        None
    }
}

/// The sign of a character and `=`.
fn before_equals(first: u8) -> Option<Token>
    ensures { SpellsSign (first ∷ 61 ∷ []) result }
{
    match first {
        b'<' => Some(Token::Operator(BinaryOperator::LessOrEqual)),
        b'>' => Some(Token::Operator(BinaryOperator::GreaterOrEqual)),
        b'=' => Some(Token::Operator(BinaryOperator::Equal)),
        b'!' => Some(Token::Operator(BinaryOperator::NotEqual)),
        b'+' => Some(Token::Assign(AssignmentOperator::Add)),
        b'-' => Some(Token::Assign(AssignmentOperator::Subtract)),
        b'*' => Some(Token::Assign(AssignmentOperator::Multiply)),
        b'/' => Some(Token::Assign(AssignmentOperator::Divide)),
        b'%' => Some(Token::Assign(AssignmentOperator::Remainder)),
        b'&' => Some(Token::Assign(AssignmentOperator::BitAnd)),
        b'^' => Some(Token::Assign(AssignmentOperator::BitXor)),
        b'|' => Some(Token::Assign(AssignmentOperator::BitOr)),
        _ => None,
    }
}

/// The sign of a character that stands twice.
fn doubled(first: u8) -> Option<Token>
    requires { first ≢ 61 }
    ensures { SpellsSign (first ∷ first ∷ []) result }
{
    match first {
        b'<' => Some(Token::Operator(BinaryOperator::ShiftLeft)),
        b'>' => Some(Token::Operator(BinaryOperator::ShiftRight)),
        b'&' => Some(Token::Operator(BinaryOperator::And)),
        b'|' => Some(Token::Operator(BinaryOperator::Or)),
        b'+' => Some(Token::Increment),
        b'-' => Some(Token::Decrement),
        _ => None,
    }
}

/// The sign of one character.
#[inline(always)]
fn one(first: u8) -> Option<Token>
    ensures { SpellsSign (first ∷ []) result }
{
    match first {
        b'*' => Some(Token::Operator(BinaryOperator::Multiply)),
        b'/' => Some(Token::Operator(BinaryOperator::Divide)),
        b'%' => Some(Token::Operator(BinaryOperator::Remainder)),
        b'+' => Some(Token::Operator(BinaryOperator::Add)),
        b'-' => Some(Token::Operator(BinaryOperator::Subtract)),
        b'<' => Some(Token::Operator(BinaryOperator::Less)),
        b'>' => Some(Token::Operator(BinaryOperator::Greater)),
        b'&' => Some(Token::Operator(BinaryOperator::BitAnd)),
        b'^' => Some(Token::Operator(BinaryOperator::BitXor)),
        b'|' => Some(Token::Operator(BinaryOperator::BitOr)),
        b'=' => Some(Token::Assign(AssignmentOperator::Assign)),
        b'~' => Some(Token::Complement),
        b'!' => Some(Token::Not),
        b'?' => Some(Token::Question),
        b':' => Some(Token::Colon),
        b'(' => Some(Token::Open),
        b')' => Some(Token::Close),
        b';' => Some(Token::Semicolon),
        _ => None,
    }
}
