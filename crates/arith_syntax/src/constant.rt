//! The number that a constant stands for.

ghost use Rattle.std.specs.Prelude.{◌≡◌, ◌+◌, ◌*◌, ◌^◌, ◌<◌, ◌≤◌, slice_index, MatchOption, SomeIff};
ghost use Rattle.arith_syntax.specs.Tokens.{digit_value};
ghost use Rattle.arith_syntax.specs.Lexed.{IsDigitOf, ReadsNumber, ReadsConstant};

use crate::octet::octet_at;

/// The greatest constant, 2^63 - 1.
const GREATEST: u64 = 0x7FFF_FFFF_FFFF_FFFF;

/// The constant that a word is: decimal, octal behind `0` or hexadecimal behind `0x`, and at most 2^63 - 1.
#[inline(always)]
pub(crate) fn constant(word: &[u8]) -> Option<u64>
    ensures { ReadsConstant word.now result }
{
    match octet_at(word, 0) {
        b'0' => behind_zero(word),
        b'1'..=b'9' => number(word, 10),
        _ => None,
    }
}

/// The constant that a word is which begins with `0`.
fn behind_zero(word: &[u8]) -> Option<u64>
    requires { slice_index word.now 0 ≡ 48 }
    ensures { ReadsConstant word.now result }
{
    let mark = octet_at(word, 1);
    if mark != b'x' && mark != b'X' {
        return number(&word[1..], 8);
    }
    if word.len() == 2 {
        None
    } else {
        number(&word[2..], 16)
    }
}

/// What digits are worth to a base, if each is a digit of it and the number is at most 2^63 - 1.
fn number(digits: &[u8], base: u64) -> Option<u64>
    requires least { 1 ≤ base }
    requires greatest { base ≤ 16 }
    ensures { ReadsNumber base digits.now result }
{
    let mut value = 0;
    for octet in digits {
        let worth = digit(*octet, base)?;
        value = with_digit(value, base, worth)?;
    }
    Some(value)
}

/// What a number and one more digit are worth, if that is at most 2^63 - 1.
fn with_digit(value: u64, base: u64, worth: u64) -> Option<u64>
    ensures { SomeIff result (value * base + worth < 2 ^ 63) (value * base + worth) }
{
    let next = value.checked_mul(base)?.checked_add(worth)?;
    if next <= GREATEST { Some(next) } else { None }
}

/// What a digit is worth, if it is one of the base.
fn digit(octet: u8, base: u64) -> Option<u64>
    ensures { MatchOption result (IsDigitOf base octet → ⊥)
        (λ worth. (worth ≡ digit_value octet) × IsDigitOf base octet) }
{
    let worth = match octet {
        b'0'..=b'9' => octet - b'0',
        b'A'..=b'F' => octet - b'A' + 10,
        b'a'..=b'f' => octet - b'a' + 10,
        _ => return None,
    };
    let worth = u64::from(worth);
    if worth < base { Some(worth) } else { None }
}
