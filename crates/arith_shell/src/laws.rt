//! Laws of the words at a cursor, which rest on definitions alone. Each is the contract of a function that does
//! nothing.

ghost use Rattle.arith_shell.specs.WordLaws.{WordsAreTokens};

/// The words at a cursor are made of the characters that names and constants are made of.
pub fn law_words_are_tokens()
    ensures { WordsAreTokens }
{}
