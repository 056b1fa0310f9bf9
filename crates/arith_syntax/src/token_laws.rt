//! Laws of tokens, which rest on their definition alone. Each is the contract of a function that does nothing.

ghost use Rattle.arith_syntax.specs.TokenLaws.{TextsHaveOneLexing, TokensAreNowhereWrong, TextsHaveOneWrongPlace};

/// A text is only one list of tokens.
pub fn law_one_lexing()
    ensures { TextsHaveOneLexing }
{}

/// A text that is tokens is wrong nowhere.
pub fn law_tokens_are_nowhere_wrong()
    ensures { TokensAreNowhereWrong }
{}

/// A text is wrong at one place at most.
pub fn law_one_wrong_place()
    ensures { TextsHaveOneWrongPlace }
{}
