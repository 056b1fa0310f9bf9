//! Laws of the grammar, which rest on its definitions alone. Each is the contract of a function that does nothing.

ghost use Rattle.arith_syntax.specs.Once.{HasOneReading};
ghost use Rattle.arith_syntax.specs.Parsing.{HaveOneTree};

/// The grammar is unambiguous: no tokens are spelled by two statements.
pub fn law_one_tree()
    ensures { HaveOneTree }
{}

/// A text means one thing: as a cell, trees or a fault, and as one statement, a tree or a fault.
pub fn law_one_reading()
    ensures { HasOneReading }
{}
