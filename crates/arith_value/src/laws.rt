//! Laws of values, which rest on their definitions alone. Each is the contract of a function that does nothing.

ghost use Rattle.arith_value.specs.Own.{ValuesAreOwn};

/// What an expression is worth is a number, or a fault of arithmetic: want of memory is the program's alone.
pub fn law_values_are_their_own()
    ensures { ValuesAreOwn }
{}
