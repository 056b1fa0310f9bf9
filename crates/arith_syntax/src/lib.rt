//! The grammar of POSIX shell arithmetic: from a text to tokens, and from tokens to the trees of statements.
#![tactic(auto)]

mod constant;
mod cutting;
mod fault;
mod laws;
mod lexer;
mod mark;
mod octet;
mod operator;
mod parser;
mod part;
mod parts;
mod reading;
mod sign;
mod spelled;
mod stream;
mod token;
mod token_laws;
mod trees;

pub use fault::ReadFault;
pub use laws::{law_one_reading, law_one_tree};
pub use lexer::{tokens, word_at};
pub use operator::{AssignmentOperator, BinaryOperator, UnaryOperator};
pub use part::{Part, name_of, parts_before};
pub use parts::{AssignmentRef, Parts, PartsRef};
pub use reading::{read_cell, read_statement};
pub use token::{Placed, Token};
pub use token_laws::{law_one_lexing, law_one_wrong_place, law_tokens_are_nowhere_wrong};
pub use trees::Trees;
