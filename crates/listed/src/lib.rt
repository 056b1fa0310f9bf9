//! Owned values that contracts see as plain lists.
//!
//! A `Vec` or a `String` carries its place in memory and its capacity, so two of them with the same items
//! aren't the same value to a contract. The types here hold one each and forget all but the items: an enum
//! or a struct made of them is compared as plain data. Making one and giving it back takes no memory.
#![tactic(auto)]

mod frames;
mod octets;
mod row;
mod text;

pub use frames::Frames;
pub use octets::Octets;
pub use row::Row;
pub use text::Text;

#[cfg(test)]
mod tests;
