//! A replay: one peer of the shell channel, whose octets come as hexadecimal text, and the lines of its session.
#![tactic(auto)]

mod input;
mod laws;
mod lines;
mod replay;
mod stamp;

pub use input::{HexFault, HexRefusal};
pub use laws::law_one_text;
pub use lines::write_out;
pub use replay::{ReplayFault, answer_octets, answer_peer, read_hex, read_octets};
