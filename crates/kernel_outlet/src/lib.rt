//! What a subscriber is written by: what was put, what its socket has accepted of that, and what is
//! kept meanwhile. Nothing here waits, and nothing knows a thread or a lock.
#![tactic(auto)]

mod laws;
mod pipe;
mod spout;

pub use laws::law_socket_is_fed;
pub use pipe::{Flushed, Pipe};
pub use spout::{Sent, Spout};
