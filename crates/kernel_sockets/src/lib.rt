//! The sockets of a kernel: what is read of them and written to them, within what a server lets its peers have.
#![tactic(auto)]

mod bell;
mod gate;
mod guest;
mod hearing;
mod outgoing;
mod reader;
mod server;
mod shared_writer;
mod socket;

pub use gate::{Gate, Standing};
pub use guest::Guest;
pub use hearing::{hear_out, is_named_well};
pub use outgoing::{Outgoing, SocketWriter};
pub use reader::{Gauge, Reader};
pub use server::Server;
pub use shared_writer::{SharedWriter, pong_to, write_whole};
pub use socket::Socket;
