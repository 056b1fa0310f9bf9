//! The connection file that a Jupyter server hands to a kernel ('Jupyter Client', "Making kernels for Jupyter",
//! "Connection files"), and the definition of what a kernelspec starts ("Kernel specs").
#![tactic(auto)]

mod connection;
mod fault;
mod field;

pub use connection::{Connection, read_connection};
pub use fault::ConnFault;
pub use field::Field;
