//! A kernel on its four ports: what jupyter's programs connect to over TCP, in threads round the running kernel.
#![tactic(auto)]

mod ending;
mod fault;
mod parent;
mod ports;
mod serving;

pub use fault::{Port, ServeFault};
pub use parent::Until;
pub use serving::{Interpreters, Served, serve};
