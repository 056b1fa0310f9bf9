//! A list that only contracts read: what happened, in order.
#![tactic(auto)]

mod log;

pub use log::Log;
