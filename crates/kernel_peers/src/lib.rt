//! The peers of a kernel's ports: accepting them, and what each is served with, in threads of its own.
#![tactic(auto)]

mod accepting;
mod asking;
mod connection;
mod heartbeat;
mod holding;
mod mailbox;
mod mailboxes;
mod service;
mod subscriber;

pub use accepting::{ServedPort, accept_all};
pub use connection::Channel;
pub use service::Service;
pub use subscriber::{SubscriptionsInbox, Writer};
