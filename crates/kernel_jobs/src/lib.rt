//! What the threads of a kernel hand each other: jobs of shell and control, the inboxes that they come in by, where
//! their replies go, and what of a connection is in work.
#![tactic(auto)]

mod arrivals;
mod credit;
mod inbox;
mod job;

pub use arrivals::Arrivals;
pub use credit::{Account, Credit};
pub use inbox::{Inbox, Note, is_gone, tell};
pub use job::{Job, ReplyMessage, ReplyTo};
