//! What a relay takes: messages, and what its subscribers come, ask for and leave by.
#![tactic(auto)]

mod event;

pub use event::Event;
