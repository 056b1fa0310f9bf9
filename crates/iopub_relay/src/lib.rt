//! What a relay takes: messages, and what its subscribers come, ask for and leave by; and what each subscriber gets.
#![tactic(auto)]

mod buffered;
mod concluding;
mod door;
mod feed;
mod laws;
mod relay;
mod subscriber;
mod table;
mod topics;

pub use buffered::{Buffered, Rest};
pub use door::door_event;
pub use feed::feed_core;
pub use iopub_event::Event;
pub use laws::{
    law_life_is_since_it_came, law_matching_is_beginning, law_subscriber_of_everything,
};
pub use relay::{Drain, Pumped, Relay};
pub use topics::Topics;
