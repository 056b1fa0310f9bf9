//! The queue between the publishers of a kernel's publications and the one that takes them. In every schedule of its
//! threads, what was taken of each publisher is a beginning of what that published, in its order. Once the taker says
//! that it is complete, it is all of that. Here is also the interface by which anybody publishes, with a sink that
//! keeps a list.
#![tactic(auto)]

mod closed;
mod fault;
mod laws;
mod line;
mod list_sink;
mod open;
mod plain_core;
mod publish;
mod publish_after;
mod publisher;
mod refused;
mod rule;
mod taken;
mod taker;
mod view;
mod word;

pub use closed::Closed;
pub use fault::OpenFault;
pub use laws::law_stands_behind;
pub use list_sink::ListSink;
pub use open::open_queue;
pub use plain_core::{CoreEvent, CoreFault, CoreState, run_core};
pub use publish::Publish;
pub use publish_after::PublishAfter;
pub use publisher::Publisher;
pub use refused::Refused;
pub use taken::{Settled, Taken};
pub use taker::Taker;
pub use word::Word;
