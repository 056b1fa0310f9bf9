//! What a client may ask of a kernel, and what it is answered: the contents of messages, as JSON
//! ('Messaging in Jupyter' 5.3).
//!
//! `read_request` reads a content as the request that it means, and says what is wrong with any other.
//! `content_of` and `content_of_publication` write replies and publications.
#![tactic(auto)]

mod content;
mod fault;
mod field;
mod laws;
mod message_type;
mod publication;
mod reply;
mod request;

pub use fault::{ContentFault, content_words};
pub use laws::{law_each_type_is_found, law_replies_are_named_for_requests};
pub use message_type::{Columns, ErrorForm, Heard, MessageType, reply_type};
pub use publication::{
    Publication, State, buffers_of, content_of_publication, content_text_of_publication, topic_of,
    type_of,
};
pub use reply::{Reply, Shown, Verdict, content_of, content_text};
pub use request::{Request, read_known, read_request};
