//! What one request makes of a kernel: the course of its cell, its publications between busy and idle, and its reply,
//! over any interpreter and any sink.
#![tactic(auto)]

mod asked;
mod block;
mod cell;
mod does;
mod engine;
mod engine_end;
mod execute;
mod expressions;
mod fault;
mod handled;
mod heading;
mod laws;
mod open_block;
mod parts;
mod pending;
mod publishing;
mod respond;
mod response;
mod side;
mod stop;
mod words;

pub use asked::{Asked, Done, Unread};
pub use does::{Does, Look, Order, comes_to};
pub use engine::Engine;
pub use engine_end::EngineEnd;
pub use fault::EngineFault;
pub use handled::Handled;
pub use heading::Heading;
pub use laws::law_one_course;
pub use parts::Parts;
pub use publishing::{Body, Publishing};
pub use respond::{Answered, read_does};
pub use response::Response;
pub use side::Side;
pub use stop::Stop;
