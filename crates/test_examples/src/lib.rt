//! Worked examples of engines, whole: over shell arithmetic and over a language of a few lines, sinks that refuse, and
//! stops that say yes. What they have to publish and to reply is told by 'Messaging in Jupyter' 5.3, and not by the
//! engine.
#![tactic(auto)]

mod after;
mod asking;
mod letters;
mod refusing;
mod scarce;

pub use after::After;
pub use asking::request;
pub use letters::{Letters, Waiting};
pub use refusing::Refusing;
pub use scarce::{DATE, Scarce};
