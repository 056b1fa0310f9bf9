//! What tests of workers and of kernels ask, and how they read what comes of it.
#![tactic(auto)]

mod asking;
mod opening;
mod pair;
mod stamp;
mod text;

pub use asking::{ASKED, SHUTDOWN, ask, frames_of, put, request_frames, send};
pub use opening::open_three;
pub use pair::both;
pub use stamp::{DATE, OneDate};
pub use text::{INFO, INTERRUPTED, due_message, due_text, frames_text};
