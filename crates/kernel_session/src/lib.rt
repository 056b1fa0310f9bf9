//! Sessions of an engine with a peer of the shell channel, over any inlet and outlet.
#![tactic(auto)]

mod end;
mod laws;
mod working;

pub use end::SessionEnd;
pub use laws::{law_one_session, law_session_stays};
pub use working::session;
