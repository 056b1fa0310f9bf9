//! ZMTP connections with peers: shaking hands, hearing what a peer says, and answering it, over any inlet and outlet.
#![tactic(auto)]

mod echoing;
mod end;
mod fault;
mod hearing;
mod laws;
mod listening;
mod responding;
mod server;
mod serving;
mod shaking;
mod turn;

pub use echoing::echo;
pub use end::{ConnectionEnd, Ending};
pub use fault::ConnectionFault;
pub use hearing::{Intake, hear};
pub use laws::{law_one_serving, law_open_or_turned_away};
pub use listening::{Listener, listen};
pub use server::{Answered, Server};
pub use serving::serve;
pub use shaking::{OpenPeer, shake};
