//! What a server lets its peers have, hold and take: limits, and the values that decide by them. Nothing here knows a
//! socket, a thread or a lock; time is handed in, in milliseconds since some beginning.
#![tactic(auto)]

mod asking;
mod chunk;
mod credit;
mod grace;
mod handover;
mod kept;
pub mod limits;
mod meter;
mod pace;
mod parent;
mod place;
mod share;
mod topic_count;
mod unfinished;

pub use asking::is_sent_by_clients;
pub use chunk::Chunk;
pub use credit::may_read;
pub use grace::{grace_left, waits_on};
pub use handover::{Claim, Holder, is_awaited, takes_over};
pub use kept::Kept;
pub use meter::Meter;
pub use pace::{Pace, Waste};
pub use parent::looked_after;
pub use place::{Place, place_of};
pub use share::{most_of, share_excess, share_of};
pub use topic_count::{TopicCount, is_told, may_ask, may_hold};
pub use unfinished::{Part, is_overfull};
