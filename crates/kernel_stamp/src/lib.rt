//! The ids and dates of a kernel's messages.
#![tactic(auto)]

mod stamp;

pub use stamp::{KernelStamp, can_be_read, is_utc_date};
