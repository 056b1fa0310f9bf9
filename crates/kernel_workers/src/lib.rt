//! A running kernel. Its workers are shell, control, subscriptions and the relay, each in a thread of its own. Shell
//! and control leave their engines, and subscriptions the closing token of its publisher, each as its promise says,
//! also after a join. So the kernel's end can say what was published, and what each subscriber got.
#![tactic(auto)]

mod control;
mod draining;
mod ended;
mod ending;
mod fault;
mod flags;
mod kernel_end;
mod outcomes;
mod parts;
mod promises;
mod relaying;
mod request;
mod running;
mod shell;
mod shutdown;
mod subscriptions;
mod waking;
mod work;
mod working;

pub use control::{ControlWorker, ShellEnd};
pub use ended::{Asking, Cause, Ended};
pub use fault::KernelFault;
pub use flags::Flags;
pub use kernel_end::{KernelEnd, KernelWork, WorkDone};
pub use outcomes::{Answer, Answers, Outcome, Outcomes};
pub use parts::Parts;
pub use promises::{ClosesSilent, LeavesWork, ServesOn};
pub use relaying::{RelayEnd, RelayWorker};
pub use running::run_kernel;
pub use shell::ShellWorker;
pub use shutdown::{Shutdown, ShutdownEnd, shutdown_order};
pub use subscriptions::{SubscriptionsEnd, SubscriptionsWorker};
pub use waking::Waking;
pub use work::Work;
