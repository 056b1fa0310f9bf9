//! What came of a request.

ghost use Rattle.std.specs.Prelude.{◌≡◌};
ghost use Rattle.kernel_engine.specs.Orders.{handled_of};

use crate::does::Order;
use crate::response::Response;
use listed::Frames;

/// What came of a request that was handled.
#[derive(Debug, Drop)]
pub struct Handled {
    /// The frames of its reply, if it has one.
    pub reply: Option<Frames>,
    /// Whether the kernel is to end.
    pub end: bool,
    /// Whether the kernel is to begin anew then.
    pub restart: bool,
    /// Whether the cell that runs is to be interrupted.
    pub interrupt: bool,
}

impl Handled {
    /// What came of a request that has this response.
    pub(crate) fn of(response: Response) -> Handled
        ensures { result ≡ handled_of response }
    {
        let Response { reply, order } = response;
        let (end, restart, interrupt) = match order {
            Order::GoOn => (false, false, false),
            Order::Interrupt => (false, false, true),
            Order::End { restart } => (true, restart, false),
        };
        Handled {
            reply,
            end,
            restart,
            interrupt,
        }
    }
}
