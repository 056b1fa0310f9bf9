//! One request of shell or control: looked at, handled, and replied to.

ghost use Rattle.std.specs.Prelude.{◌≡◌, None};
ghost use Rattle.iopub_queue.specs.Entries.{StandsBehind, part_of};
ghost use Rattle.kernel_workers.specs.Causes.{cause_of, cause_of_fault, cause_of_order};
ghost use Rattle.kernel_workers.specs.Ending.{EndsBlocked, closed_list};
ghost use Rattle.kernel_workers.specs.Outcomes.{Records, outcome_of};

use crate::ended::Cause;
use crate::outcomes::{Outcome, Outcomes};
use crate::waking::Waking;
use interp_core::Interpreter;
use iopub_event::Event;
use iopub_queue::Closed;
use jmsg_envelope::Stamp;
use kernel_engine::{Done, Engine, EngineFault, Order, Response};
use kernel_jobs::ReplyTo;
use std::sync::Wait;

/// Answers a message that was taken by what became of it, and says whether that ends the worker.
pub(crate) fn conclude<R: Wait>(
    rt: &R,
    done: Done,
    to: ReplyTo,
    outcomes: &mut Outcomes,
) -> Option<Cause>
    ensures cause { result ≡ cause_of done }
    ensures records { Records to (outcome_of done) outcomes.old outcomes.new }
{
    match done {
        Done::Ignored => {
            outcomes.record(rt, to, Outcome::NoRequest);
            None
        }
        Done::Lost => {
            outcomes.record(rt, to, Outcome::NoMemory);
            None
        }
        Done::Handled(Response { reply, order }) => {
            outcomes.record(rt, to, Outcome::replied(reply));
            after_order(order)
        }
        Done::Refused(fault) => {
            outcomes.record(rt, to, Outcome::Refused);
            after_fault(fault)
        }
    }
}

/// Whether an order ends the worker.
fn after_order(order: Order) -> Option<Cause>
    ensures { result ≡ cause_of_order order }
{
    match order {
        Order::GoOn | Order::Interrupt => None,
        Order::End { restart } => Some(Cause::Shutdown { restart }),
    }
}

/// Whether a fault of the engine ends the worker.
fn after_fault(fault: EngineFault) -> Option<Cause>
    ensures { result ≡ cause_of_fault fault }
{
    let cause = match &fault {
        EngineFault::Worn => Some(Cause::Worn),
        EngineFault::OwedIdle(_) | EngineFault::Memory => None,
    };
    drop(fault);
    cause
}

/// Ends an engine, and closes its publisher.
pub(crate) fn close<I, S, W, R>(engine: Engine<I, Waking<Event<W>, R>, S, W>) -> Closed<Event<W>>
where
    I: Interpreter + Drop,
    I::Cell: Drop,
    S: Stamp + Drop,
    W: Drop,
    R: Wait + Drop,
    ensures blocked { EndsBlocked I.meaning S.stamp engine result }
    ensures list { result.published ≡ closed_list engine }
    ensures own { part_of result.number result.told ≡ result.published }
    ensures behind { engine.owed ≡ None
        → StandsBehind result.told (engine.publishing.sink.number, None) engine.publishing.sink.told }
{
    let parts = engine.close().into_parts();
    drop(parts.interp);
    drop(parts.owed);
    let publishing = parts.publishing;
    drop(publishing.signer);
    drop(publishing.stamp);
    publishing.sink.close()
}
