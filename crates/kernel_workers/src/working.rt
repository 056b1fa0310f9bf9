//! The work of shell and of control: one loop over what differs between the two.

ghost use Rattle.std.specs.Prelude.{Some};
ghost use Rattle.iopub_queue.specs.Sink.{publisher_sink};
ghost use Rattle.kernel_engine.specs.World.{world_of};
ghost use Rattle.kernel_workers.specs.Jobs.{DoesJob, Doing, TakesTurn, TakesTurns};
ghost use Rattle.kernel_workers.specs.Staying.{IsSameEngine};

use crate::ended::Cause;
use crate::work::Work;
use interp_core::Interpreter;
use jmsg_envelope::Stamp;
use kernel_jobs::Job;
use std::alloc::Global;
use std::sync::Wait;

/// How a worker answers the messages of its inbox: what differs between shell and control.
pub(crate) trait Answering {
    /// Whether a message may be left undone, a request for a shutdown left for later, and a cell interrupted.
    ghost may: { Doing };

    /// Does a job, and sends its reply; answers why the worker ends, if it does.
    fn answer<I, S, W, R>(
        &self,
        rt: &R,
        alloc: Global,
        work: &mut Work<I, S, W, R>,
        job: Job,
    ) -> Option<Cause>
    where
        I: Interpreter,
        S: Stamp,
        W: Drop,
        R: Wait,
        ensures does { DoesJob (world_of I.meaning publisher_sink S.stamp) may job.frames work.old result work.new }
        ensures same { IsSameEngine S.stamp work.old.engine work.new.engine };
}

/// Does the jobs of an inbox one after the other, until something ends that.
pub(crate) fn work<I, S, W, R, A>(
    rt: &R,
    alloc: Global,
    work: &mut Work<I, S, W, R>,
    answering: &A,
) -> Cause
where
    I: Interpreter,
    S: Stamp,
    W: Drop,
    R: Wait,
    A: Answering,
    ensures turns { TakesTurns (world_of I.meaning publisher_sink S.stamp) A.may work.old (Some result) work.new }
    ensures same { IsSameEngine S.stamp work.old.engine work.new.engine }
{
    for _ in rt.forever() {
        match take_turn(rt, alloc, work, answering) {
            Some(cause) => return cause,
            None => {}
        }
    }
    unreachable!()
}

/// Waits for the next job of an inbox, and does it; answers why the worker ends, if it does.
fn take_turn<I, S, W, R, A>(
    rt: &R,
    alloc: Global,
    work: &mut Work<I, S, W, R>,
    answering: &A,
) -> Option<Cause>
where
    I: Interpreter,
    S: Stamp,
    W: Drop,
    R: Wait,
    A: Answering,
    ensures turn { TakesTurn (world_of I.meaning publisher_sink S.stamp) A.may work.old result work.new }
    ensures same { IsSameEngine S.stamp work.old.engine work.new.engine }
{
    match work.inbox.next(rt) {
        Some(job) => answering.answer(rt, alloc, work, job),
        None => Some(Cause::Told),
    }
}
