//! Shell's worker.

ghost use Rattle.std.specs.Prelude.{◌≡◌, IfSome};
ghost use Rattle.iopub_queue.specs.Sink.{publisher_sink};
ghost use Rattle.kernel_engine.specs.World.{world_of};
ghost use Rattle.kernel_engine.specs.declared.side.Side.TheVariants.{Shell};
ghost use Rattle.kernel_workers.specs.Jobs.{LeavesJob, LeavesRest, TakesJob, doing_of};
ghost use Rattle.kernel_workers.specs.Starting.{Promises};
ghost use Rattle.kernel_workers.specs.Staying.{IsSameEngine};
ghost use Rattle.kernel_workers.specs.Works.{EngineStarts, WorksOff};

use crate::ended::{Cause, Ended};
use crate::flags::Flags;
use crate::outcomes::{Outcome, Outcomes};
use crate::promises::LeavesWork;
use crate::request::conclude;
use crate::waking::Waking;
use crate::work::Work;
use crate::working::{Answering, work};
use crossbeam_channel::Sender;
use interp_core::Interpreter;
use iopub_event::Event;
use jmsg_envelope::Stamp;
use kernel_engine::{Engine, Side};
use kernel_jobs::{Arrivals, Job, Note, tell};
use std::alloc::Global;
use std::snapshot::Snapshot;
use std::sync::Wait;
use std::thread::{Builder, PromisedHandle, Threads};

/// The octets of the stack of the thread that runs cells. A language may need 2 MiB for its deepest scripts; memory is
/// taken only as the stack is used.
const CELL_STACK: usize = 8 << 20;

/// Shell's worker: what it owns, what it hears, and whom it tells that it ends.
#[derive(Drop)]
pub struct ShellWorker<I: Interpreter, S: Stamp, W, R: Wait> {
    /// What handles its requests.
    pub engine: Engine<I, Waking<Event<W>, R>, S, W>,
    /// Its inbox.
    pub inbox: Arrivals<Job>,
    /// What control stops it by.
    pub flags: Flags,
    /// The inbox of control, which it ends unless control asked for its end.
    pub control: Sender<Note<Job>>,
}

impl<I, S, W, R> ShellWorker<I, S, W, R>
where
    I: Interpreter + Drop,
    I::Cell: Drop,
    S: Stamp + Drop,
    W: Drop,
    R: Wait + Drop,
{
    /// Publishes that the kernel starts, and does the jobs of its inbox one after the other. It goes on until it is
    /// told to end, a request asks for the end, all ids were given, or nobody is left who could tell it anything. Then
    /// others see that the kernel is to end, and control is told to, unless it was control that asked for the end.
    pub fn run(self, rt: R, alloc: Global) -> Ended<I, S, W, R>
        ensures works { WorksOff I.meaning S.stamp Shell self.engine self.inbox result }
        ensures same { IsSameEngine S.stamp self.engine result.work.engine }
    {
        let given = self.promise();
        let ShellWorker {
            mut engine,
            inbox,
            flags,
            control,
        } = self;
        let started = start(alloc, &mut engine);
        let mut at_hand = Work {
            engine,
            inbox,
            outcomes: Outcomes::new(),
        };
        let cause = work(&rt, alloc, &mut at_hand, &flags);
        let ended = Ended {
            work: at_hand,
            cause,
            started,
        };
        depart(&rt, flags, control, given, &ended);
        ended
    }

    /// What it promises, of what it is given.
    fn promise(&self) -> LeavesWork<I, S, W, R>
        ensures { Promises Shell self.now.engine self.now.inbox result }
    {
        LeavesWork {
            side: Side::Shell,
            engine: Snapshot::of(&self.engine),
            inbox: Snapshot::of(&self.inbox),
        }
    }
}

impl<I, S, W, R> ShellWorker<I, S, W, R>
where
    I: Interpreter + Drop + Send + 'static,
    I::Cell: Drop + Send + 'static,
    S: Stamp + Drop + Send + 'static,
    W: Drop + Send + 'static,
    R: Threads + Wait + Copy + Send + Sync + Drop + 'static,
{
    /// Runs it in a thread of its own, with a stack of 8 MiB. Beside the cells of a language what takes the most of one
    /// is JSON that nests as deep as may be, 127 deep: 96 KiB. None if no thread can be made; then the worker is
    /// dropped.
    pub fn spawn(
        self,
        rt: R,
        alloc: Global,
    ) -> Option<PromisedHandle<Ended<I, S, W, R>, LeavesWork<I, S, W, R>>>
        ensures { IfSome result (λ handle. Promises Shell self.engine self.inbox handle.promise) }
    {
        let promise = self.promise();
        let builder = Builder::new().stack_size(CELL_STACK);
        match builder.spawn_with(&rt, promise, move || self.run(rt, alloc)) {
            Ok(handle) => Some(handle),
            Err(refused) => {
                drop(refused);
                None
            }
        }
    }
}

/// Lets others see that the kernel is to end, as the worker has ended that was given this, and tells control to end,
/// unless it was control that asked for that.
fn depart<I, S, W, R>(
    rt: &R,
    flags: Flags,
    control: Sender<Note<Job>>,
    given: LeavesWork<I, S, W, R>,
    ended: &Ended<I, S, W, R>,
)
where
    I: Interpreter,
    S: Stamp,
    R: Wait,
    requires { WorksOff I.meaning S.stamp given.side given.engine.value given.inbox.value ended.now }
{
    let is_told = flags.is_ending();
    flags.end(&given, ended);
    drop(given);
    drop(flags);
    if !is_told {
        tell(rt, &control, Note::End);
    }
    drop(control);
}

/// Publishes that the kernel starts, and says whether it did. If memory is refused it isn't published, and shell goes
/// on.
fn start<I, S, W, R>(alloc: Global, engine: &mut Engine<I, Waking<Event<W>, R>, S, W>) -> bool
where
    I: Interpreter,
    S: Stamp,
    W: Drop,
    R: Wait,
    ensures starts { EngineStarts I.meaning S.stamp engine.old result engine.new }
    ensures same { IsSameEngine S.stamp engine.old engine.new }
{
    match engine.start(alloc) {
        Ok(()) => true,
        Err(fault) => {
            drop(fault);
            false
        }
    }
}

/// Once its end was asked for, shell leaves all messages undone until it is told to end. The flags interrupt a running
/// cell.
impl Answering for Flags {
    ghost may = { doing_of Shell };

    fn answer<I, S, W, R>(
        &self,
        rt: &R,
        alloc: Global,
        work: &mut Work<I, S, W, R>,
        job: Job,
    ) -> Option<Cause>
    where
        I: Interpreter,
        S: Stamp,
        W: Drop,
        R: Wait,
    {
        if self.may_begin() {
            return take(rt, alloc, work, job, self);
        }
        leave(rt, work, job);
        leave_rest(rt, work);
        Some(Cause::Told)
    }
}

/// Leaves a job undone, since the kernel is to end.
fn leave<I, S, W, R>(rt: &R, work: &mut Work<I, S, W, R>, job: Job)
where
    I: Interpreter,
    S: Stamp,
    W: Drop,
    R: Wait,
    ensures { LeavesJob job.frames work.old work.new }
{
    let Job { frames, to } = job;
    drop(frames);
    work.outcomes.record(rt, to, Outcome::Ending);
}

/// Leaves the jobs undone that come until the worker is told to end.
fn leave_rest<I, S, W, R>(rt: &R, work: &mut Work<I, S, W, R>)
where
    I: Interpreter,
    S: Stamp,
    W: Drop,
    R: Wait,
    ensures { LeavesRest work.old work.new }
{
    for _ in rt.forever() {
        match work.inbox.next(rt) {
            Some(job) => leave(rt, work, job),
            None => return,
        }
    }
    unreachable!()
}

/// Takes the frames of a message, and sends the reply.
fn take<I, S, W, R>(
    rt: &R,
    alloc: Global,
    work: &mut Work<I, S, W, R>,
    job: Job,
    flags: &Flags,
) -> Option<Cause>
where
    I: Interpreter,
    S: Stamp,
    W: Drop,
    R: Wait,
    ensures does { TakesJob (world_of I.meaning publisher_sink S.stamp) (doing_of Shell) job.frames work.old result
        work.new }
    ensures same { IsSameEngine S.stamp work.old.engine work.new.engine }
{
    let Job { frames, to } = job;
    let done = work.engine.take(alloc, frames, flags);
    conclude(rt, done, to, &mut work.outcomes)
}
