//! Control's worker.

ghost use Rattle.std.specs.Prelude.{◌≡◌, ◌⊎◌, IfSome};
ghost use Rattle.iopub_queue.specs.Sink.{publisher_sink};
ghost use Rattle.kernel_engine.specs.World.{world_of};
ghost use Rattle.kernel_engine.specs.declared.side.Side.TheVariants.{Control};
ghost use Rattle.kernel_workers.specs.Jobs.{HoldsJob, TakesJob, doing_of};
ghost use Rattle.kernel_workers.specs.Starting.{Promises};
ghost use Rattle.kernel_workers.specs.Staying.{IsSameEngine};
ghost use Rattle.kernel_workers.specs.Works.{WorksOff};

use crate::ended::{Asking, Cause, Ended};
use crate::flags::{Flags, Never};
use crate::outcomes::Outcomes;
use crate::promises::LeavesWork;
use crate::request::conclude;
use crate::waking::Waking;
use crate::work::Work;
use crate::working::{Answering, work};
use crossbeam_channel::Sender;
use interp_core::Interpreter;
use iopub_event::Event;
use jmsg_envelope::Stamp;
use kernel_engine::{Asked, Engine, Side};
use kernel_jobs::{Arrivals, Job, Note, tell};
use std::alloc::{AllocError, Global};
use std::snapshot::Snapshot;
use std::sync::Wait;
use std::thread;
use std::thread::{PromisedHandle, Threads};

/// Control's worker: what it owns, what it hears, and whom it ends.
#[derive(Drop)]
pub struct ControlWorker<I: Interpreter, S: Stamp, W, R: Wait> {
    /// What handles its requests.
    pub engine: Engine<I, Waking<Event<W>, R>, S, W>,
    /// Its inbox.
    pub inbox: Arrivals<Job>,
    /// By which it stops shell's worker, which it ends with itself.
    pub shell: ShellEnd,
}

impl<I, S, W, R> ControlWorker<I, S, W, R>
where
    I: Interpreter + Drop,
    I::Cell: Drop,
    S: Stamp + Drop,
    W: Drop,
    R: Wait + Drop,
{
    /// Does the jobs of its inbox one after the other, until one of these happens. It is told to end, or a request asks
    /// for a shutdown, which it leaves for later. Or all ids were given, or nobody is left who could tell it anything.
    /// Then shell is told to end.
    pub fn run(self, rt: R, alloc: Global) -> Ended<I, S, W, R>
        ensures works { WorksOff I.meaning S.stamp Control self.engine self.inbox result }
        ensures same { IsSameEngine S.stamp self.engine result.work.engine }
    {
        let given = self.promise();
        let ControlWorker {
            engine,
            inbox,
            shell,
        } = self;
        let mut at_hand = Work {
            engine,
            inbox,
            outcomes: Outcomes::new(),
        };
        let cause = work(&rt, alloc, &mut at_hand, &shell);
        let ended = Ended {
            work: at_hand,
            cause,
            started: false,
        };
        shell.end(&rt, &given, &ended);
        drop(given);
        drop(shell);
        ended
    }

    /// What it promises, of what it is given.
    fn promise(&self) -> LeavesWork<I, S, W, R>
        ensures { Promises Control self.now.engine self.now.inbox result }
    {
        LeavesWork {
            side: Side::Control,
            engine: Snapshot::of(&self.engine),
            inbox: Snapshot::of(&self.inbox),
        }
    }
}

impl<I, S, W, R> ControlWorker<I, S, W, R>
where
    I: Interpreter + Drop + Send + 'static,
    I::Cell: Drop + Send + 'static,
    S: Stamp + Drop + Send + 'static,
    W: Drop + Send + 'static,
    R: Threads + Wait + Copy + Send + Sync + Drop + 'static,
{
    /// Runs it in a thread of its own, with the stack that the system gives a thread. It runs no cells. None if no thread
    /// can be made; then the worker is dropped.
    pub fn spawn(
        self,
        rt: R,
        alloc: Global,
    ) -> Option<PromisedHandle<Ended<I, S, W, R>, LeavesWork<I, S, W, R>>>
        ensures { IfSome result (λ handle. Promises Control self.engine self.inbox handle.promise) }
    {
        let promise = self.promise();
        match thread::spawn_with(&rt, promise, move || self.run(rt, alloc)) {
            Ok(handle) => Some(handle),
            Err(refused) => {
                drop(refused);
                None
            }
        }
    }
}

/// By which control stops shell's worker: its cells by flags, and itself by a note.
#[derive(Drop)]
pub struct ShellEnd {
    /// What it stops shell by.
    flags: Flags,
    /// The inbox of shell.
    inbox: Sender<Note<Job>>,
}

impl ShellEnd {
    /// By which the worker is ended that has these flags and this inbox; then the flags for that worker.
    ///
    /// # Errors
    ///
    /// If memory is refused.
    pub fn new(flags: &Flags, inbox: &Sender<Note<Job>>) -> Result<(ShellEnd, Flags), AllocError> {
        let (flags, of_shell) = flags.twice()?;
        match inbox.clone() {
            Ok(inbox) => Ok((ShellEnd { flags, inbox }, of_shell)),
            Err(AllocError) => {
                drop(flags);
                drop(of_shell);
                Err(AllocError)
            }
        }
    }

    /// Has shell's worker end, unless it has, as control's has ended that was given this. The flag is raised before the
    /// note is put in, so that shell does no job that waits before the note.
    fn end<I, S, W, R>(&self, rt: &R, given: &LeavesWork<I, S, W, R>, ended: &Ended<I, S, W, R>)
    where
        I: Interpreter,
        S: Stamp,
        R: Wait,
        requires { WorksOff I.meaning S.stamp given.now.side given.now.engine.value given.now.inbox.value ended.now }
    {
        self.flags.end(given, ended);
        tell(rt, &self.inbox, Note::End);
    }

    /// Raises the flag of an interrupt if a request asks for one.
    fn heed(&self, asked: &Asked) {
        if asked.interrupts() {
            self.flags.interrupt(asked);
        }
    }

    /// Takes the frames of a message, and sends the reply. A request for a shutdown is left for later. If it asks for an
    /// interrupt, the flag is raised before busy is published, which may have to wait for the relay.
    fn take<I, S, W, R>(
        &self,
        rt: &R,
        alloc: Global,
        work: &mut Work<I, S, W, R>,
        job: Job,
    ) -> Option<Cause>
    where
        I: Interpreter,
        S: Stamp,
        W: Drop,
        R: Wait,
        ensures does { HoldsJob job.frames work.old result work.new
            ⊎ TakesJob (world_of I.meaning publisher_sink S.stamp) (doing_of Control) job.frames work.old result
            work.new }
        ensures same { IsSameEngine S.stamp work.old.engine work.new.engine }
    {
        let Job { frames, to } = job;
        let asked = match work.engine.read(alloc, frames) {
            Ok(asked) => asked,
            Err(unread) => {
                let done = work.engine.unread_done(unread);
                return conclude(rt, done, to, &mut work.outcomes);
            }
        };
        if asked.ends() {
            let request = asked.into_request();
            return Some(Cause::Asked(Asking { request, to }));
        }
        self.heed(&asked);
        let done = work.engine.finish(alloc, asked, &Never);
        conclude(rt, done, to, &mut work.outcomes)
    }
}

/// Control leaves no message undone that it is given but a request for a shutdown, with which it ends, and its own cells
/// are never interrupted.
impl Answering for ShellEnd {
    ghost may = { doing_of Control };

    fn answer<I, S, W, R>(
        &self,
        rt: &R,
        alloc: Global,
        work: &mut Work<I, S, W, R>,
        job: Job,
    ) -> Option<Cause>
    where
        I: Interpreter,
        S: Stamp,
        W: Drop,
        R: Wait,
    {
        self.take(rt, alloc, work, job)
    }
}
