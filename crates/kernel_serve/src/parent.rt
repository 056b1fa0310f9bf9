//! Until when a kernel runs, and the thread that looks after its parent.

ghost use Rattle.std.specs.Prelude.{◌≡◌, IfOk};

use crate::fault::ServeFault;
use crossbeam_channel::{Receiver, RecvTimeoutError, Sender, unbounded};
use kernel_jobs::{Job, Note};
use std::alloc::Global;
use std::os::unix::process::parent_id;
use std::rt::Process;
use std::snapshot::Snapshot;
use std::sync::Wait;
use std::thread;
use std::thread::{JoinHandle, Threads};
use std::time::{Clock, Duration};

/// How many seconds pass between two looks at the parent.
const PERIOD: u64 = 1;

/// Until when a kernel runs.
#[derive(Clone, Copy)]
pub enum Until {
    /// Until a client asks for its end.
    Asked,
    /// Until a client asks for its end, or the process has another parent than the one of this number. So a client that
    /// ended without a word leaves no kernel over.
    ParentChanges(Process, u32),
}

/// A thread that looks after the parent.
#[derive(Drop)]
pub(crate) struct Watch {
    /// Ends the thread by being dropped.
    ending: Sender<()>,
    /// The thread.
    thread: JoinHandle<()>,
}

impl Watch {
    /// Ends the thread, and waits until it ended.
    pub(crate) fn end<R: Threads + Wait>(self, rt: &R) {
        let Watch { ending, thread } = self;
        drop(ending);
        thread.join(rt);
    }
}

/// Starts to look after the parent, if that is asked for. Once it changed, control is told to end. Beside
/// that stands what is looked after, which contracts alone see.
///
/// # Errors
///
/// `NoThread` and `OutOfMemory`.
pub(crate) fn start_watch<R>(
    rt: R,
    alloc: Global,
    until: Until,
    control: &Sender<Note<Job>>,
) -> Result<(Option<Watch>, Snapshot<Until>), ServeFault>
where
    R: Threads + Wait + Clock + Copy + Send + Sync + Drop + 'static,
    ensures { IfOk result (λ started. started.1.value ≡ until) }
{
    let Until::ParentChanges(process, parent) = until else {
        return Ok((None, Snapshot::of(&Until::Asked)));
    };
    let control = control.clone()?;
    let Ok((ending, ended)) = unbounded(alloc) else {
        drop(control);
        return Err(ServeFault::OutOfMemory);
    };
    let until = Snapshot::of(&Until::ParentChanges(process, parent));
    match thread::spawn(&rt, move || look(&rt, process, parent, &control, &ended)) {
        Ok(thread) => Ok((Some(Watch { ending, thread }), until)),
        Err(error) => {
            drop(error);
            drop(ending);
            Err(ServeFault::NoThread)
        }
    }
}

/// Looks at the parent now and then, until it is another and control was told to end, or nobody waits for that.
fn look<R: Wait + Clock>(
    rt: &R,
    process: Process,
    parent: u32,
    control: &Sender<Note<Job>>,
    ended: &Receiver<()>,
) {
    for _ in rt.forever() {
        match ended.recv_timeout(rt, Duration::from_secs(PERIOD)) {
            Err(RecvTimeoutError::Timeout) => {}
            Ok(()) | Err(RecvTimeoutError::Disconnected) => return,
        }
        // If memory is refused the next look tries again.
        if parent_id(process) != parent && is_told(rt, control) {
            return;
        }
    }
    unreachable!()
}

/// Tells control to end, and answers whether it was told.
fn is_told<R: Wait>(rt: &R, control: &Sender<Note<Job>>) -> bool {
    match control.send(rt, Note::End) {
        Ok(()) => true,
        Err(refused) => {
            drop(refused);
            false
        }
    }
}
