//! A running kernel: four workers in threads of their own, which are started, joined, and settled with.

ghost use Rattle.std.specs.Prelude.{◌≡◌, ◌≤◌, [], IfErr, IfOk, IfSome, OnOk, vec_capacity};
ghost use Rattle.iopub_queue.specs.Calls.{IsCapacity};
ghost use Rattle.kernel_engine.specs.declared.side.Side.TheVariants.{Shell, Control};
ghost use Rattle.kernel_workers.specs.Running.{KernelEndsBy, EndsFor, EndsOver, EndsWell, FailsBy, IsFaultAtEnd};
ghost use Rattle.kernel_workers.specs.Running.{did_by};
ghost use Rattle.kernel_workers.specs.Running.{did_of, leaving_by};
ghost use Rattle.kernel_workers.specs.Starting.{AreOfOne, IsOpened, IsSetUp, Promises, given_to, promised_by};
ghost use Rattle.kernel_workers.specs.Starting.{subscribing, subscribing_by};
ghost use Rattle.kernel_workers.specs.Works.{LeavesAsPromised};

use crate::control::{ControlWorker, ShellEnd};
use crate::ended::Ended;
use crate::ending::{Left, Serving, end_by};
use crate::fault::KernelFault;
use crate::flags::Flags;
use crate::kernel_end::{KernelEnd, KernelWork, WorkDone};
use crate::parts::Parts;
use crate::promises::{ClosesSilent, LeavesWork};
use crate::relaying::{RelayEnd, RelayWorker};
use crate::shell::ShellWorker;
use crate::subscriptions::{SubscriptionsEnd, SubscriptionsWorker};
use crate::waking::Waking;
use crate::work::Work;
use crossbeam_channel::Sender;
use crossbeam_utils::sync::Unparker;
use interp_core::Interpreter;
use iopub_event::Event;
use iopub_queue::{Closed, OpenFault, Publisher, Taker, open_queue};
use iopub_relay::{Buffered, Relay};
use jmsg_envelope::{Signer, Stamp};
use kernel_engine::{Engine, Side};
use kernel_jobs::{Arrivals, Job, Note, tell};
use std::alloc::{AllocError, Global};
use std::snapshot::Snapshot;
use std::sync::Wait;
use std::thread::{Promise, PromisedHandle, Threads};
use std::time::Clock;
use zmtp_wire::Outlet;

/// Runs a kernel, until a request asks for a shutdown, all ids of a channel were given, or an end note comes into the
/// inbox of control or of shell. It has four workers, each in a thread of its own. Shell and control handle the
/// requests of their inboxes. The worker of subscriptions publishes that subscribers come, ask for topics or a PONG,
/// give topics up and leave. The relay serves all that is published.
///
/// The workers hold senders of the inboxes themselves, so dropping all others ends nothing. If control is asked for a
/// shutdown the kernel ends by `shutdown_order`, and the reply is sent after all that was published.
///
/// # Errors
///
/// `Queue` if the capacity isn't from 1 to 65,536, which is judged first, or if memory is refused, also for what is
/// left in the end. `NoThread` if a thread can't be made, also the one of the shutdown, or if there is no memory for
/// what that shares. The parts are dropped then.
pub fn run_kernel<I, S, W, R>(
    rt: R,
    alloc: Global,
    parts: Parts<I, S, W>,
) -> Result<KernelEnd<W, R>, KernelFault>
where
    I: Interpreter + Drop + Send + 'static,
    I::Cell: Drop + Send + 'static,
    S: Stamp + Drop + Send + 'static,
    W: Buffered + Drop + Send + 'static,
    R: Threads + Wait + Clock + Copy + Send + Sync + Drop + 'static,
    ensures ends { IfOk result (EndsWell R I.meaning S.stamp W.outflow parts) }
    ensures refused { IfErr result (FailsBy parts.capacity) }
{
    match begin(rt, alloc, parts) {
        Ok((running, tokens)) => end(rt, alloc, running, tokens),
        Err(fault) => Err(fault),
    }
}

/// Makes the workers of a kernel of these parts, and starts them; gives room for the tokens of its publishers, too.
///
/// # Errors
///
/// As `run_kernel`, but for what is left in the end.
fn begin<I, S, W, R>(
    rt: R,
    alloc: Global,
    parts: Parts<I, S, W>,
) -> Result<(Running<I, S, W, R>, Vec<Closed<Event<W>>>), KernelFault>
where
    I: Interpreter + Drop + Send + 'static,
    I::Cell: Drop + Send + 'static,
    S: Stamp + Drop + Send + 'static,
    W: Buffered + Drop + Send + 'static,
    R: Threads + Wait + Clock + Copy + Send + Sync + Drop + 'static,
    ensures set { IfOk result (λ begun. IsSetUp parts (promised_by begun.0.publishers.shell.promise
        begun.0.publishers.control.promise begun.0.publishers.subscriptions.promise)
        begun.0.serving.relay.promise.relay.value.taker) }
    ensures none { IfOk result (λ begun. begun.1.items ≡ []) }
    ensures room { IfOk result (λ begun. 3 ≤ vec_capacity begun.1) }
    ensures capacity { OnOk result (IsCapacity parts.capacity) }
    ensures refused { IfErr result (FailsBy parts.capacity) }
{
    match make_workers(&rt, alloc, parts) {
        Ok((workers, tokens)) => match start(rt, alloc, workers) {
            Some(running) => Ok((running, tokens)),
            None => {
                drop(tokens);
                Err(KernelFault::NoThread)
            }
        },
        Err(fault) => Err(fault),
    }
}

/// Makes the workers of a kernel of these parts, and room for the tokens of its publishers: first what can fail.
///
/// # Errors
///
/// `Queue` if the capacity isn't from 1 to 65,536, which is judged first, or memory is refused.
fn make_workers<I, S, W, R>(
    rt: &R,
    alloc: Global,
    parts: Parts<I, S, W>,
) -> Result<(Workers<I, S, W, R>, Vec<Closed<Event<W>>>), KernelFault>
where
    I: Interpreter + Drop,
    S: Stamp + Drop,
    W: Outlet + Drop,
    R: Wait + Copy + Drop,
    ensures set { IfOk result (λ made. IsSetUp parts (given_to made.0.publishers.shell made.0.publishers.control
        made.0.publishers.subscriptions) made.0.relay.relay.taker) }
    ensures none { IfOk result (λ made. made.1.items ≡ []) }
    ensures room { IfOk result (λ made. 3 ≤ vec_capacity made.1) }
    ensures capacity { OnOk result (IsCapacity parts.capacity) }
    ensures refused { IfErr result (FailsBy parts.capacity) }
{
    match prepare(rt, alloc, &parts) {
        Ok((queue, shared, tokens)) => Ok((set_up(parts, queue, shared), tokens)),
        Err(fault) => {
            drop(parts);
            Err(fault)
        }
    }
}

/// The queue of a kernel that was just opened: its publishers, each of which wakes the relay's worker, which takes.
#[derive(Drop)]
struct Queue<W: Outlet, R> {
    /// The publisher of shell, number 0.
    shell: Waking<Event<W>, R>,
    /// The publisher of control, number 1.
    control: Waking<Event<W>, R>,
    /// The publisher of subscriptions, number 2.
    subscriptions: Waking<Event<W>, R>,
    /// The relay's worker.
    relay: RelayWorker<W, R>,
    /// By which that is told to end.
    relay_end: RelayEnd,
}

/// What is made for a kernel beside its queue, before any of its parts is moved.
#[derive(Drop)]
struct Shared {
    /// A copy of the key.
    key: Vec<u8>,
    /// By which control ends shell.
    shell_end: ShellEnd,
    /// What shell is stopped by.
    flags: Flags,
    /// The inbox of control, for shell.
    to_control: Sender<Note<Job>>,
}

/// Makes all that a kernel of these parts needs beside them, room for the tokens of its publishers, too: what can fail.
///
/// # Errors
///
/// `Queue` if the capacity isn't from 1 to 65,536, which is judged first, or memory is refused.
fn prepare<I, S, W, R>(
    rt: &R,
    alloc: Global,
    parts: &Parts<I, S, W>,
) -> Result<(Queue<W, R>, Shared, Vec<Closed<Event<W>>>), KernelFault>
where
    W: Outlet + Drop,
    R: Copy + Drop,
    ensures opened { IfOk result (λ made. IsOpened made.0.shell made.0.control made.0.subscriptions
        made.0.relay.relay.taker) }
    ensures key { IfOk result (λ made. made.1.key.items ≡ parts.now.key.items) }
    ensures none { IfOk result (λ made. made.2.items ≡ []) }
    ensures room { IfOk result (λ made. 3 ≤ vec_capacity made.2) }
    ensures capacity { OnOk result (IsCapacity parts.now.capacity) }
    ensures refused { IfErr result (FailsBy parts.now.capacity) }
{
    let queue = match open(rt, alloc, parts.capacity, &parts.subscriptions_in.to) {
        Ok(queue) => queue,
        Err(fault) => return Err(fault),
    };
    let Ok(tokens) = room_for_three(alloc) else {
        drop(queue);
        return Err(KernelFault::Queue(OpenFault::OutOfMemory));
    };
    match share(alloc, parts) {
        Ok(shared) => Ok((queue, shared, tokens)),
        Err(AllocError) => {
            drop(queue);
            drop(tokens);
            Err(KernelFault::Queue(OpenFault::OutOfMemory))
        }
    }
}

/// Opens the queue of a kernel, with so many places. The relay's worker has subscribers leave by this
/// inbox.
///
/// # Errors
///
/// `Queue`: `Capacity` if the capacity isn't from 1 to 65,536, which is judged first, `OutOfMemory` if memory is
/// refused.
fn open<W: Outlet + Drop, R: Copy + Drop>(
    rt: &R,
    alloc: Global,
    capacity: usize,
    inbox: &Sender<Note<Event<W>>>,
) -> Result<Queue<W, R>, KernelFault>
    ensures opened { IfOk result (λ queue. IsOpened queue.shell queue.control queue.subscriptions
        queue.relay.relay.taker) }
    ensures capacity { OnOk result (IsCapacity capacity) }
    ensures refused { IfErr result (FailsBy capacity) }
{
    let (shell, control, subscriptions, taker) = match open_three(rt, alloc, capacity) {
        Ok(opened) => opened,
        Err(fault) => return Err(fault),
    };
    let Some((relay, relay_end)) = relay_of(alloc, taker, inbox) else {
        drop((shell, control, subscriptions));
        return Err(KernelFault::Queue(OpenFault::OutOfMemory));
    };
    match unparkers_of(&relay) {
        Ok((for_shell, for_control, for_subscriptions)) => Ok(Queue {
            shell: Waking::new(shell, for_shell),
            control: Waking::new(control, for_control),
            subscriptions: Waking::new(subscriptions, for_subscriptions),
            relay,
            relay_end,
        }),
        Err(AllocError) => {
            drop((shell, control, subscriptions, relay, relay_end));
            Err(KernelFault::Queue(OpenFault::OutOfMemory))
        }
    }
}

/// The publishers of shell, of control and of subscriptions, and the taker, of a queue of so many places.
///
/// # Errors
///
/// As `open`.
fn open_three<T: Drop, R: Copy + Drop>(
    rt: &R,
    alloc: Global,
    capacity: usize,
) -> Result<
    (
        Publisher<T, R>,
        Publisher<T, R>,
        Publisher<T, R>,
        Taker<T, R>,
    ),
    KernelFault,
>
    ensures opened { IfOk result (λ opened. IsOpened opened.0 opened.1 opened.2 opened.3) }
    ensures capacity { OnOk result (IsCapacity capacity) }
    ensures refused { IfErr result (FailsBy capacity) }
{
    let (publishers, taker) = open_queue(rt, alloc, 3, capacity)?;
    let mut publishers = publishers.into_iter();
    let shell = publishers.next().unwrap();
    let control = publishers.next().unwrap();
    let subscriptions = publishers.next().unwrap();
    drop(publishers);
    Ok((shell, control, subscriptions, taker))
}

/// The relay's worker over this taker, which has subscribers leave by this inbox, and by which it is told to end. None
/// if memory is refused.
fn relay_of<W: Outlet + Drop, R: Drop>(
    alloc: Global,
    taker: Taker<Event<W>, R>,
    subscriptions: &Sender<Note<Event<W>>>,
) -> Option<(RelayWorker<W, R>, RelayEnd)>
    requires { taker.taken ≡ [] }
    ensures { IfSome result (λ made. made.0.relay.taker ≡ taker) }
{
    let Ok(subscriptions) = subscriptions.clone() else {
        drop(taker);
        return None;
    };
    RelayWorker::new(alloc, Relay::new(alloc, taker), subscriptions).ok()
}

/// What wakes the relay's worker, once for each publisher.
///
/// # Errors
///
/// If it has too many owners.
fn unparkers_of<W: Outlet + Drop, R: Drop>(
    relay: &RelayWorker<W, R>,
) -> Result<(Unparker, Unparker, Unparker), AllocError> {
    Ok((relay.unparker()?, relay.unparker()?, relay.unparker()?))
}

/// Room for three tokens.
///
/// # Errors
///
/// If memory is refused.
fn room_for_three<T: Drop>(alloc: Global) -> Result<Vec<T>, AllocError>
    ensures none { IfOk result (λ tokens. tokens.items ≡ []) }
    ensures room { IfOk result (λ tokens. 3 ≤ vec_capacity tokens) }
{
    let mut tokens = Vec::new(alloc);
    match tokens.reserve(3) {
        Ok(()) => Ok(tokens),
        Err(AllocError) => {
            drop(tokens);
            Err(AllocError)
        }
    }
}

/// Makes what the workers of shell and control share, and a copy of the key.
///
/// # Errors
///
/// If memory is refused.
fn share<I, S, W>(alloc: Global, parts: &Parts<I, S, W>) -> Result<Shared, AllocError>
    ensures { IfOk result (λ shared. shared.key.items ≡ parts.now.key.items) }
{
    let (shell_end, flags) = ShellEnd::new(&parts.flags, &parts.shell_in.to)?;
    let Ok(to_control) = parts.control_in.to.clone() else {
        drop((shell_end, flags));
        return Err(AllocError);
    };
    match parts.key.as_slice().to_vec(alloc) {
        Ok(key) => Ok(Shared {
            key,
            shell_end,
            flags,
            to_control,
        }),
        Err(_) => {
            drop((shell_end, flags, to_control));
            Err(AllocError)
        }
    }
}

/// What there is of each worker that publishes: the worker itself, or its thread.
#[derive(Drop)]
struct Publishers<Shell, Control, Subscriptions> {
    /// Of shell's.
    shell: Shell,
    /// Of control's.
    control: Control,
    /// Of that of subscriptions.
    subscriptions: Subscriptions,
}

/// The workers that publish.
type PublishingWorkers<I, S, W, R> = Publishers<
    ShellWorker<I, S, W, R>,
    ControlWorker<I, S, W, R>,
    SubscriptionsWorker<W, R>,
>;

/// The workers of a kernel before they run, and what ends those that do: control ends shell, too.
#[derive(Drop)]
struct Workers<I: Interpreter, S: Stamp, W: Outlet, R: Wait> {
    /// Those that publish.
    publishers: PublishingWorkers<I, S, W, R>,
    /// The relay's.
    relay: RelayWorker<W, R>,
    /// The inbox of control.
    to_control: Sender<Note<Job>>,
    /// The inbox of subscriptions.
    to_subscriptions: Sender<Note<Event<W>>>,
    /// By which the relay's worker is told to end.
    relay_end: RelayEnd,
}

/// Gives each worker of a kernel what it owns and hears.
fn set_up<I, S, W, R>(
    parts: Parts<I, S, W>,
    queue: Queue<W, R>,
    shared: Shared,
) -> Workers<I, S, W, R>
where
    I: Interpreter,
    S: Stamp,
    W: Outlet + Drop,
    R: Wait,
    requires opened { IsOpened queue.shell queue.control queue.subscriptions queue.relay.relay.taker }
    requires key { shared.key.items ≡ parts.key.items }
    ensures { IsSetUp parts (given_to result.publishers.shell result.publishers.control
        result.publishers.subscriptions) result.relay.relay.taker }
{
    let Parts {
        shell,
        control,
        key,
        capacity: _,
        shell_in,
        control_in,
        flags,
        subscriptions_in,
    } = parts;
    drop(flags);
    drop(shell_in.to);
    let publishers = Publishers {
        shell: ShellWorker {
            engine: Engine::new(
                Side::Shell,
                shell.0,
                queue.shell,
                shell.1,
                Signer::new(shared.key),
            ),
            inbox: shell_in.from,
            flags: shared.flags,
            control: shared.to_control,
        },
        control: ControlWorker {
            engine: Engine::new(
                Side::Control,
                control.0,
                queue.control,
                control.1,
                Signer::new(key),
            ),
            inbox: control_in.from,
            shell: shared.shell_end,
        },
        subscriptions: SubscriptionsWorker {
            sink: queue.subscriptions,
            inbox: subscriptions_in.from,
        },
    };
    Workers {
        publishers,
        relay: queue.relay,
        to_control: control_in.to,
        to_subscriptions: subscriptions_in.to,
        relay_end: queue.relay_end,
    }
}

/// The thread of a worker of shell or control.
type ChannelThread<I, S, W, R> = PromisedHandle<Ended<I, S, W, R>, LeavesWork<I, S, W, R>>;

/// The threads of the workers that publish.
type PublishingThreads<I, S, W, R> = Publishers<
    ChannelThread<I, S, W, R>,
    ChannelThread<I, S, W, R>,
    PromisedHandle<SubscriptionsEnd<W>, ClosesSilent<W, R>>,
>;

/// The workers of a kernel in their threads, and what ends those of subscriptions and of the relay.
struct Running<I: Interpreter, S: Stamp, W: Outlet, R: Wait> {
    /// Those that publish.
    publishers: PublishingThreads<I, S, W, R>,
    /// The inbox of subscriptions.
    to_subscriptions: Sender<Note<Event<W>>>,
    /// The relay's.
    serving: Serving<W, R>,
}

/// Starts the workers of a kernel, the relay's first, since it makes room for what the others publish. None if a thread
/// can't be made; then those that were are ended and joined.
fn start<I, S, W, R>(
    rt: R,
    alloc: Global,
    workers: Workers<I, S, W, R>,
) -> Option<Running<I, S, W, R>>
where
    I: Interpreter + Drop + Send + 'static,
    I::Cell: Drop + Send + 'static,
    S: Stamp + Drop + Send + 'static,
    W: Buffered + Drop + Send + 'static,
    R: Threads + Wait + Clock + Copy + Send + Sync + Drop + 'static,
    requires { workers.publishers.subscriptions.sink.published ≡ [] }
    ensures shell { IfSome result (λ running. Promises Shell workers.publishers.shell.engine
        workers.publishers.shell.inbox running.publishers.shell.promise) }
    ensures control { IfSome result (λ running. Promises Control workers.publishers.control.engine
        workers.publishers.control.inbox running.publishers.control.promise) }
    ensures subscriptions { IfSome result (λ running. subscribing_by running.publishers.subscriptions.promise
        ≡ subscribing workers.publishers.subscriptions) }
    ensures relay { IfSome result (λ running. running.serving.relay.promise.relay.value ≡ workers.relay.relay) }
{
    let Workers {
        publishers,
        relay,
        to_control,
        to_subscriptions,
        relay_end,
    } = workers;
    match relay.spawn(rt) {
        Some(relay) => {
            let serving = Serving { relay, relay_end };
            start_beside(rt, alloc, publishers, to_control, to_subscriptions, serving)
        }
        None => {
            drop((publishers, to_control, to_subscriptions, relay_end));
            None
        }
    }
}

/// Starts the workers that publish, beside that of the relay. None if a thread can't be made; then those that were are
/// ended and joined.
fn start_beside<I, S, W, R>(
    rt: R,
    alloc: Global,
    publishers: PublishingWorkers<I, S, W, R>,
    to_control: Sender<Note<Job>>,
    to_subscriptions: Sender<Note<Event<W>>>,
    serving: Serving<W, R>,
) -> Option<Running<I, S, W, R>>
where
    I: Interpreter + Drop + Send + 'static,
    I::Cell: Drop + Send + 'static,
    S: Stamp + Drop + Send + 'static,
    W: Outlet + Drop + Send + 'static,
    R: Threads + Wait + Copy + Send + Sync + Drop + 'static,
    requires { publishers.subscriptions.sink.published ≡ [] }
    ensures shell { IfSome result (λ running. Promises Shell publishers.shell.engine publishers.shell.inbox
        running.publishers.shell.promise) }
    ensures control { IfSome result (λ running. Promises Control publishers.control.engine publishers.control.inbox
        running.publishers.control.promise) }
    ensures subscriptions { IfSome result (λ running. subscribing_by running.publishers.subscriptions.promise
        ≡ subscribing publishers.subscriptions) }
    ensures serving { IfSome result (λ running. running.serving ≡ serving) }
{
    match start_publishing(rt, alloc, publishers, to_control) {
        Some(publishers) => Some(Running {
            publishers,
            to_subscriptions,
            serving,
        }),
        None => {
            drop(to_subscriptions);
            drop(serving.end(&rt));
            None
        }
    }
}

/// Starts the workers that publish: those of control, of shell and of subscriptions. None if a thread can't be made;
/// then those that were are ended and joined: control ends shell.
fn start_publishing<I, S, W, R>(
    rt: R,
    alloc: Global,
    publishers: PublishingWorkers<I, S, W, R>,
    to_control: Sender<Note<Job>>,
) -> Option<PublishingThreads<I, S, W, R>>
where
    I: Interpreter + Drop + Send + 'static,
    I::Cell: Drop + Send + 'static,
    S: Stamp + Drop + Send + 'static,
    W: Drop + Send + 'static,
    R: Threads + Wait + Copy + Send + Sync + Drop + 'static,
    requires { publishers.subscriptions.sink.published ≡ [] }
    ensures shell { IfSome result
        (λ threads. Promises Shell publishers.shell.engine publishers.shell.inbox threads.shell.promise) }
    ensures control { IfSome result
        (λ threads. Promises Control publishers.control.engine publishers.control.inbox threads.control.promise) }
    ensures subscriptions { IfSome result
        (λ threads. subscribing_by threads.subscriptions.promise ≡ subscribing publishers.subscriptions) }
{
    let Publishers {
        shell,
        control,
        subscriptions,
    } = publishers;
    match start_channels(rt, alloc, shell, control, to_control) {
        Some((shell, control, to_control)) => {
            match start_subscriptions(rt, shell, control, to_control, subscriptions) {
                Ok(threads) => Some(threads),
                Err(ended) => {
                    drop(ended);
                    None
                }
            }
        }
        None => {
            drop(subscriptions);
            None
        }
    }
}

/// Starts the worker of subscriptions, beside those of control and of shell.
///
/// # Errors
///
/// What those of shell and of control left, if no thread can be made: they are ended and joined.
fn start_subscriptions<I, S, W, R>(
    rt: R,
    shell: ChannelThread<I, S, W, R>,
    control: ChannelThread<I, S, W, R>,
    to_control: Sender<Note<Job>>,
    subscriptions: SubscriptionsWorker<W, R>,
) -> Result<PublishingThreads<I, S, W, R>, (Ended<I, S, W, R>, Ended<I, S, W, R>)>
where
    I: Interpreter + Drop,
    I::Cell: Drop,
    S: Stamp + Drop,
    W: Drop + Send + 'static,
    R: Threads + Wait + Copy + Send + Sync + Drop + 'static,
    requires { subscriptions.sink.published ≡ [] }
    ensures shell { IfOk result (λ threads. threads.shell ≡ shell) }
    ensures control { IfOk result (λ threads. threads.control ≡ control) }
    ensures subscriptions { IfOk result
        (λ threads. subscribing_by threads.subscriptions.promise ≡ subscribing subscriptions) }
    ensures joined { IfErr result (λ ended. LeavesAsPromised I.meaning S.stamp shell.promise ended.0
        × LeavesAsPromised I.meaning S.stamp control.promise ended.1) }
{
    match subscriptions.spawn(rt) {
        Some(subscriptions) => {
            drop(to_control);
            Ok(Publishers {
                shell,
                control,
                subscriptions,
            })
        }
        None => Err(end_channels(&rt, to_control, shell, control)),
    }
}

/// Starts the workers of control and of shell, and gives the inbox of control back. None if a thread can't be made;
/// then control's was ended and joined.
fn start_channels<I, S, W, R>(
    rt: R,
    alloc: Global,
    shell: ShellWorker<I, S, W, R>,
    control: ControlWorker<I, S, W, R>,
    to_control: Sender<Note<Job>>,
) -> Option<
    (
        ChannelThread<I, S, W, R>,
        ChannelThread<I, S, W, R>,
        Sender<Note<Job>>,
    ),
>
where
    I: Interpreter + Drop + Send + 'static,
    I::Cell: Drop + Send + 'static,
    S: Stamp + Drop + Send + 'static,
    W: Drop + Send + 'static,
    R: Threads + Wait + Copy + Send + Sync + Drop + 'static,
    ensures shell { IfSome result (λ threads. Promises Shell shell.engine shell.inbox threads.0.promise) }
    ensures control { IfSome result (λ threads. Promises Control control.engine control.inbox threads.1.promise) }
{
    let Some(control) = control.spawn(rt, alloc) else {
        drop((shell, to_control));
        return None;
    };
    match shell.spawn(rt, alloc) {
        Some(shell) => Some((shell, control, to_control)),
        None => {
            drop(end_worker(&rt, to_control, control));
            None
        }
    }
}

/// Tells a worker to end, and joins it.
fn end_worker<T, E, P, R>(rt: &R, to: Sender<Note<T>>, worker: PromisedHandle<E, P>) -> E
where
    T: Drop,
    P: Promise<E>,
    R: Threads + Wait,
    ensures { P.kept_by worker.promise result }
{
    tell(rt, &to, Note::End);
    drop(to);
    worker.join(rt)
}

/// Tells control's worker to end, which ends shell's, and joins both.
fn end_channels<E, P, R>(
    rt: &R,
    to_control: Sender<Note<Job>>,
    shell: PromisedHandle<E, P>,
    control: PromisedHandle<E, P>,
) -> (E, E)
where
    P: Promise<E>,
    R: Threads + Wait,
    ensures shell { P.kept_by shell.promise result.0 }
    ensures control { P.kept_by control.promise result.1 }
{
    let control = end_worker(rt, to_control, control);
    (shell.join(rt), control)
}

/// Joins the workers of shell and control, and ends the kernel: in order if control was asked for a shutdown.
///
/// # Errors
///
/// `Queue` if memory is refused for what is left; `NoThread` if a thread can't be made for the shutdown, or there is no
/// memory for what that shares.
fn end<I, S, W, R>(
    rt: R,
    alloc: Global,
    running: Running<I, S, W, R>,
    tokens: Vec<Closed<Event<W>>>,
) -> Result<KernelEnd<W, R>, KernelFault>
where
    I: Interpreter + Drop,
    I::Cell: Drop,
    S: Stamp + Drop,
    W: Outlet + Drop + Send + 'static,
    R: Threads + Wait + Copy + Send + Sync + Drop + 'static,
    requires one { AreOfOne running.publishers.shell.promise.engine.value.publishing.sink
        running.publishers.control.promise.engine.value.publishing.sink
        running.publishers.subscriptions.promise.sink.value running.serving.relay.promise.relay.value.taker }
    requires none { tokens.items ≡ [] }
    requires room { 3 ≤ vec_capacity tokens }
    ensures ends { IfOk result (KernelEndsBy R I.meaning S.stamp W.outflow (promised_by running.publishers.shell.promise
        running.publishers.control.promise running.publishers.subscriptions.promise)) }
    ensures refused { IfErr result IsFaultAtEnd }
{
    let Running {
        publishers,
        to_subscriptions,
        serving,
    } = running;
    let joined = (publishers.shell.join(&rt), publishers.control.join(&rt));
    end_after(
        rt,
        alloc,
        joined,
        publishers.subscriptions,
        to_subscriptions,
        serving,
        tokens,
    )
}

/// Ends a kernel whose workers of shell and of control left this: in order if control was asked for a shutdown.
///
/// # Errors
///
/// As `end`.
fn end_after<I, S, W, R>(
    rt: R,
    alloc: Global,
    joined: (Ended<I, S, W, R>, Ended<I, S, W, R>),
    subscriptions: PromisedHandle<SubscriptionsEnd<W>, ClosesSilent<W, R>>,
    to_subscriptions: Sender<Note<Event<W>>>,
    serving: Serving<W, R>,
    tokens: Vec<Closed<Event<W>>>,
) -> Result<KernelEnd<W, R>, KernelFault>
where
    I: Interpreter + Drop,
    I::Cell: Drop,
    S: Stamp + Drop,
    W: Outlet + Drop + Send + 'static,
    R: Threads + Wait + Copy + Send + Sync + Drop + 'static,
    requires one { AreOfOne joined.0.work.engine.publishing.sink joined.1.work.engine.publishing.sink
        subscriptions.promise.sink.value serving.relay.promise.relay.value.taker }
    requires none { tokens.items ≡ [] }
    requires room { 3 ≤ vec_capacity tokens }
    ensures ends { IfOk result (EndsOver I.meaning S.stamp W.outflow joined.0.work.engine joined.1.work.engine
        subscriptions.promise.inbox.value) }
    ensures cause { IfOk result (EndsFor R I.meaning S.stamp W.outflow joined.1.cause
        (leaving_by joined.0 joined.1 (subscribing_by subscriptions.promise))) }
    ensures refused { IfErr result IsFaultAtEnd }
{
    let (shell, control) = joined;
    let Ended {
        work,
        cause: of_shell,
        started,
    } = shell;
    let (shell, inbox, shell_did) = done_of(work);
    drop(inbox);
    let Ended {
        work,
        cause: of_control,
        started: _,
    } = control;
    let (control, inbox, control_did) = done_of(work);
    let left = Left {
        shell,
        control,
        subscriptions,
        to_subscriptions,
        tokens,
    };
    let work = KernelWork {
        started,
        shell: shell_did,
        control: control_did,
    };
    let ended = end_by(rt, alloc, left, serving, of_control, of_shell, work, &inbox);
    drop(inbox);
    ended
}

/// What handled a worker's requests, its inbox, and what it did.
fn done_of<I: Interpreter, S: Stamp, W, R: Wait>(
    work: Work<I, S, W, R>,
) -> (
    Engine<I, Waking<Event<W>, R>, S, W>,
    Arrivals<Job>,
    WorkDone,
)
    ensures engine { result.0 ≡ work.engine }
    ensures inbox { result.1 ≡ result.2.inbox.value }
    ensures did { did_of result.2 ≡ did_by work }
{
    let Work {
        engine,
        inbox,
        outcomes,
    } = work;
    let done = WorkDone {
        inbox: Snapshot::of(&inbox),
        outcomes,
    };
    (engine, inbox, done)
}
