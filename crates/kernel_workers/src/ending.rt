//! The end of a running kernel, once the workers of shell and of control have ended.

ghost use Rattle.std.specs.Prelude.{◌≡◌, ◌≤◌, [], IfErr, IfOk, IfSome, vec_capacity};
ghost use Rattle.iopub_queue.specs.Entries.{EndsWithClose};
ghost use Rattle.kernel_workers.specs.Causes.{restart_of, shutdown_word};
ghost use Rattle.kernel_workers.specs.Ending.{EndsSilent};
ghost use Rattle.kernel_workers.specs.Running.{AnswersLast, EndsAtOnce, EndsFor, EndsOver, IsFaultAtEnd, IsLastToken};
ghost use Rattle.kernel_workers.specs.Running.{ShutsDown, TellsOf, TookEach, both_did, last_outcome, leaving};
ghost use Rattle.kernel_workers.specs.Running.{restart_by};
ghost use Rattle.kernel_workers.specs.Shutdown.{EndsInOrder, GivesRest, IsOneQueue};
ghost use Rattle.kernel_workers.specs.Starting.{AreOfOne, subscribing_by};

use crate::ended::{Asking, Cause};
use crate::fault::KernelFault;
use crate::kernel_end::{KernelEnd, KernelWork};
use crate::outcomes::Outcome;
use crate::promises::{ClosesSilent, ServesOn};
use crate::relaying::RelayEnd;
use crate::request::close;
use crate::shutdown::{Shutdown, ShutdownEnd, shutdown_order};
use crate::subscriptions::SubscriptionsEnd;
use crate::waking::Waking;
use crossbeam_channel::Sender;
use interp_core::Interpreter;
use iopub_event::Event;
use iopub_queue::{Closed, OpenFault};
use iopub_relay::{Pumped, Relay};
use jmsg_envelope::{Envelope, Stamp};
use kernel_engine::{Engine, EngineFault};
use kernel_jobs::{Arrivals, Job, Note, ReplyTo, is_gone, tell};
use listed::Frames;
use std::alloc::Global;
use std::snapshot::Snapshot;
use std::sync::Wait;
use std::thread;
use std::thread::{PromisedHandle, Threads};
use zmtp_wire::Outlet;

/// What is left of a kernel once the workers of shell and of control have ended, but for the relay.
pub(crate) struct Left<I: Interpreter, S: Stamp, W, R: Wait> {
    /// What handled the requests of shell.
    pub(crate) shell: Engine<I, Waking<Event<W>, R>, S, W>,
    /// What handled the requests of control.
    pub(crate) control: Engine<I, Waking<Event<W>, R>, S, W>,
    /// The thread of the worker of subscriptions.
    pub(crate) subscriptions: PromisedHandle<SubscriptionsEnd<W>, ClosesSilent<W, R>>,
    /// The inbox of that worker.
    pub(crate) to_subscriptions: Sender<Note<Event<W>>>,
    /// Room for three tokens.
    pub(crate) tokens: Vec<Closed<Event<W>>>,
}

/// The relay's worker, and what ends it.
pub(crate) struct Serving<W: Outlet, R> {
    /// The worker's thread.
    pub(crate) relay: PromisedHandle<Relay<W, R>, ServesOn<W, R>>,
    /// By which it is told to end.
    pub(crate) relay_end: RelayEnd,
}

impl<W: Outlet, R: Threads> Serving<W, R> {
    /// Ends the relay's worker, and gives the relay.
    pub(crate) fn end(self, rt: &R) -> Relay<W, R>
        ensures queue { result.taker.queue ≡ self.relay.promise.relay.value.taker.queue }
        ensures count { result.taker.count ≡ self.relay.promise.relay.value.taker.count }
    {
        let Serving { relay, relay_end } = self;
        relay_end.end();
        relay.join(rt)
    }
}

/// Ends a kernel whose control wasn't asked for a shutdown: closes shell, control and subscriptions, one after the
/// other, and settles with them.
///
/// # Errors
///
/// `OutOfMemory` if memory is refused for what is left.
fn close_all<I, S, W, R>(
    rt: &R,
    left: Left<I, S, W, R>,
    serving: Serving<W, R>,
    of_shell: Cause,
    work: KernelWork,
) -> Result<KernelEnd<W, R>, KernelFault>
where
    I: Interpreter + Drop,
    I::Cell: Drop,
    S: Stamp + Drop,
    W: Outlet + Drop,
    R: Threads + Wait + Drop,
    requires one { AreOfOne left.shell.publishing.sink left.control.publishing.sink
        left.subscriptions.promise.sink.value serving.relay.promise.relay.value.taker }
    requires none { left.tokens.items ≡ [] }
    requires room { 3 ≤ vec_capacity left.tokens }
    ensures ends { IfOk result (EndsOver I.meaning S.stamp W.outflow left.shell left.control
        left.subscriptions.promise.inbox.value) }
    ensures once { IfOk result (EndsAtOnce (leaving left work (restart_of of_shell))) }
    ensures refused { IfErr result IsFaultAtEnd }
{
    let restart = restarts(None, of_shell.restart());
    drop(of_shell);
    let Left {
        shell,
        control,
        subscriptions,
        to_subscriptions,
        tokens,
    } = left;
    let shell = close(shell);
    let control = close(control);
    let (subscriptions, inbox) = end_subscriptions(rt, subscriptions, &to_subscriptions);
    drop(to_subscriptions);
    let closes = Closes {
        shell,
        control,
        subscriptions,
    };
    let relay = serving.end(rt);
    settle(rt, relay, closes, tokens, inbox, restart, work)
}

/// Tells the worker of subscriptions to end, and joins it.
fn end_subscriptions<W: Drop, R: Threads + Wait>(
    rt: &R,
    subscriptions: PromisedHandle<SubscriptionsEnd<W>, ClosesSilent<W, R>>,
    to_subscriptions: &Sender<Note<Event<W>>>,
) -> SubscriptionsEnd<W>
    ensures { EndsSilent (subscribing_by subscriptions.promise) result.0 result.1.value }
{
    tell(rt, to_subscriptions, Note::End);
    subscriptions.join(rt)
}

/// The closing tokens of a kernel's publishers.
#[derive(Drop)]
struct Closes<W> {
    /// Of shell's.
    shell: Closed<Event<W>>,
    /// Of control's.
    control: Closed<Event<W>>,
    /// Of that of subscriptions.
    subscriptions: Closed<Event<W>>,
}

/// Settles with the publishers of a kernel, which all have closed, and gives what is left of its relay.
///
/// # Errors
///
/// `OutOfMemory` if memory is refused for what is left.
fn settle<W: Outlet + Drop, R: Wait + Drop>(
    rt: &R,
    mut relay: Relay<W, R>,
    closes: Closes<W>,
    mut tokens: Vec<Closed<Event<W>>>,
    subscriptions_in: Snapshot<Arrivals<Event<W>>>,
    restart: bool,
    work: KernelWork,
) -> Result<KernelEnd<W, R>, KernelFault>
    requires one { AreOfOne closes.shell closes.control closes.subscriptions relay.taker }
    requires closed { EndsWithClose closes.shell.published × EndsWithClose closes.control.published
        × EndsWithClose closes.subscriptions.published }
    requires tokens { tokens.items ≡ [] }
    requires room { 3 ≤ vec_capacity tokens }
    ensures took { IfOk result (TookEach W.outflow relay.taker.queue closes.shell.published closes.control.published
        closes.subscriptions.published) }
    ensures inbox { IfOk result (λ ended. ended.subscriptions_in.value ≡ subscriptions_in.value) }
    ensures restart { IfOk result (λ ended. ended.restart ≡ restart) }
    ensures work { IfOk result (λ ended. ended.work ≡ work) }
    ensures refused { IfErr result IsFaultAtEnd }
{
    let Closes {
        shell,
        control,
        subscriptions,
    } = closes;
    tokens.push_reserved(shell);
    tokens.push_reserved(control);
    tokens.push_reserved(subscriptions);
    let complete = relay.conclude(rt, tokens);
    left_of(relay, complete, subscriptions_in, restart, work)
}

/// What is left of a relay.
///
/// # Errors
///
/// `OutOfMemory` if memory is refused for that.
fn left_of<W: Outlet + Drop, R: Drop>(
    relay: Relay<W, R>,
    complete: bool,
    subscriptions_in: Snapshot<Arrivals<Event<W>>>,
    restart: bool,
    work: KernelWork,
) -> Result<KernelEnd<W, R>, KernelFault>
    ensures left { IfOk result (TellsOf W.outflow relay complete restart) }
    ensures inbox { IfOk result (λ ended. ended.subscriptions_in.value ≡ subscriptions_in.value) }
    ensures work { IfOk result (λ ended. ended.work ≡ work) }
    ensures refused { IfErr result IsFaultAtEnd }
{
    let no_room = relay.no_room();
    let seen = Snapshot::of(&relay);
    match relay.finish() {
        Ok(subscribers) => Ok(KernelEnd {
            complete,
            restart,
            subscribers,
            no_room,
            relay: seen,
            subscriptions_in,
            work,
        }),
        Err(relay) => {
            drop(relay);
            drop(subscriptions_in);
            drop(work);
            Err(KernelFault::Queue(OpenFault::OutOfMemory))
        }
    }
}

/// Whether a kernel is to begin anew: control's word counts before shell's.
fn restarts(control: Option<bool>, shell: Option<bool>) -> bool
    ensures { result ≡ restart_by control shell }
{
    match control {
        Some(restart) => restart,
        None => match shell {
            Some(restart) => restart,
            None => false,
        },
    }
}

/// Ends a kernel whose workers of shell and control ended for these causes: in order if control was asked for a
/// shutdown. Control's inbox is there meanwhile: who asked for that is heard until it was replied.
///
/// # Errors
///
/// `OutOfMemory` if memory is refused for what is left; `NoThread` as `shut_down`.
pub(crate) fn end_by<I, S, W, R>(
    rt: R,
    alloc: Global,
    left: Left<I, S, W, R>,
    serving: Serving<W, R>,
    of_control: Cause,
    of_shell: Cause,
    work: KernelWork,
    control_in: &Arrivals<Job>,
) -> Result<KernelEnd<W, R>, KernelFault>
where
    I: Interpreter + Drop,
    I::Cell: Drop,
    S: Stamp + Drop,
    W: Outlet + Drop + Send + 'static,
    R: Threads + Wait + Copy + Send + Sync + Drop + 'static,
    requires one { AreOfOne left.shell.publishing.sink left.control.publishing.sink
        left.subscriptions.promise.sink.value serving.relay.promise.relay.value.taker }
    requires none { left.tokens.items ≡ [] }
    requires room { 3 ≤ vec_capacity left.tokens }
    requires heard { control_in.now ≡ work.control.inbox.value }
    ensures ends { IfOk result (EndsOver I.meaning S.stamp W.outflow left.shell left.control
        left.subscriptions.promise.inbox.value) }
    ensures cause { IfOk result
        (EndsFor R I.meaning S.stamp W.outflow of_control (leaving left work (restart_of of_shell))) }
    ensures refused { IfErr result IsFaultAtEnd }
{
    let _ = control_in;
    match of_control {
        Cause::Asked(asking) => {
            let relay = serving.end(&rt);
            shut_down(rt, alloc, left, relay, asking, of_shell, work)
        }
        of_control => {
            drop(of_control);
            close_all(&rt, left, serving, of_shell, work)
        }
    }
}

/// Ends a kernel whose control was asked for a shutdown. It ends in order, and the reply is sent after all that was
/// published.
///
/// # Errors
///
/// `OutOfMemory` if memory is refused for what is left. `NoThread` if no thread can be made for the relay, or no memory
/// is left for what the two share. Then shell and control are dropped as they are, and subscriptions is ended.
fn shut_down<I, S, W, R>(
    rt: R,
    alloc: Global,
    left: Left<I, S, W, R>,
    relay: Relay<W, R>,
    asking: Asking,
    of_shell: Cause,
    work: KernelWork,
) -> Result<KernelEnd<W, R>, KernelFault>
where
    I: Interpreter + Drop,
    I::Cell: Drop,
    S: Stamp + Drop,
    W: Outlet + Drop + Send + 'static,
    R: Threads + Wait + Copy + Send + Sync + Drop + 'static,
    requires one { AreOfOne left.shell.publishing.sink left.control.publishing.sink
        left.subscriptions.promise.sink.value relay.taker }
    requires none { left.tokens.items ≡ [] }
    requires room { 3 ≤ vec_capacity left.tokens }
    ensures ends { IfOk result (ShutsDown R I.meaning S.stamp W.outflow asking relay
        (leaving left work (restart_of of_shell))) }
    ensures refused { IfErr result IsFaultAtEnd }
{
    let Asking { request, to } = asking;
    match end_in_order(rt, alloc, left, relay, request) {
        Some((end, subscriptions_in)) => {
            conclude(&rt, end, subscriptions_in, to, of_shell, work)
        }
        None => {
            drop(to);
            drop(of_shell);
            drop(work);
            Err(KernelFault::NoThread)
        }
    }
}

/// Sends the reply to the request for a shutdown, if it has one, and gives what is left of the relay.
///
/// # Errors
///
/// `OutOfMemory` if memory is refused for that.
fn conclude<W: Outlet + Drop, R: Wait + Drop>(
    rt: &R,
    end: ShutdownEnd<W, R>,
    subscriptions_in: Snapshot<Arrivals<Event<W>>>,
    to: ReplyTo,
    of_shell: Cause,
    mut work: KernelWork,
) -> Result<KernelEnd<W, R>, KernelFault>
    ensures left { IfOk result (TellsOf W.outflow end.relay end.complete
        (restart_by (shutdown_word end.fault end.restart) (restart_of of_shell))) }
    ensures inbox { IfOk result (λ ended. ended.subscriptions_in.value ≡ subscriptions_in.value) }
    ensures answers { IfOk result (λ ended. AnswersLast to end.reply end.fault (both_did work) (both_did ended.work)) }
    ensures refused { IfErr result IsFaultAtEnd }
{
    let ShutdownEnd {
        relay,
        reply,
        restart,
        complete,
        fault,
    } = end;
    let outcome = last_outcome(reply, &fault);
    work.control.outcomes.record(rt, to, outcome);
    let restart = restarts(shutdown_word(fault, restart), of_shell.restart());
    drop(of_shell);
    left_of(relay, complete, subscriptions_in, restart, work)
}

/// What became of the request for a shutdown, by its reply, and by why it was refused, if it was.
fn last_outcome(reply: Option<Frames>, fault: &Option<EngineFault>) -> Outcome
    ensures { result ≡ last_outcome reply fault.now }
{
    match fault {
        None => Outcome::replied(reply),
        Some(_) => {
            drop(reply);
            Outcome::Refused
        }
    }
}

/// What a request for a shutdown says of the kernel's new begin: nothing if it was refused.
fn shutdown_word(fault: Option<EngineFault>, restart: bool) -> Option<bool>
    ensures { result ≡ shutdown_word fault restart }
{
    match fault {
        Some(fault) => {
            drop(fault);
            None
        }
        None => Some(restart),
    }
}

/// Shuts a kernel down in order; tells the inbox of subscriptions, too, as it was then. None if that can't be begun:
/// then shell and control are dropped as they are, and subscriptions is ended.
fn end_in_order<I, S, W, R>(
    rt: R,
    alloc: Global,
    left: Left<I, S, W, R>,
    relay: Relay<W, R>,
    request: Envelope,
) -> Option<(ShutdownEnd<W, R>, Snapshot<Arrivals<Event<W>>>)>
where
    I: Interpreter + Drop,
    I::Cell: Drop,
    S: Stamp + Drop,
    W: Outlet + Drop + Send + 'static,
    R: Threads + Wait + Copy + Send + Sync + Drop + 'static,
    requires one { AreOfOne left.shell.publishing.sink left.control.publishing.sink
        left.subscriptions.promise.sink.value relay.taker }
    requires none { left.tokens.items ≡ [] }
    requires room { 3 ≤ vec_capacity left.tokens }
    ensures { IfSome result (λ end. EndsInOrder I.meaning S.stamp left.shell left.control request relay
        (λ tokens. IsLastToken (subscribing_by left.subscriptions.promise) tokens end.1.value) end.0) }
{
    let Left {
        shell,
        control,
        subscriptions,
        to_subscriptions,
        tokens,
    } = left;
    let to = &to_subscriptions;
    let rest = move || -> (Vec<Closed<Event<W>>>, Snapshot<Arrivals<Event<W>>>)
        requires none { tokens.items ≡ [] }
        requires room { 3 ≤ vec_capacity tokens }
    { last_token(&rt, subscriptions, to, tokens) };
    let shutdown = Shutdown {
        shell,
        control,
        request,
        rest,
        relay,
    };
    match shut(rt, alloc, shutdown, to) {
        Some(end) => {
            drop(to_subscriptions);
            Some(end)
        }
        None => {
            drop(to_subscriptions);
            None
        }
    }
}

/// Shuts down in order. None if that can't be begun: then `rest` is asked while the relay serves what subscriptions
/// publishes, and all else is dropped as it is.
fn shut<I, S, W, R, F, T>(
    rt: R,
    alloc: Global,
    shutdown: Shutdown<I, S, W, R, F>,
    to_subscriptions: &Sender<Note<Event<W>>>,
) -> Option<(ShutdownEnd<W, R>, T)>
where
    I: Interpreter + Drop,
    I::Cell: Drop,
    S: Stamp + Drop,
    W: Outlet + Drop + Send + 'static,
    R: Threads + Wait + Copy + Send + Sync + Drop + 'static,
    F: FnOnce() -> (Vec<Closed<Event<W>>>, T),
    T: Drop,
    requires queue { IsOneQueue shutdown.shell shutdown.control shutdown.relay }
    requires runs { F.pre shutdown.rest }
    requires rest { GivesRest shutdown.shell shutdown.control shutdown.relay
        (λ tokens. (told : T) × F.post shutdown.rest (tokens, told)) }
    ensures { IfSome result (λ end. EndsInOrder I.meaning S.stamp shutdown.shell shutdown.control shutdown.request
        shutdown.relay (λ tokens. F.post shutdown.rest (tokens, end.1)) end.0) }
{
    match shutdown_order(rt, alloc, shutdown) {
        Ok(end) => Some(end),
        Err(unbegun) => {
            drop(give_up(&rt, unbegun, to_subscriptions));
            None
        }
    }
}

/// The token of subscriptions, which ends, in a list that has room for two more; and its inbox as it was then.
fn last_token<W: Drop, R: Threads + Wait>(
    rt: &R,
    subscriptions: PromisedHandle<SubscriptionsEnd<W>, ClosesSilent<W, R>>,
    to_subscriptions: &Sender<Note<Event<W>>>,
    mut tokens: Vec<Closed<Event<W>>>,
) -> (Vec<Closed<Event<W>>>, Snapshot<Arrivals<Event<W>>>)
    requires none { tokens.items ≡ [] }
    requires room { 3 ≤ vec_capacity tokens }
    ensures { IsLastToken (subscribing_by subscriptions.promise) result.0 result.1.value }
{
    let (closed, inbox) = end_subscriptions(rt, subscriptions, to_subscriptions);
    tokens.push_reserved(closed);
    (tokens, inbox)
}

/// Ends subscriptions, whose token `rest` gives, while the relay serves what it publishes. All else is dropped as it
/// is. What `rest` gave comes back, since nothing else shows that it was asked.
fn give_up<I, S, W, R, F, T>(
    rt: &R,
    unbegun: Shutdown<I, S, W, R, F>,
    to_subscriptions: &Sender<Note<Event<W>>>,
) -> (Vec<Closed<Event<W>>>, T)
where
    I: Interpreter + Drop,
    I::Cell: Drop,
    S: Stamp + Drop,
    W: Outlet + Drop,
    R: Wait + Drop,
    F: FnOnce() -> (Vec<Closed<Event<W>>>, T),
    requires { F.pre unbegun.rest }
    ensures { F.post unbegun.rest result }
{
    let Shutdown {
        shell,
        control,
        request,
        rest,
        mut relay,
    } = unbegun;
    drop(shell);
    drop(control);
    drop(request);
    pump_until_closed(rt, &mut relay, to_subscriptions);
    let ended = rest();
    drop(relay);
    ended
}

/// Takes what is published and serves it, until subscriptions, which is told to end, has closed.
fn pump_until_closed<W: Outlet + Drop, R: Wait>(
    rt: &R,
    relay: &mut Relay<W, R>,
    to_subscriptions: &Sender<Note<Event<W>>>,
) {
    for _ in rt.forever() {
        match relay.pump() {
            Pumped::Complete => return,
            Pumped::Empty => {
                // It drops its inbox after its close.
                if is_gone(rt, to_subscriptions) {
                    return;
                }
                thread::yield_now();
            }
            Pumped::Did | Pumped::Closed(_) | Pumped::NoTopic(_) | Pumped::NoRoom(_) => {}
        }
    }
    unreachable!()
}
