//! The ordered end of a kernel: shell's, then control's after it, while the relay serves what they publish.

ghost use Rattle.std.specs.Prelude.{◌≡◌, ◌≤◌, ◌+◌, IfErr, IfOk, length, vec_capacity};
ghost use Rattle.iopub_queue.specs.Entries.{EndsWithClose};
ghost use Rattle.kernel_workers.specs.Shutdown.{ClosesInOrder, Concludes, EndsInOrder, GivesRest, IsOneQueue, IsRest};
ghost use Rattle.kernel_workers.specs.Shutdown.{IsSaid};

use crate::draining::begin_draining;
use crate::flags::Never;
use crate::request::close;
use crate::waking::Waking;
use interp_core::Interpreter;
use iopub_event::Event;
use iopub_queue::Closed;
use iopub_relay::Relay;
use jmsg_envelope::{Envelope, Stamp};
use kernel_engine::{Engine, EngineFault, Handled};
use listed::Frames;
use std::alloc::Global;
use std::sync::Wait;
use std::thread::Threads;
use zmtp_wire::Outlet;

/// What a kernel is shut down with.
#[derive(Drop)]
pub struct Shutdown<I: Interpreter, S: Stamp, W: Outlet, R: Wait, F> {
    /// What handles the requests of shell.
    pub shell: Engine<I, Waking<Event<W>, R>, S, W>,
    /// What handles the requests of control.
    pub control: Engine<I, Waking<Event<W>, R>, S, W>,
    /// The request for the shutdown, which control handles.
    pub request: Envelope,
    /// What gives the closing tokens of all other publishers of the queue, in a list that has room for two more, and
    /// beside them what else is to be told. It is called once control has closed.
    pub rest: F,
    /// What serves the subscribers.
    pub relay: Relay<W, R>,
}

/// How a kernel ended that was shut down.
#[derive(Drop)]
pub struct ShutdownEnd<W: Outlet, R> {
    /// What served the subscribers.
    pub relay: Relay<W, R>,
    /// The reply to the request, if it has one.
    pub reply: Option<Frames>,
    /// Whether the kernel is to begin anew.
    pub restart: bool,
    /// Whether the closes of all publishers were taken.
    pub complete: bool,
    /// Why the request was refused, if it was.
    pub fault: Option<EngineFault>,
}

/// Ends a kernel in order. It closes shell, and has control handle the request, its idle after all that shell
/// published. Then it closes control, and asks for the tokens of all other publishers. Meanwhile the relay serves what
/// they publish, in a thread of its own, and then takes what is left. If all was taken, all that shell published, and
/// its close, was taken before the request's idle, if that was published. That is so in every schedule. What was given
/// beside the tokens comes back.
///
/// # Errors
///
/// What was given, if no thread can be made for the relay, or no memory is left for what the two share. Then nothing
/// was done.
pub fn shutdown_order<I, S, W, R, F, T>(
    rt: R,
    alloc: Global,
    shutdown: Shutdown<I, S, W, R, F>,
) -> Result<(ShutdownEnd<W, R>, T), Shutdown<I, S, W, R, F>>
where
    I: Interpreter + Drop,
    I::Cell: Drop,
    S: Stamp + Drop,
    W: Outlet + Drop + Send + 'static,
    R: Threads + Wait + Copy + Send + Sync + Drop + 'static,
    F: FnOnce() -> (Vec<Closed<Event<W>>>, T),
    requires queue { IsOneQueue shutdown.shell shutdown.control shutdown.relay }
    requires runs { F.pre shutdown.rest }
    requires rest { GivesRest shutdown.shell shutdown.control shutdown.relay
        (λ tokens. (told : T) × F.post shutdown.rest (tokens, told)) }
    ensures ends { IfOk result (λ end. EndsInOrder I.meaning S.stamp shutdown.shell shutdown.control shutdown.request
        shutdown.relay (λ tokens. F.post shutdown.rest (tokens, end.1)) end.0) }
    ensures unbegun { IfErr result (λ back. back ≡ shutdown) }
{
    let Shutdown {
        shell,
        control,
        request,
        rest,
        relay,
    } = shutdown;
    match begin_draining(rt, alloc, relay) {
        Ok(draining) => {
            let channels = close_channels(alloc, shell, control, request);
            let (tokens, told) = rest();
            let relay = draining.join(&rt);
            Ok((conclude(&rt, relay, channels, tokens), told))
        }
        Err(relay) => Err(Shutdown {
            shell,
            control,
            request,
            rest,
            relay,
        }),
    }
}

/// What shell and control left: their closing tokens, and what came of the request.
#[derive(Drop)]
struct Channels<W> {
    /// Of shell.
    shell: Closed<Event<W>>,
    /// Of control.
    control: Closed<Event<W>>,
    /// What came of the request.
    done: Result<Handled, EngineFault>,
}

/// Closes shell, has control handle the request, its idle after all that shell published, and closes control.
fn close_channels<I, S, W, R>(
    alloc: Global,
    shell: Engine<I, Waking<Event<W>, R>, S, W>,
    control: Engine<I, Waking<Event<W>, R>, S, W>,
    request: Envelope,
) -> Channels<W>
where
    I: Interpreter + Drop,
    I::Cell: Drop,
    S: Stamp + Drop,
    W: Drop,
    R: Wait + Drop,
    requires { shell.publishing.sink.queue ≡ control.publishing.sink.queue }
    ensures { ClosesInOrder I.meaning S.stamp shell control request result.shell result.control result.done }
{
    let mut shell = close(shell);
    let word = shell.word();
    let mut control = control;
    let done = control.handle_last(alloc, word, request, &Never);
    Channels {
        shell,
        control: close(control),
        done,
    }
}

/// Takes all that is left, and settles with all publishers.
fn conclude<W: Outlet + Drop, R: Wait + Drop>(
    rt: &R,
    mut relay: Relay<W, R>,
    channels: Channels<W>,
    mut tokens: Vec<Closed<Event<W>>>,
) -> ShutdownEnd<W, R>
    requires queue { (channels.shell.queue ≡ relay.taker.queue) × (channels.control.queue ≡ relay.taker.queue) }
    requires closed { EndsWithClose channels.shell.published × EndsWithClose channels.control.published }
    requires rest { IsRest relay.taker channels.shell.number channels.control.number tokens.items }
    requires room { length tokens.items + 2 ≤ vec_capacity tokens }
    ensures { Concludes relay.taker channels.shell channels.control tokens.items channels.done result }
{
    let Channels {
        shell,
        control,
        done,
    } = channels;
    tokens.push_reserved(shell);
    tokens.push_reserved(control);
    let complete = relay.conclude(rt, tokens);
    let (reply, restart, fault) = said(done);
    ShutdownEnd {
        relay,
        reply,
        restart,
        complete,
        fault,
    }
}

/// What came of the request: its reply, whether the kernel is to begin anew, and why it was refused.
fn said(done: Result<Handled, EngineFault>) -> (Option<Frames>, bool, Option<EngineFault>)
    ensures { IsSaid done result.0 result.1 result.2 }
{
    match done {
        Ok(handled) => {
            let Handled {
                reply,
                end: _,
                restart,
                interrupt: _,
            } = handled;
            (reply, restart, None)
        }
        Err(fault) => (None, false, Some(fault)),
    }
}
