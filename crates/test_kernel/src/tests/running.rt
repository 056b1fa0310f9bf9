//! A kernel in its threads: all its jobs, its end by control, an interrupt, and capacities that no queue has.

use crate::tests::expect_same;
use crate::tests::keeper::Keeper;
use crate::tests::long::Long;
use arith_shell::ShellArith;
use crossbeam_channel::{Receiver, Sender, unbounded};
use interp_core::Interpreter;
use iopub_event::Event;
use kernel_jobs::{Inbox, Job, Note, ReplyMessage};
use kernel_workers::{Flags, KernelEnd, KernelFault, Parts, run_kernel};
use listed::Octets;
use std::alloc::{AllocError, Global};
use std::process::Abort;
use std::sync::atomic::{AtomicBool, Ordering};
use std::sync::{Arc, Wait};
use std::test::Fail;
use std::thread;
use std::thread::{JoinHandle, Threads};
use std::time::Clock;
use test_requests::{
    ASKED, INFO, INTERRUPTED, OneDate, SHUTDOWN, both, due_message, frames_of, frames_text, put,
    send,
};

/// How often a wait looks before its test fails.
const TURNS: usize = 10_000_000;

/// The lines that a cell of the language of long cells writes.
const LINES: usize = 1_000;

/// The requests on shell before its shutdown.
const ON_SHELL: u64 = 100;

/// The requests on control.
const ON_CONTROL: u64 = 8;

/// A client's side of a channel.
#[derive(Drop)]
struct Line {
    /// Where requests are put.
    to: Sender<Note<Job>>,
    /// Where their replies go.
    replies: Sender<ReplyMessage>,
    /// Where these come out.
    from: Receiver<ReplyMessage>,
}

/// By whom a kernel is spoken to, and what is heard of it.
#[derive(Drop)]
struct Client {
    /// Its side of shell.
    shell: Line,
    /// Its side of control.
    control: Line,
    /// Whether the subscriber had an output.
    has_output: Arc<AtomicBool, Global>,
}

/// A kernel's inboxes and flags, and its client.
#[derive(Drop)]
struct Opened {
    /// The inbox of shell.
    shell_in: Inbox<Job>,
    /// The inbox of control.
    control_in: Inbox<Job>,
    /// The inbox of subscriptions, in which subscriber 1 asks for everything.
    subscriptions_in: Inbox<Event<Keeper>>,
    /// The flags of shell.
    flags: Flags,
    /// The client.
    client: Client,
}

/// An inbox, and its client's side.
fn channel_of(alloc: Global) -> Result<(Inbox<Job>, Line), AllocError> {
    let (inbox, to) = inbox_of(alloc)?;
    match unbounded(alloc) {
        Ok((replies, from)) => Ok((inbox, Line { to, replies, from })),
        Err(_) => {
            drop(inbox);
            drop(to);
            Err(AllocError)
        }
    }
}

/// The two ends of an inbox, and its first end once more.
fn inbox_of(alloc: Global) -> Result<(Inbox<Job>, Sender<Note<Job>>), AllocError> {
    let inbox = Inbox::new(alloc)?;
    match inbox.to.clone() {
        Ok(to) => Ok((inbox, to)),
        Err(AllocError) => {
            drop(inbox);
            Err(AllocError)
        }
    }
}

/// A flag that is down, twice.
fn flag_twice(
    alloc: Global,
) -> Result<(Arc<AtomicBool, Global>, Arc<AtomicBool, Global>), AllocError> {
    let Ok(flag) = Arc::new(alloc, AtomicBool::new(false)) else {
        return Err(AllocError);
    };
    match Arc::try_clone(&flag) {
        Ok(other) => Ok((flag, other)),
        Err(AllocError) => {
            drop(flag);
            Err(AllocError)
        }
    }
}

/// An inbox in which subscriber 1 comes and asks for everything, and a flag that tells whether it had an output.
fn subscribed<R: Wait>(
    rt: &R,
    alloc: Global,
) -> Result<(Inbox<Event<Keeper>>, Arc<AtomicBool, Global>), AllocError> {
    let (inbox, (of_keeper, has_output)) = both(Inbox::new(alloc), flag_twice(alloc))?;
    match subscribe(rt, alloc, &inbox.to, Keeper::new(alloc, of_keeper)) {
        Ok(()) => Ok((inbox, has_output)),
        Err(AllocError) => {
            drop(inbox);
            drop(has_output);
            Err(AllocError)
        }
    }
}

/// Has subscriber 1 come, who writes to a keeper, and ask for everything.
fn subscribe<R: Wait>(
    rt: &R,
    alloc: Global,
    to_subscriptions: &Sender<Note<Event<Keeper>>>,
    keeper: Keeper,
) -> Result<(), AllocError> {
    send(rt, to_subscriptions, Note::Item(Event::Attach(1, keeper)))?;
    let everything = Octets::new(Vec::new(alloc));
    send(
        rt,
        to_subscriptions,
        Note::Item(Event::Subscribe(1, everything)),
    )
}

/// What a kernel is spoken to by.
fn open<R: Wait>(rt: &R, alloc: Global) -> Result<Opened, AllocError> {
    let channels = both(channel_of(alloc), channel_of(alloc));
    let rest = both(subscribed(rt, alloc), Flags::new(alloc));
    let (channels, rest) = both(channels, rest)?;
    let ((shell_in, shell), (control_in, control)) = channels;
    let ((subscriptions_in, has_output), flags) = rest;
    Ok(Opened {
        shell_in,
        control_in,
        subscriptions_in,
        flags,
        client: Client {
            shell,
            control,
            has_output,
        },
    })
}

/// A kernel of these interpreters of shell and control, with a queue of so many places, and its client.
fn kernel_of<I: Drop>(
    alloc: Global,
    opened: Opened,
    capacity: usize,
    (shell, control): (I, I),
) -> (Parts<I, OneDate, Keeper>, Client) {
    let Opened {
        shell_in,
        control_in,
        subscriptions_in,
        flags,
        client,
    } = opened;
    let parts = Parts {
        shell: (shell, OneDate),
        control: (control, OneDate),
        key: Vec::new(alloc),
        capacity,
        shell_in,
        control_in,
        flags,
        subscriptions_in,
    };
    (parts, client)
}

/// Shell arithmetic twice, with no variables.
fn two_ariths(alloc: Global) -> (ShellArith, ShellArith) {
    (ShellArith::new(alloc), ShellArith::new(alloc))
}

/// Puts a request of this type and content into a channel, from a client and with an id by its number.
fn ask_numbered<R: Wait>(
    rt: &R,
    alloc: Global,
    line: &Line,
    request: u64,
    (msg_type, content): (&str, &str),
) -> Result<(), AllocError> {
    let text = format!(in alloc;
        "c{request}\n<IDS|MSG>\n\n{{\"msg_id\":\"q{request}\",\"msg_type\":\"{msg_type}\"}}\n{{}}\n{{}}\n{content}"
    )?;
    let frames = frames_of(alloc, text.as_str());
    drop(text);
    put(rt, &line.to, &line.replies, frames?, None)
}

/// The text of the next reply, which is there.
fn next_reply<R: Wait + Abort>(rt: &R, alloc: Global, line: &Line) -> Result<String, AllocError> {
    let reply = line.from.try_recv(rt).ok().expect(rt, "a reply");
    let text = frames_text(alloc, &reply.frames);
    drop(reply);
    text
}

/// The reply of this type, number and content to the request of a number and type, which goes to its client.
fn due_reply(
    alloc: Global,
    (request, parent_type): (u64, &str),
    due: (&str, u64, &str),
) -> Result<String, AllocError> {
    let front = format!(in alloc; "c{request}\n");
    let parent = format!(in alloc; "{{\"msg_id\":\"q{request}\",\"msg_type\":\"{parent_type}\"}}");
    let (front, parent) = both(front, parent)?;
    let text = due_message(alloc, front.as_str(), due, parent.as_str());
    drop(front);
    drop(parent);
    text
}

/// That the next reply is there, goes to the client of a request by its number, has its header as the parent, and is of
/// this type, number and content.
fn expect_numbered<R: Wait + Abort>(
    rt: &R,
    alloc: Global,
    line: &Line,
    request: (u64, &str),
    due: (&str, u64, &str),
) -> Result<(), AllocError> {
    expect_same(
        rt,
        next_reply(rt, alloc, line),
        due_reply(alloc, request, due),
    )
}

/// That no reply is there.
fn expect_no_reply<R: Wait + Abort>(rt: &R, line: &Line) {
    let is_there = match line.from.try_recv(rt) {
        Ok(reply) => {
            drop(reply);
            true
        }
        Err(_) => false,
    };
    assert!(rt; !is_there, "one reply more");
}

/// How many messages these octets are, if they are whole ones (RFC 23, "Framing"): each frame has its flags, of
/// which 1 says that another follows and 2 that the length has eight octets and not one, its length, and its body.
fn count_messages(octets: &[u8]) -> Option<usize> {
    let mut rest = octets;
    let mut count = 0_usize;
    let mut is_open = false;
    for _ in 0..octets.len() {
        let Some((flags, after)) = rest.split_first() else {
            break;
        };
        let width = if *flags < 2 { 1 } else { 8 };
        let (length, after) = after.split_at_checked(width)?;
        let mut size = 0_usize;
        for octet in length {
            size = size.checked_mul(256)?.checked_add(usize::from(*octet))?;
        }
        let (_, after) = after.split_at_checked(size)?;
        is_open = flags % 2 == 1;
        if !is_open {
            count = count.saturating_add(1);
        }
        rest = after;
    }
    if is_open {
        return None;
    }
    Some(count)
}

/// What is looked at of a kernel's end.
#[derive(Drop)]
struct End {
    /// Whether all that was published was taken.
    complete: bool,
    /// Whether the kernel is to begin anew.
    restart: bool,
    /// The subscribers that were there.
    subscribers: Vec<(u64, Keeper, bool)>,
    /// How often there was no memory for one.
    no_room: u64,
    /// Whether it was published that it starts.
    started: bool,
    /// How many jobs of shell and of control were left undone.
    undone: (u64, u64),
}

/// What is looked at of a kernel's end.
fn look_at<R: Drop>(ended: KernelEnd<Keeper, R>) -> End {
    let KernelEnd {
        complete,
        restart,
        subscribers,
        no_room,
        relay,
        subscriptions_in,
        work,
    } = ended;
    let started = work.started;
    let undone = (work.shell.outcomes.undone, work.control.outcomes.undone);
    drop(relay);
    drop(subscriptions_in);
    drop(work);
    End {
        complete,
        restart,
        subscribers,
        no_room,
        started,
        undone,
    }
}

/// Runs a kernel, and gives what is looked at of its end.
fn end_of<I, R>(rt: R, alloc: Global, parts: Parts<I, OneDate, Keeper>) -> Result<End, KernelFault>
where
    I: Interpreter + Drop + Send + 'static,
    I::Cell: Drop + Send + 'static,
    R: Threads + Wait + Clock + Copy + Send + Sync + Drop + 'static,
{
    match run_kernel(rt, alloc, parts) {
        Ok(ended) => Ok(look_at(ended)),
        Err(fault) => Err(fault),
    }
}

/// Runs a kernel of these interpreters that was asked all that it is asked: its end, and the client.
fn run_asked<I, R>(
    rt: R,
    alloc: Global,
    asked: Result<(), AllocError>,
    opened: Opened,
    capacity: usize,
    interpreters: (I, I),
) -> Result<(End, Client), AllocError>
where
    I: Interpreter + Drop + Send + 'static,
    I::Cell: Drop + Send + 'static,
    R: Threads + Wait + Clock + Copy + Send + Sync + Drop + 'static,
{
    let Ok(()) = asked else {
        drop(opened);
        drop(interpreters);
        return Err(AllocError);
    };
    let (parts, client) = kernel_of(alloc, opened, capacity, interpreters);
    match end_of(rt, alloc, parts) {
        Ok(ended) => Ok((ended, client)),
        Err(fault) => {
            drop(fault);
            drop(client);
            Err(AllocError)
        }
    }
}

/// That a kernel ended with all taken, and subscriber 1 alone, who didn't fail and got at most so many messages, whole.
fn expect_end(rt: &impl Abort, ended: &End, restart: bool, most: usize) {
    assert_eq!(rt; (ended.complete, ended.restart), (true, restart));
    assert_eq!(rt; (ended.no_room, ended.started), (0, true));
    let [(id, keeper, has_failed)] = ended.subscribers.as_slice() else {
        assert!(rt; false, "{} subscribers", ended.subscribers.len());
        return;
    };
    assert_eq!(rt; (*id, *has_failed), (1, false));
    let count = count_messages(keeper.octets.as_slice()).expect(rt, "whole messages");
    assert!(rt; count <= most, "{count} messages");
}

/// Asks a hundred times on shell, and then for a shutdown, and eight times on control.
fn ask_109<R: Wait>(rt: &R, alloc: Global, client: &Client) -> Result<(), AllocError> {
    for request in 0..ON_SHELL {
        ask_numbered(rt, alloc, &client.shell, request, (ASKED, "{}"))?;
    }
    let shutdown = (SHUTDOWN, r#"{"restart":false}"#);
    ask_numbered(rt, alloc, &client.shell, ON_SHELL, shutdown)?;
    for request in 0..ON_CONTROL {
        ask_numbered(rt, alloc, &client.control, request, (ASKED, "{}"))?;
    }
    Ok(())
}

/// Expects one reply to each of them.
fn expect_109<R: Wait + Abort>(rt: &R, alloc: Global, client: &Client) -> Result<(), AllocError> {
    for request in 0..ON_SHELL {
        let due = ("kernel_info_reply", 4 + 3 * request, INFO);
        expect_numbered(rt, alloc, &client.shell, (request, ASKED), due)?;
    }
    let due = ("shutdown_reply", 304, r#"{"restart":false,"status":"ok"}"#);
    expect_numbered(rt, alloc, &client.shell, (ON_SHELL, SHUTDOWN), due)?;
    for request in 0..ON_CONTROL {
        let due = ("kernel_info_reply", 3 + 3 * request, INFO);
        expect_numbered(rt, alloc, &client.control, (request, ASKED), due)?;
    }
    expect_no_reply(rt, &client.shell);
    expect_no_reply(rt, &client.control);
    Ok(())
}

/// Has a kernel of so many places do them, and looks at all that comes of it.
fn look_at_109<R>(rt: R, alloc: Global, capacity: usize) -> Result<(), AllocError>
where
    R: Threads + Wait + Clock + Abort + Copy + Send + Sync + Drop + 'static,
{
    let opened = open(&rt, alloc)?;
    let asked = ask_109(&rt, alloc, &opened.client);
    let (ended, client) = run_asked(rt, alloc, asked, opened, capacity, two_ariths(alloc))?;
    let replied = expect_109(&rt, alloc, &client);
    drop(client);
    expect_end(&rt, &ended, false, 1 + 2 * 109);
    let undone = ended.undone;
    drop(ended);
    assert_eq!(rt; undone, (0, 0));
    replied
}

#[test]
fn each_of_109_jobs_has_one_reply(rt: HostRuntime) -> Result<(), Fail> {
    for capacity in [16, 1_024] {
        look_at_109(rt, rt.alloc(), capacity)?;
    }
    Ok(())
}

#[test]
fn control_ends_a_kernel_that_begins_anew(rt: HostRuntime) -> Result<(), Fail> {
    let alloc = rt.alloc();
    let opened = open(&rt, alloc)?;
    let shutdown = (SHUTDOWN, r#"{"restart":true}"#);
    let asked = ask_numbered(&rt, alloc, &opened.client.control, 0, shutdown);
    let (ended, client) = run_asked(rt, alloc, asked, opened, 1_024, two_ariths(alloc))?;
    let due = ("shutdown_reply", 3, r#"{"restart":true,"status":"ok"}"#);
    let replied = expect_numbered(&rt, alloc, &client.control, (0, SHUTDOWN), due);
    expect_no_reply(&rt, &client.control);
    drop(client);
    expect_end(&rt, &ended, true, 3);
    drop(ended);
    Ok(replied?)
}

/// Asks for a shutdown on shell, and for another on control.
fn ask_both<R: Wait>(rt: &R, alloc: Global, client: &Client) -> Result<(), AllocError> {
    let on_shell = (SHUTDOWN, r#"{"restart":true}"#);
    ask_numbered(rt, alloc, &client.shell, 0, on_shell)?;
    let on_control = (SHUTDOWN, r#"{"restart":false}"#);
    ask_numbered(rt, alloc, &client.control, 1, on_control)
}

#[test]
fn word_of_control_counts_if_both_are_asked_for_a_shutdown(rt: HostRuntime) -> Result<(), Fail> {
    let alloc = rt.alloc();
    let opened = open(&rt, alloc)?;
    let asked = ask_both(&rt, alloc, &opened.client);
    let (ended, client) = run_asked(rt, alloc, asked, opened, 1, two_ariths(alloc))?;
    let due = ("shutdown_reply", 3, r#"{"restart":false,"status":"ok"}"#);
    let replied = expect_numbered(&rt, alloc, &client.control, (1, SHUTDOWN), due);
    drop(client);
    expect_end(&rt, &ended, false, 5);
    drop(ended);
    Ok(replied?)
}

/// Waits until a flag is raised.
fn await_flag(rt: &impl Abort, flag: &AtomicBool) {
    for _ in 0..TURNS {
        if flag.load(Ordering::SeqCst) {
            return;
        }
        thread::yield_now();
    }
    assert!(rt; false, "no output or no reply in time");
}

/// Receives a reply, and then raises a flag.
fn receive<R: Wait + Drop>(
    rt: R,
    from: Receiver<ReplyMessage>,
    came: Arc<AtomicBool, Global>,
) -> Option<ReplyMessage> {
    let reply = from.recv(&rt).ok();
    came.store(true, Ordering::SeqCst);
    reply
}

/// A thread that receives the next reply, and the flag that it raises then.
fn receiving<R>(
    rt: R,
    alloc: Global,
    line: &Line,
) -> Result<(JoinHandle<Option<ReplyMessage>>, Arc<AtomicBool, Global>), AllocError>
where
    R: Threads + Wait + Clock + Copy + Send + Sync + Drop + 'static,
{
    let (from, (of_thread, came)) = both(line.from.clone(), flag_twice(alloc))?;
    match thread::spawn(&rt, move || receive(rt, from, of_thread)) {
        Ok(thread) => Ok((thread, came)),
        Err(refused) => {
            drop(refused);
            drop(came);
            Err(AllocError)
        }
    }
}

/// That the next reply, for which it waits, ends in this.
fn expect_in_time<R>(rt: R, alloc: Global, line: &Line, due: &str) -> Result<(), AllocError>
where
    R: Threads + Wait + Clock + Abort + Copy + Send + Sync + Drop + 'static,
{
    let (thread, came) = receiving(rt, alloc, line)?;
    await_flag(&rt, &came);
    drop(came);
    let reply = thread.join(&rt).expect(&rt, "a reply");
    let text = frames_text(alloc, &reply.frames);
    drop(reply);
    let text = text?;
    assert!(rt; text.ends_with(due), "{text}");
    drop(text);
    Ok(())
}

/// Interrupts the cell that runs, and then asks for a shutdown.
fn interrupt<R>(rt: R, alloc: Global, client: &Client) -> Result<(), AllocError>
where
    R: Threads + Wait + Clock + Abort + Copy + Send + Sync + Drop + 'static,
{
    await_flag(&rt, &client.has_output);
    let control = &client.control;
    ask_numbered(&rt, alloc, control, 1, ("interrupt_request", "{}"))?;
    expect_in_time(rt, alloc, control, r#"{"status":"ok"}"#)?;
    expect_in_time(rt, alloc, &client.shell, INTERRUPTED)?;
    ask_numbered(&rt, alloc, control, 2, (SHUTDOWN, r#"{"restart":false}"#))
}

/// Has a kernel of long cells run in a thread of its own, if it was asked: that thread, and the client.
fn start_long<R>(
    rt: R,
    alloc: Global,
    asked: Result<(), AllocError>,
    opened: Opened,
) -> Result<(JoinHandle<Result<End, KernelFault>>, Client), AllocError>
where
    R: Threads + Wait + Clock + Copy + Send + Sync + Drop + 'static,
{
    let Ok(()) = asked else {
        drop(opened);
        return Err(AllocError);
    };
    let (parts, client) = kernel_of(alloc, opened, 1_024, (Long, Long));
    match thread::spawn(&rt, move || end_of(rt, alloc, parts)) {
        Ok(kernel) => Ok((kernel, client)),
        Err(refused) => {
            drop(refused);
            drop(client);
            Err(AllocError)
        }
    }
}

#[test]
fn a_cell_that_runs_is_interrupted(rt: HostRuntime) -> Result<(), Fail> {
    let alloc = rt.alloc();
    let opened = open(&rt, alloc)?;
    let cell = ("execute_request", r#"{"code":"x"}"#);
    let asked = ask_numbered(&rt, alloc, &opened.client.shell, 0, cell);
    let (kernel, client) = start_long(rt, alloc, asked, opened)?;
    let interrupted = interrupt(rt, alloc, &client);
    let ended = kernel.join(&rt).ok().expect(&rt, "an end");
    let due = ("shutdown_reply", 6, r#"{"restart":false,"status":"ok"}"#);
    let replied = expect_numbered(&rt, alloc, &client.control, (2, SHUTDOWN), due);
    drop(client);
    expect_end(&rt, &ended, false, LINES + 9);
    drop(ended);
    interrupted?;
    Ok(replied?)
}

/// The number of the fault for which no kernel runs on a queue of so many places.
fn refused_with<R>(rt: R, alloc: Global, capacity: usize) -> Result<Option<u8>, AllocError>
where
    R: Threads + Wait + Clock + Copy + Send + Sync + Drop + 'static,
{
    let opened = open(&rt, alloc)?;
    let (parts, client) = kernel_of(alloc, opened, capacity, two_ariths(alloc));
    drop(client);
    match end_of(rt, alloc, parts) {
        Ok(ended) => {
            drop(ended);
            Ok(None)
        }
        Err(fault) => {
            let number = fault.number();
            drop(fault);
            Ok(Some(number))
        }
    }
}

#[test]
fn no_kernel_runs_on_a_queue_of_no_place_or_too_many(rt: HostRuntime) -> Result<(), Fail> {
    for capacity in [0, 65_537] {
        let number = refused_with(rt, rt.alloc(), capacity)?;
        assert_eq!(rt; number, Some(61), "{capacity} places");
    }
    Ok(())
}
