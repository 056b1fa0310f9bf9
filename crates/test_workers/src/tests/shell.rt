//! Shell in a thread of its own, with nobody else.

use super::*;
use kernel_workers::{Flags, ShellWorker};
use std::thread;
use std::thread::{JoinHandle, Threads};
use test_requests::{ASKED, INFO, SHUTDOWN, put};

/// A status that was published by shell.
fn status(
    alloc: Global,
    number: u64,
    state: &str,
    parent_type: &str,
) -> Result<String, AllocError> {
    let content = format!(in alloc; "{{\"execution_state\":\"{state}\"}}")?;
    let due = ("status", number, content.as_str());
    let text = due_text(alloc, "0 status\n", due, parent_type);
    drop(content);
    text
}

/// That a text that was seen is this status of shell.
fn expect_status(
    rt: &impl Abort,
    seen: Option<&String>,
    status: Result<String, AllocError>,
) -> Result<(), AllocError> {
    let status = status?;
    assert_eq!(rt; seen.map(String::as_str), Some(status.as_str()));
    drop(status);
    Ok(())
}

/// That all was seen which shell publishes of two requests and a shutdown.
fn expect_blocks(rt: &impl Abort, alloc: Global, seen: &Seen) -> Result<(), AllocError> {
    assert_eq!(rt; seen.len(), 10);
    let blocks = [(2, ASKED), (5, ASKED), (8, SHUTDOWN)];
    for (place, (number, parent_type)) in blocks.iter().enumerate() {
        let busy = status(alloc, *number, "busy", parent_type);
        expect_status(rt, seen.get(3 + 2 * place), busy)?;
        let idle = status(alloc, number + 1, "idle", parent_type);
        expect_status(rt, seen.get(4 + 2 * place), idle)?;
    }
    assert_eq!(rt; seen.get(9).map(String::as_str), Some("0 closed"));
    Ok(())
}

/// What is outside of shell: where requests are put, and what comes of them.
#[derive(Drop)]
struct Outside {
    /// The inbox of shell.
    to: Sender<Note<Job>>,
    /// The inbox of control.
    control: Receiver<Note<Job>>,
    /// Where replies go.
    replies: Sender<ReplyMessage>,
    /// Where they come out.
    from: Receiver<ReplyMessage>,
}

/// What shell hears and is stopped by.
#[derive(Drop)]
struct Inside {
    /// Its inbox.
    inbox: Receiver<Note<Job>>,
    /// Where control is told.
    control: Sender<Note<Job>>,
    /// Its flags.
    flags: Flags,
}

/// What shell hears, and what is outside of it.
fn sides(alloc: Global) -> Result<(Inside, Outside), AllocError> {
    let inboxes = both(channel(alloc), channel(alloc));
    let rest = both(channel(alloc), Flags::new(alloc));
    let (inboxes, rest) = both(inboxes, rest)?;
    let ((to, inbox), (control, control_in)) = inboxes;
    let ((replies, from), flags) = rest;
    let inside = Inside {
        inbox,
        control,
        flags,
    };
    let outside = Outside {
        to,
        control: control_in,
        replies,
        from,
    };
    Ok((inside, outside))
}

/// Asks twice what the kernel is, with nothing in between, and then for a shutdown.
fn ask_all<R: Wait>(rt: &R, alloc: Global, outside: &Outside) -> Result<(), AllocError> {
    let (to, replies) = (&outside.to, &outside.replies);
    ask(rt, alloc, to, replies, (ASKED, "{}"))?;
    put(rt, to, replies, Frames::new(Vec::new(alloc)), None)?;
    ask(rt, alloc, to, replies, (ASKED, "{}"))?;
    ask(rt, alloc, to, replies, (SHUTDOWN, r#"{"restart":true}"#))
}

/// What shell hears, and what is outside of it, once all was asked.
fn asked_sides<R: Wait>(rt: &R, alloc: Global) -> Result<(Inside, Outside), AllocError> {
    let (inside, outside) = sides(alloc)?;
    match ask_all(rt, alloc, &outside) {
        Ok(()) => Ok((inside, outside)),
        Err(AllocError) => {
            drop(inside);
            drop(outside);
            Err(AllocError)
        }
    }
}

/// Whether shell told its end to control, by one note.
fn has_told_its_end<R: Wait>(rt: &R, control: &Receiver<Note<Job>>) -> bool {
    let told = matches!(control.recv(rt), Ok(Note::End));
    told && matches!(control.recv(rt), Err(_))
}

/// Expects the reply to each of these, and that shell tells its end, by one note to control.
fn expect_replies<R: Wait + Abort>(
    rt: &R,
    alloc: Global,
    outside: &Outside,
) -> Result<(), AllocError> {
    let from = &outside.from;
    expect_reply(rt, alloc, from, ("kernel_info_reply", 4, INFO), ASKED)?;
    expect_reply(rt, alloc, from, ("kernel_info_reply", 7, INFO), ASKED)?;
    let due = r#"{"restart":true,"status":"ok"}"#;
    expect_reply(rt, alloc, from, ("shutdown_reply", 10, due), SHUTDOWN)?;
    assert!(rt; has_told_its_end(rt, &outside.control));
    Ok(())
}

/// Takes all that shell publishes, and expects what is due.
fn converse<R: Wait + Abort>(
    rt: &R,
    alloc: Global,
    outside: &Outside,
    taker: &mut Taker<Event<()>, R>,
    parker: &Parker,
) -> Result<(), AllocError> {
    let mut seen = Vec::new(alloc);
    let taken = take_all(rt, alloc, taker, parker, &mut seen);
    let is_due = expect_blocks(rt, alloc, &seen);
    drop(seen);
    taken?;
    is_due?;
    expect_replies(rt, alloc, outside)
}

/// Shell, in a thread of its own: why it ends.
fn start<R>(rt: R, alloc: Global, engine: ArithEngine<R>, inside: Inside) -> JoinHandle<Cause>
where
    R: Threads + Wait + Abort + Copy + Send + Sync + Drop + 'static,
{
    let Inside {
        inbox,
        control,
        flags,
    } = inside;
    let worker = ShellWorker {
        engine,
        inbox: Arrivals::new(inbox),
        flags,
        control,
    };
    let shell = thread::spawn(&rt, move || close_after(worker.run(rt, alloc)));
    shell.ok().expect(&rt, "a thread")
}

/// Whether a worker ended for a shutdown after which the kernel begins anew.
fn restarts(cause: Cause) -> bool {
    let restarts = matches!(&cause, Cause::Shutdown { restart: true });
    drop(cause);
    restarts
}

#[test]
fn shell_replies_until_a_client_ends_it(rt: HostRuntime) -> Result<(), Fail> {
    let alloc = rt.alloc();
    let opened = both(asked_sides(&rt, alloc), Engines::open(&rt, alloc, 3));
    let ((inside, outside), engines) = opened?;
    let Engines {
        shell,
        control,
        subscriptions,
        mut taker,
        parker,
    } = engines;
    close(control);
    drop(subscriptions.close());
    let shell = start(rt, alloc, shell, inside);
    let conversed = converse(&rt, alloc, &outside, &mut taker, &parker);
    drop((outside, taker, parker));
    let is_due = restarts(shell.join(&rt));
    assert!(rt; is_due);
    Ok(conversed?)
}
