//! Control beside shell: it interrupts a cell, and ends shell with itself if it is asked for a shutdown.

use super::*;
use kernel_workers::{ControlWorker, Flags, ShellEnd, ShellWorker};
use std::thread;
use test_requests::INTERRUPTED;

/// The steps of the cell that is interrupted.
const STEPS: usize = 20_000;

/// The workers of shell and control, who know one another, and their inboxes.
#[derive(Drop)]
pub(crate) struct Pair<R: Wait> {
    /// Shell's.
    pub(crate) shell: ShellWorker<ShellArith, OneDate, (), R>,
    /// Control's.
    pub(crate) control: ControlWorker<ShellArith, OneDate, (), R>,
    /// Where requests to shell are put.
    pub(crate) to_shell: Sender<Note<Job>>,
    /// Where requests to control are put.
    pub(crate) to_control: Sender<Note<Job>>,
}

/// By which two workers know one another.
#[derive(Drop)]
pub(crate) struct Lines {
    /// Where requests to shell are put, and its inbox.
    pub(crate) shell: (Sender<Note<Job>>, Receiver<Note<Job>>),
    /// Where requests to control are put, twice, and its inbox.
    pub(crate) control: (Sender<Note<Job>>, Sender<Note<Job>>, Receiver<Note<Job>>),
    /// By which control ends shell, and the flags of shell.
    end: (ShellEnd, Flags),
}

impl Lines {
    /// The lines of two workers.
    pub(crate) fn lay(alloc: Global) -> Result<Lines, AllocError> {
        let (shell, control) = both(channel(alloc), channel_twice(alloc))?;
        match shell_end(alloc, &shell.0) {
            Ok(end) => Ok(Lines {
                shell,
                control,
                end,
            }),
            Err(AllocError) => {
                drop(shell);
                drop(control);
                Err(AllocError)
            }
        }
    }
}

/// An inbox into which two may put.
fn channel_twice(
    alloc: Global,
) -> Result<(Sender<Note<Job>>, Sender<Note<Job>>, Receiver<Note<Job>>), AllocError> {
    let (to, from) = channel(alloc)?;
    match to.clone() {
        Ok(other) => Ok((other, to, from)),
        Err(AllocError) => {
            drop((to, from));
            Err(AllocError)
        }
    }
}

/// By which control ends shell, which has this inbox, and the flags of shell.
fn shell_end(alloc: Global, to_shell: &Sender<Note<Job>>) -> Result<(ShellEnd, Flags), AllocError> {
    let flags = Flags::new(alloc)?;
    let end = ShellEnd::new(&flags, to_shell);
    drop(flags);
    end
}

/// Two workers who know one another by these lines, with these engines.
pub(crate) fn pair_of<R: Wait + Drop>(
    lines: Lines,
    shell: ArithEngine<R>,
    control: ArithEngine<R>,
) -> Pair<R> {
    let (to_shell, shell_inbox) = lines.shell;
    let (to_control, control_of_shell, control_inbox) = lines.control;
    let (shell_end, flags) = lines.end;
    Pair {
        shell: ShellWorker {
            engine: shell,
            inbox: Arrivals::new(shell_inbox),
            flags,
            control: control_of_shell,
        },
        control: ControlWorker {
            engine: control,
            inbox: Arrivals::new(control_inbox),
            shell: shell_end,
        },
        to_shell,
        to_control,
    }
}

/// The content of an execute request for a cell of many steps.
fn long_cell(alloc: Global) -> Result<String, AllocError> {
    let mut content = String::new(alloc);
    match push_long_cell(&mut content) {
        Ok(()) => Ok(content),
        Err(AllocError) => {
            drop(content);
            Err(AllocError)
        }
    }
}

/// Adds the content of an execute request for a cell of many steps.
fn push_long_cell(content: &mut String) -> Result<(), AllocError> {
    content.push_str(r#"{"code":"1"#)?;
    for _ in 1..STEPS {
        content.push_str(";1")?;
    }
    content.push_str(r#""}"#)
}

/// The text of the next reply, if there is one.
fn reply_text<R: Wait>(
    rt: &R,
    alloc: Global,
    replies: &Receiver<ReplyMessage>,
) -> Option<Result<String, AllocError>> {
    let reply = replies.try_recv(rt).ok()?;
    let text = frames_text(alloc, &reply.frames);
    drop(reply);
    Some(text)
}

/// Takes until a reply comes, and gives it.
fn take_until<R: Wait>(
    rt: &R,
    alloc: Global,
    taker: &mut Taker<Event<()>, R>,
    seen: &mut Seen,
    replies: &Receiver<ReplyMessage>,
) -> Result<String, AllocError> {
    for _ in rt.forever() {
        if let Some(text) = reply_text(rt, alloc, replies) {
            return text;
        }
        match taker.take() {
            Taken::Empty => thread::yield_now(),
            taken => see(alloc, taken, seen)?,
        }
    }
    unreachable!()
}

/// Puts a request into an inbox: where its reply comes out.
fn ask_alone<R: Wait>(
    rt: &R,
    alloc: Global,
    inbox: &Sender<Note<Job>>,
    request: (&str, &str),
) -> Result<Receiver<ReplyMessage>, AllocError> {
    let (replies, from) = channel(alloc)?;
    let asked = ask(rt, alloc, inbox, &replies, request);
    drop(replies);
    match asked {
        Ok(()) => Ok(from),
        Err(AllocError) => {
            drop(from);
            Err(AllocError)
        }
    }
}

/// Has a long cell run on shell: where its reply comes out.
fn ask_for_long_cell<R: Wait>(
    rt: &R,
    alloc: Global,
    to_shell: &Sender<Note<Job>>,
) -> Result<Receiver<ReplyMessage>, AllocError> {
    let cell = long_cell(alloc)?;
    let asked = ask_alone(rt, alloc, to_shell, ("execute_request", cell.as_str()));
    drop(cell);
    asked
}

/// Takes until four were seen.
fn take_four<R: Wait>(
    rt: &R,
    alloc: Global,
    taker: &mut Taker<Event<()>, R>,
    seen: &mut Seen,
) -> Result<(), AllocError> {
    for _ in rt.forever() {
        if seen.len() >= 4 {
            break;
        }
        see(alloc, taker.take(), seen)?;
    }
    Ok(())
}

/// Interrupts the cell that runs, and expects the reply to that.
fn interrupt<R: Wait + Abort>(
    rt: &R,
    alloc: Global,
    to_control: &Sender<Note<Job>>,
    taker: &mut Taker<Event<()>, R>,
    seen: &mut Seen,
) -> Result<(), AllocError> {
    let from_control = ask_alone(rt, alloc, to_control, ("interrupt_request", "{}"))?;
    let text = take_until(rt, alloc, taker, seen, &from_control);
    drop(from_control);
    let due = ("interrupt_reply", 3, r#"{"status":"ok"}"#);
    expect_same(rt, text, due_text(alloc, "", due, "interrupt_request"))
}

/// Interrupts the cell that runs on shell, once it has an output: its reply.
fn interrupt_cell<R: Wait + Abort>(
    rt: &R,
    alloc: Global,
    (to_control, from_shell): (&Sender<Note<Job>>, &Receiver<ReplyMessage>),
    taker: &mut Taker<Event<()>, R>,
    seen: &mut Seen,
) -> Result<String, AllocError> {
    take_four(rt, alloc, taker, seen)?;
    interrupt(rt, alloc, to_control, taker, seen)?;
    take_until(rt, alloc, taker, seen, from_shell)
}

/// Has a long cell run on shell, and interrupts it by control, once it has an output.
fn interrupt_long_cell<R: Wait + Abort>(
    rt: &R,
    alloc: Global,
    (to_shell, to_control): (&Sender<Note<Job>>, &Sender<Note<Job>>),
    taker: &mut Taker<Event<()>, R>,
    seen: &mut Seen,
) -> Result<(), AllocError> {
    let from_shell = ask_for_long_cell(rt, alloc, to_shell)?;
    let text = interrupt_cell(rt, alloc, (to_control, &from_shell), taker, seen);
    drop(from_shell);
    let text = text?;
    assert!(rt; text.ends_with(INTERRUPTED), "{text}");
    drop(text);
    Ok(())
}

/// Has a long cell run on shell, interrupts it by control once it has an output, and then asks control for a shutdown:
/// where the reply to that goes.
fn converse<R: Wait + Abort>(
    rt: &R,
    alloc: Global,
    peers: (&Sender<Note<Job>>, &Sender<Note<Job>>),
    taker: &mut Taker<Event<()>, R>,
) -> Result<Receiver<ReplyMessage>, AllocError> {
    let mut seen = Vec::new(alloc);
    let interrupted = interrupt_long_cell(rt, alloc, peers, taker, &mut seen);
    drop(seen);
    interrupted?;
    ask_alone(rt, alloc, peers.1, ("shutdown_request", "{}"))
}

/// Why a worker ended.
#[derive(Clone, Copy, Debug, PartialEq, Eq)]
enum Why {
    /// It was told to.
    Told,
    /// For a request for a shutdown, which it left.
    Shutdown,
    /// For something else.
    Other,
}

/// Why a worker ended, by its cause.
fn why_of(cause: &Cause) -> Why {
    match cause {
        Cause::Told => Why::Told,
        Cause::Asked(asking) if asking.request.msg_type.as_str() == "shutdown_request" => {
            Why::Shutdown
        }
        Cause::Asked(_) | Cause::Shutdown { .. } | Cause::Worn => Why::Other,
    }
}

/// Why a worker ended, whether it published that the kernel starts, and how many jobs it left undone.
fn look_at<R: Wait + Drop>(ended: Ended<ShellArith, OneDate, (), R>) -> (Why, bool, u64) {
    let looks = (
        why_of(&ended.cause),
        ended.started,
        ended.work.outcomes.undone,
    );
    drop(ended);
    looks
}

/// The two workers over a queue of two places, and what takes.
fn open_pair<R: Wait + Copy + Drop>(
    rt: &R,
    alloc: Global,
) -> Result<(Pair<R>, Taker<Event<()>, R>), AllocError> {
    let (lines, engines) = both(Lines::lay(alloc), Engines::open(rt, alloc, 2))?;
    let Engines {
        shell,
        control,
        subscriptions,
        taker,
        parker,
    } = engines;
    drop(subscriptions);
    drop(parker);
    Ok((pair_of(lines, shell, control), taker))
}

#[test]
fn control_interrupts_a_cell_and_leaves_a_shutdown_for_later(rt: HostRuntime) -> Result<(), Fail> {
    let alloc = rt.alloc();
    let (pair, mut taker) = open_pair(&rt, alloc)?;
    let Pair {
        shell,
        control,
        to_shell,
        to_control,
    } = pair;
    let shell = shell.spawn(rt, alloc).expect(&rt, "a thread");
    let control = control.spawn(rt, alloc).expect(&rt, "a thread");
    let talked = converse(&rt, alloc, (&to_shell, &to_control), &mut taker);
    drop(taker);
    let shell = look_at(shell.join(&rt));
    let control = look_at(control.join(&rt));
    drop((to_shell, to_control));
    assert_eq!(rt; shell, (Why::Told, true, 0));
    assert_eq!(rt; control, (Why::Shutdown, false, 0));
    let from_control = talked?;
    let is_replied = has_reply(&rt, &from_control);
    drop(from_control);
    assert!(rt; !is_replied);
    Ok(())
}
