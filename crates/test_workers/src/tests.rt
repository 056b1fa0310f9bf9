//! Workers over shell arithmetic in threads of their own, with the taker beside them: what they publish, reply and end
//! by.

mod control;
mod credit;
mod shell;
mod subscriptions;
mod waking;

ghost use Rattle.std.specs.Prelude.{◌≡◌, [], IfOk};
ghost use Rattle.kernel_workers.specs.Starting.{IsOpened};

use arith_shell::ShellArith;
use crossbeam_channel::{Receiver, Sender, unbounded};
use crossbeam_utils::sync::{Parker, Unparker};
use iopub_event::Event;
use iopub_queue::{Taken, Taker};
use jmsg_envelope::Signer;
use kernel_engine::{Engine, Side};
use kernel_jobs::{Arrivals, Job, Note, ReplyMessage};
use kernel_workers::{Cause, Ended, Waking};
use listed::Frames;
use std::alloc::{AllocError, Global};
use std::process::Abort;
use std::sync::Wait;
use std::test::Fail;
use test_requests::{OneDate, ask, both, due_text, frames_text, open_three};

/// Three publishers that wake, with the taker, and what the taker sleeps on.
#[derive(Drop)]
struct Queue<R> {
    /// The publisher of shell.
    shell: Waking<Event<()>, R>,
    /// The publisher of control.
    control: Waking<Event<()>, R>,
    /// The publisher of subscriptions.
    subscriptions: Waking<Event<()>, R>,
    /// What takes.
    taker: Taker<Event<()>, R>,
    /// What the taker sleeps on.
    parker: Parker,
}

/// What wakes one that sleeps, three times.
fn unparkers_of(parker: &Parker) -> Result<(Unparker, Unparker, Unparker), AllocError> {
    let unparker = parker.unparker();
    Ok((unparker.clone()?, unparker.clone()?, unparker.clone()?))
}

impl<R: Wait + Copy + Drop> Queue<R> {
    /// A queue of three publishers and so many places.
    fn open(rt: &R, alloc: Global, capacity: usize) -> Result<Queue<R>, AllocError>
        ensures { IfOk result (λ queue. IsOpened queue.shell queue.control queue.subscriptions queue.taker) }
    {
        let Ok(parker) = Parker::new(alloc) else {
            return Err(AllocError);
        };
        let Ok((shell, control, subscriptions, taker)) = open_three(rt, alloc, capacity) else {
            drop(parker);
            return Err(AllocError);
        };
        match unparkers_of(&parker) {
            Ok((for_shell, for_control, for_subscriptions)) => Ok(Queue {
                shell: Waking::new(shell, for_shell),
                control: Waking::new(control, for_control),
                subscriptions: Waking::new(subscriptions, for_subscriptions),
                taker,
                parker,
            }),
            Err(AllocError) => {
                drop((parker, shell, control, subscriptions, taker));
                Err(AllocError)
            }
        }
    }
}

/// What handles the requests of a worker that publishes by a sink.
type ArithEngine<R> = Engine<ShellArith, Waking<Event<()>, R>, OneDate, ()>;

/// An engine of a channel that publishes by a sink: arithmetic, and no key.
fn arith_engine<R: Wait>(alloc: Global, side: Side, sink: Waking<Event<()>, R>) -> ArithEngine<R>
    requires { sink.published ≡ [] }
{
    let signer = Signer::new(Vec::new(alloc));
    Engine::new(side, ShellArith::new(alloc), sink, OneDate, signer)
}

/// The engines of shell and control over a queue, with the rest of that.
#[derive(Drop)]
struct Engines<R: Wait> {
    /// The engine of shell.
    shell: ArithEngine<R>,
    /// The engine of control.
    control: ArithEngine<R>,
    /// The publisher of subscriptions.
    subscriptions: Waking<Event<()>, R>,
    /// What takes.
    taker: Taker<Event<()>, R>,
    /// What the taker sleeps on.
    parker: Parker,
}

impl<R: Wait + Copy + Drop> Engines<R> {
    /// Both engines over a queue of so many places.
    fn open(rt: &R, alloc: Global, capacity: usize) -> Result<Engines<R>, AllocError> {
        let Queue {
            shell,
            control,
            subscriptions,
            taker,
            parker,
        } = Queue::open(rt, alloc, capacity)?;
        Ok(Engines {
            shell: arith_engine(alloc, Side::Shell, shell),
            control: arith_engine(alloc, Side::Control, control),
            subscriptions,
            taker,
            parker,
        })
    }
}

/// Closes the publisher of an engine.
fn close<R: Wait + Drop>(engine: ArithEngine<R>) {
    let parts = engine.close().into_parts();
    let publishing = parts.publishing;
    drop(publishing.sink.close());
}

/// Closes the publisher of an engine that a worker left, and says why that one ended.
fn close_after<R: Wait + Drop>(ended: Ended<ShellArith, OneDate, (), R>) -> Cause {
    let Ended {
        work,
        cause,
        started: _,
    } = ended;
    close(work.engine);
    drop(work.inbox);
    cause
}

/// A channel that holds any number.
fn channel<T: Drop>(alloc: Global) -> Result<(Sender<T>, Receiver<T>), AllocError> {
    match unbounded(alloc) {
        Ok(ends) => Ok(ends),
        Err(_) => Err(AllocError),
    }
}

/// What was taken, each as a text: its publisher's number, and its frames or what else it is.
type Seen = Vec<String>;

/// What was published, as a text after its publisher's number.
fn text_of(alloc: Global, number: usize, event: &Event<()>) -> Result<String, AllocError> {
    match event {
        Event::Message(frames) => message_text(alloc, number, frames),
        Event::Attach(id, ()) => format!(in alloc; "{number} attach {id}"),
        Event::Subscribe(id, _) => format!(in alloc; "{number} subscribe {id}"),
        Event::Cancel(id, _) => format!(in alloc; "{number} cancel {id}"),
        Event::Pong(id, context) => format!(in alloc;
            "{number} pong {id} {:?}",
            context.as_slice()
        ),
        Event::Detach(id) => format!(in alloc; "{number} detach {id}"),
    }
}

/// A message, as a text after its publisher's number.
fn message_text(alloc: Global, number: usize, frames: &Frames) -> Result<String, AllocError> {
    let frames = frames_text(alloc, frames)?;
    let text = format!(in alloc; "{number} {frames}");
    drop(frames);
    text
}

/// Adds a text to what was seen.
fn add(seen: &mut Seen, text: Result<String, AllocError>) -> Result<(), AllocError> {
    match seen.push(text?) {
        Ok(()) => Ok(()),
        Err(refused) => {
            drop(refused);
            Err(AllocError)
        }
    }
}

/// Adds what was taken to what was seen.
fn see(alloc: Global, taken: Taken<Event<()>>, seen: &mut Seen) -> Result<(), AllocError> {
    match taken {
        Taken::Item(number, event) => {
            let text = text_of(alloc, number, &event);
            drop(event);
            add(seen, text)
        }
        Taken::Closed(number) => add(seen, format!(in alloc; "{number} closed")),
        Taken::Empty | Taken::Complete => Ok(()),
    }
}

/// Takes all that the three publishers publish, and sleeps if nothing waits.
fn take_all<R: Wait>(
    rt: &R,
    alloc: Global,
    taker: &mut Taker<Event<()>, R>,
    parker: &Parker,
    seen: &mut Seen,
) -> Result<(), AllocError> {
    for _ in rt.forever() {
        match taker.take() {
            Taken::Empty => parker.park(rt),
            Taken::Complete => return Ok(()),
            taken => see(alloc, taken, seen)?,
        }
    }
    unreachable!()
}

/// That a text is the one that is due.
fn expect_same(
    rt: &impl Abort,
    text: Result<String, AllocError>,
    due: Result<String, AllocError>,
) -> Result<(), AllocError> {
    let (text, due) = both(text, due)?;
    assert_eq!(rt; text.as_str(), due.as_str());
    drop(text);
    drop(due);
    Ok(())
}

/// That the next reply is this one, to a request of a type.
fn expect_reply<R: Wait + Abort>(
    rt: &R,
    alloc: Global,
    replies: &Receiver<ReplyMessage>,
    due: (&str, u64, &str),
    parent_type: &str,
) -> Result<(), AllocError> {
    let reply = replies.recv(rt).ok().expect(rt, "a reply");
    let text = frames_text(alloc, &reply.frames);
    drop(reply);
    expect_same(rt, text, due_text(alloc, "", due, parent_type))
}

/// Whether another reply is there.
fn has_reply<R: Wait>(rt: &R, replies: &Receiver<ReplyMessage>) -> bool {
    match replies.try_recv(rt) {
        Ok(reply) => {
            drop(reply);
            true
        }
        Err(_) => false,
    }
}
