//! The worker of subscriptions: what it publishes and what it drops.

use super::*;
use kernel_workers::SubscriptionsWorker;
use listed::Octets;
use std::thread::Threads;
use test_requests::send;

/// An inbox in which a message waits among events, and one of them after the end.
fn inbox_of<R: Wait>(rt: &R, alloc: Global) -> Result<Arrivals<Event<()>>, AllocError> {
    let (to, from) = channel(alloc)?;
    let put = put_events(rt, alloc, &to);
    drop(to);
    match put {
        Ok(()) => Ok(Arrivals::new(from)),
        Err(AllocError) => {
            drop(from);
            Err(AllocError)
        }
    }
}

/// Puts the events into an inbox, and the end before the last.
fn put_events<R: Wait>(
    rt: &R,
    alloc: Global,
    to: &Sender<Note<Event<()>>>,
) -> Result<(), AllocError> {
    send(rt, to, Note::Item(Event::Attach(1, ())))?;
    let message = Frames::new(Vec::new(alloc));
    send(rt, to, Note::Item(Event::Message(message)))?;
    let topic = Octets::new(Vec::new(alloc));
    send(rt, to, Note::Item(Event::Subscribe(1, topic)))?;
    let context = Octets::new(b"hi".to_vec(alloc)?);
    send(rt, to, Note::Item(Event::Pong(1, context)))?;
    send(rt, to, Note::End)?;
    send(rt, to, Note::Item(Event::Detach(1)))
}

/// What is taken of a worker of subscriptions that has this inbox, while the others publish nothing.
fn seen_of<R>(rt: R, alloc: Global, inbox: Arrivals<Event<()>>) -> Result<Seen, AllocError>
where
    R: Threads + Wait + Abort + Copy + Send + Sync + Drop + 'static,
{
    let Ok(queue) = Queue::open(&rt, alloc, 2) else {
        drop(inbox);
        return Err(AllocError);
    };
    let Queue {
        shell,
        control,
        subscriptions,
        mut taker,
        parker,
    } = queue;
    drop(shell.close());
    drop(control.close());
    let worker = SubscriptionsWorker {
        sink: subscriptions,
        inbox,
    };
    let worker = worker.spawn(rt).expect(&rt, "a thread");
    let mut seen = Vec::new(alloc);
    let taken = take_all(&rt, alloc, &mut taker, &parker, &mut seen);
    drop(taker);
    drop(parker);
    drop(worker.join(&rt));
    match taken {
        Ok(()) => Ok(seen),
        Err(AllocError) => {
            drop(seen);
            Err(AllocError)
        }
    }
}

/// What is due.
const DUE: [&str; 6] = [
    "0 closed",
    "1 closed",
    "2 attach 1",
    "2 subscribe 1",
    "2 pong 1 [104, 105]",
    "2 closed",
];

#[test]
fn no_message_is_published_and_nothing_after_the_end(rt: HostRuntime) -> Result<(), Fail> {
    let alloc = rt.alloc();
    let inbox = inbox_of(&rt, alloc)?;
    let seen = seen_of(rt, alloc, inbox)?;
    let count = seen.len();
    let is_due = seen
        .iter()
        .zip(DUE.iter())
        .all(|(text, due)| text.as_str() == *due);
    drop(seen);
    assert_eq!(rt; (count, is_due), (DUE.len(), true));
    Ok(())
}
