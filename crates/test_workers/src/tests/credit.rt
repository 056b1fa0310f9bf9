//! What a connection has in work: a job's part of it is there while the job waits, and its reply's part until that is
//! dropped.

use super::*;
use crate::tests::control::{Lines, Pair, pair_of};
use kernel_jobs::{Account, Credit};
use std::sync::Arc;
use std::thread;
use std::thread::Threads;
use test_requests::{ASKED, SHUTDOWN, put, request_frames};

/// The octets that each job is said to have.
const OCTETS: usize = 7;

/// Puts a request of this type with a part of an account into an inbox.
fn ask_counted<R: Wait>(
    rt: &R,
    alloc: Global,
    (inbox, replies): (&Sender<Note<Job>>, &Sender<ReplyMessage>),
    msg_type: &str,
    account: &Arc<Account, Global>,
) -> Result<(), AllocError> {
    let request = request_frames(alloc, (msg_type, "{}"));
    let (request, credit) = both(request, Credit::take(account, OCTETS))?;
    put(rt, inbox, replies, request, Some(credit))
}

/// That so many jobs, unwritten replies and octets of an account are in work.
fn expect_in_work(
    rt: &impl Abort,
    account: &Account,
    (jobs, replies, octets): (usize, usize, usize),
) {
    assert_eq!(rt; account.jobs(), jobs);
    assert_eq!(rt; account.replies(), replies);
    assert_eq!(rt; account.octets(), octets);
}

/// How many octets a message has in ZMTP.
fn octets_of(frames: &[Vec<u8>]) -> usize {
    let mut octets = 0usize;
    for frame in frames {
        let head = if frame.len() < 256 { 2 } else { 9 };
        octets = octets.saturating_add(frame.len()).saturating_add(head);
    }
    octets
}

/// Expects three replies, which have all that is in work of an account, until they are dropped one after the other.
fn expect_three_replies<R: Wait + Abort>(rt: &R, from: &Receiver<ReplyMessage>, account: &Account) {
    let mut left = account.octets();
    for replies in [3, 2, 1] {
        expect_in_work(rt, account, (0, replies, left));
        let reply = from.try_recv(rt).ok().expect(rt, "a reply");
        left = left.saturating_sub(octets_of(reply.frames.as_slice()));
        drop(reply);
    }
    assert_eq!(rt; left, 0);
    expect_in_work(rt, account, (0, 0, 0));
    assert!(rt; !has_reply(rt, from));
}

/// An account, and what its reader sleeps on.
fn open_account(alloc: Global) -> Result<(Parker, Arc<Account, Global>), AllocError> {
    let Ok(reader) = Parker::new(alloc) else {
        return Err(AllocError);
    };
    match account_of(alloc, &reader) {
        Ok(account) => Ok((reader, account)),
        Err(AllocError) => {
            drop(reader);
            Err(AllocError)
        }
    }
}

/// An account that has nothing in work, and wakes this reader.
fn account_of(alloc: Global, reader: &Parker) -> Result<Arc<Account, Global>, AllocError> {
    let account = Account::new(reader.unparker().clone()?);
    match Arc::new(alloc, account) {
        Ok(account) => Ok(account),
        Err(_) => Err(AllocError),
    }
}

/// What a connection has: what it is counted by, where its replies go, and the workers' inboxes.
#[derive(Drop)]
struct Connection {
    /// What its reader sleeps on.
    reader: Parker,
    /// What it is counted by.
    account: Arc<Account, Global>,
    /// Where replies go.
    replies: Sender<ReplyMessage>,
    /// Where they come out.
    from: Receiver<ReplyMessage>,
    /// The inboxes.
    lines: Lines,
}

/// A connection that has asked nothing.
fn connect(alloc: Global) -> Result<Connection, AllocError> {
    let peer = both(open_account(alloc), channel(alloc));
    let (peer, lines) = both(peer, Lines::lay(alloc))?;
    let ((reader, account), (replies, from)) = peer;
    Ok(Connection {
        reader,
        account,
        replies,
        from,
        lines,
    })
}

/// Puts three requests into the inbox of shell and one into that of control, with a part of an account each. Shell ends
/// at the second.
fn ask_four<R: Wait>(rt: &R, alloc: Global, connection: &Connection) -> Result<(), AllocError> {
    let (replies, account) = (&connection.replies, &connection.account);
    let shell = (&connection.lines.shell.0, replies);
    for msg_type in [ASKED, SHUTDOWN, ASKED] {
        ask_counted(rt, alloc, shell, msg_type, account)?;
    }
    let control = (&connection.lines.control.0, replies);
    ask_counted(rt, alloc, control, ASKED, account)
}

/// A connection that has asked four times.
fn connect_and_ask<R: Wait + Abort>(rt: &R, alloc: Global) -> Result<Connection, AllocError> {
    let connection = connect(alloc)?;
    expect_in_work(rt, &connection.account, (0, 0, 0));
    match ask_four(rt, alloc, &connection) {
        Ok(()) => {
            expect_in_work(rt, &connection.account, (4, 0, 28));
            Ok(connection)
        }
        Err(AllocError) => {
            drop(connection);
            Err(AllocError)
        }
    }
}

/// Has both workers run to their end, while all is taken that they publish.
fn run_both<R>(rt: R, alloc: Global, lines: Lines, engines: Engines<R>) -> Result<(), AllocError>
where
    R: Threads + Wait + Abort + Copy + Send + Sync + Drop + 'static,
{
    let Engines {
        shell,
        control,
        subscriptions,
        mut taker,
        parker,
    } = engines;
    drop(subscriptions.close());
    let Pair {
        shell,
        control,
        to_shell,
        to_control,
    } = pair_of(lines, shell, control);
    let control = thread::spawn(&rt, move || close_after(control.run(rt, alloc)));
    let control = control.ok().expect(&rt, "a thread");
    let shell = thread::spawn(&rt, move || close_after(shell.run(rt, alloc)));
    let shell = shell.ok().expect(&rt, "a thread");
    let mut seen = Vec::new(alloc);
    let taken = take_all(&rt, alloc, &mut taker, &parker, &mut seen);
    drop((seen, taker, parker));
    drop(shell.join(&rt));
    drop(control.join(&rt));
    drop((to_shell, to_control));
    taken
}

#[test]
fn what_a_job_and_its_reply_have_of_an_account_is_given_back(rt: HostRuntime) -> Result<(), Fail> {
    let alloc = rt.alloc();
    let opened = both(connect_and_ask(&rt, alloc), Engines::open(&rt, alloc, 4));
    let (connection, engines) = opened?;
    let Connection {
        reader,
        account,
        replies,
        from,
        lines,
    } = connection;
    let taken = run_both(rt, alloc, lines, engines);
    expect_three_replies(&rt, &from, &account);
    reader.park(&rt);
    drop((reader, account, replies, from));
    Ok(taken?)
}
