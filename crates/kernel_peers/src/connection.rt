//! Connections of shell and control: one thread reads a peer's requests and answers its PINGs, another writes the
//! replies.

ghost use Rattle.std.specs.Prelude.{◌≡◌, IfOk};

use crate::asking::shows_key;
use crate::mailbox::{Mailbox, Replies};
use crate::mailboxes::{Caller, Mailboxes, wake};
use crossbeam_channel::{SendError, Sender};
use crossbeam_utils::sync::{Parker, Unparker};
use jmsg_envelope::{Signer, check_signature};
use kernel_jobs::{Credit, Job, Note, ReplyMessage};
use kernel_limits::limits::READS;
use kernel_limits::{Claim, may_read};
use kernel_sockets::{
    Gauge, Guest, Reader, SharedWriter, Socket, hear_out, is_named_well, pong_to,
};
use listed::Frames;
use std::alloc::{AllocError, Global};
use std::sync::{Arc, Wait};
use std::thread;
use std::thread::Threads;
use std::time::{Clock, Duration};
use zmtp_connection::{Intake, OpenPeer, shake};
use zmtp_wire::{Counted, SocketType, Traffic, text_len};

/// For how many milliseconds a reader waits for credit, before it looks whether the connection was closed.
const CREDIT_LOOK: u64 = 100;

/// The worker of a channel, as its connections see it.
#[derive(Drop)]
pub struct Channel {
    /// The worker's inbox.
    pub(crate) inbox: Sender<Note<Job>>,
    /// What requests are signed with.
    pub signer: Arc<Signer, Global>,
    /// Where replies to its peers go.
    pub(crate) mailboxes: Arc<Mailboxes, Global>,
}

impl Channel {
    /// The worker of this inbox, as its connections see it.
    ///
    /// # Errors
    ///
    /// If memory is refused, or something has too many owners.
    pub fn new(
        alloc: Global,
        inbox: &Sender<Note<Job>>,
        signer: &Arc<Signer, Global>,
    ) -> Result<Channel, AllocError>
        // It holds the key that it is given.
        ensures { IfOk result (λ channel. channel.signer.value ≡ signer.now.value) }
    {
        let inbox = inbox.clone()?;
        match (
            Arc::try_clone(signer),
            Arc::new(alloc, Mailboxes::new(alloc)),
        ) {
            (Ok(signer), Ok(mailboxes)) => Ok(Channel {
                inbox,
                signer,
                mailboxes,
            }),
            _ => {
                drop(inbox);
                Err(AllocError)
            }
        }
    }

    /// The same worker, for one more connection.
    ///
    /// # Errors
    ///
    /// If it has too many owners.
    pub(crate) fn try_clone(&self) -> Result<Channel, AllocError> {
        let inbox = self.inbox.clone()?;
        let (Ok(signer), Ok(mailboxes)) = (
            Arc::try_clone(&self.signer),
            Arc::try_clone(&self.mailboxes),
        ) else {
            drop(inbox);
            return Err(AllocError);
        };
        Ok(Channel {
            inbox,
            signer,
            mailboxes,
        })
    }
}

/// Where a peer's messages go as jobs. A PING is answered at once, other commands are dropped, and what isn't signed.
#[derive(Drop)]
struct Requests<R> {
    /// The handle to wait by.
    rt: R,
    /// Where memory comes from.
    alloc: Global,
    /// The worker.
    channel: Channel,
    /// Where replies to this peer go.
    replies: Sender<ReplyMessage>,
    /// The part that the connection has in the peer's mailbox.
    member: Member,
    /// What the reader waits by while too much is in work.
    parker: Parker,
    /// What PONGs are written to.
    writer: SharedWriter,
    /// What the connection has unfinished.
    gauge: Arc<Gauge, Global>,
    /// The connection's socket.
    socket: Socket,
    /// Whether the worker is gone.
    is_over: bool,
}

impl<R: Wait + Clock> Intake for Requests<R> {
    ghost use Rattle.std.specs.Prelude.{⊤, None, []};

    ghost takes = { λ _ _ _ _. ⊤ };

    ghost told = { λ _. None };

    ghost names = { λ _. [] };

    fn note_unfinished(&self, octets: usize) {
        self.gauge.note(&self.rt, octets);
    }

    fn put(&mut self, traffic: Traffic) -> Result<bool, AllocError> {
        match traffic {
            Traffic::Message(message) => self.receive(Frames::new(message.into_vec())),
            Traffic::Command(name, rest) => {
                self.gauge.finish(&self.rt);
                Ok(self.heed(Traffic::Command(name, rest)))
            }
        }
    }
}

/// The part that a connection has in the mailbox of its peer.
#[derive(Drop)]
struct Member {
    /// The connection's number on its port.
    number: u64,
    /// The identity that the peer gave itself.
    identity: Vec<u8>,
    /// The mailbox.
    mailbox: Arc<Mailbox, Global>,
    /// Wakes the thread that writes.
    writer: Unparker,
    /// Whether the peer has shown that it holds the key.
    is_signed: bool,
}

impl<R: Wait + Clock> Requests<R> {
    /// Looks whether a message is signed, by a peer that has shown that it holds the key. If so it puts it into the
    /// worker's inbox, and waits while too much is in work. Until that was looked at, the message counts as unfinished.
    /// Answers whether the worker is still there.
    ///
    /// # Errors
    ///
    /// If memory is refused.
    fn receive(&mut self, frames: Frames) -> Result<bool, AllocError> {
        match self.is_of_client(frames.as_slice()) {
            Ok(true) => self.gauge.finish(&self.rt),
            Ok(false) => {
                drop(frames);
                self.gauge.finish(&self.rt);
                return Ok(true);
            }
            Err(AllocError) => {
                drop(frames);
                return Err(AllocError);
            }
        }
        if self.tell(frames)? {
            self.wait_for_credit();
        } else {
            self.is_over = true;
        }
        Ok(!self.is_over)
    }

    /// Answers a PING, unless its peer has left that may connect again, and ignores another command. Answers whether
    /// nothing failed. A reply that the other thread has begun to write is written first, for which it waits.
    fn heed(&self, command: Traffic) -> bool {
        let pong = pong_to(&command);
        drop(command);
        match pong {
            Some(pong) if !self.has_left() => {
                let is_written = self.writer.pong(&self.rt, &pong);
                self.gauge.resume(&self.rt);
                is_written
            }
            Some(_) | None => true,
        }
    }

    /// Whether a message is signed, by a peer that has shown that it holds the key, if only by this one.
    ///
    /// # Errors
    ///
    /// If memory is refused.
    fn is_of_client(&mut self, frames: &[Vec<u8>]) -> Result<bool, AllocError> {
        if check_signature(&self.channel.signer, frames).is_err() {
            return Ok(false);
        }
        if !self.member.is_signed && shows_key(self.alloc, frames)? {
            self.claim();
        }
        Ok(self.member.is_signed)
    }

    /// The peer has shown that it holds the key: it gets the mailbox of its identity. If it has left this connection,
    /// it may have a newer one, which keeps that; what it said here is heard all the same.
    fn claim(&mut self) {
        if self.has_left() {
            self.member.mailbox.sign(&self.rt);
            self.member.is_signed = true;
            return;
        }
        let member = &mut self.member;
        member.is_signed = member
            .mailbox
            .claim(&self.rt, member.number, &self.socket, Claim::Signs);
        if !member.identity.is_empty() {
            wake(&self.rt, self.alloc, &self.replies);
            member.writer.unpark();
        }
    }

    /// Whether the peer has left that may connect again.
    fn has_left(&self) -> bool {
        !self.member.identity.is_empty() && self.socket.has_hung_up()
    }

    /// The peer has left, unless the kernel ends. If it gave itself an identity nothing more is written on this
    /// connection: what is due to it waits for another one.
    fn leave(&self) {
        let is_end = self.is_over || (self.socket.is_ended() && !self.socket.is_shut());
        if !is_end && !self.member.identity.is_empty() {
            self.socket.end_writes();
            let now = self.gauge.now(&self.rt);
            self.channel
                .mailboxes
                .leave(&self.rt, &self.member.mailbox, self.member.number, now);
            wake(&self.rt, self.alloc, &self.replies);
        }
        self.member.writer.unpark();
    }

    /// Puts a message into the worker's inbox, and answers whether the worker is still there.
    ///
    /// # Errors
    ///
    /// If memory is refused.
    fn tell(&self, frames: Frames) -> Result<bool, AllocError> {
        let octets = text_len(frames.as_slice()).unwrap_or(usize::MAX);
        let Ok(replies) = self.replies.clone() else {
            drop(frames);
            return Err(AllocError);
        };
        let Ok(credit) = Credit::take(self.member.mailbox.account(), octets) else {
            drop(frames);
            drop(replies);
            return Err(AllocError);
        };
        let job = Job::new(frames, replies, Some(credit));
        match self.channel.inbox.send(&self.rt, Note::Item(job)) {
            Ok(()) => Ok(true),
            Err(SendError::Disconnected(note)) => {
                drop(note);
                Ok(false)
            }
            Err(SendError::OutOfMemory(note)) => {
                drop(note);
                Err(AllocError)
            }
        }
    }

    /// Waits while too much of the connection is in work, or of its replies unwritten.
    fn wait_for_credit(&self) {
        if self.is_free() {
            return;
        }
        for _ in self.rt.forever() {
            self.parker
                .park_timeout(&self.rt, Duration::from_millis(CREDIT_LOOK));
            if self.is_free() {
                break;
            }
        }
        self.gauge.resume(&self.rt);
    }

    /// Whether the reader may read on, or the connection was closed, or its peer has left that may connect again: then
    /// no more comes than the system has read already.
    fn is_free(&self) -> bool {
        let account = self.member.mailbox.account();
        may_read(account.jobs(), account.octets(), account.replies())
            || self.socket.is_ended()
            || self.has_left()
    }
}

/// Serves a peer of shell or control as a ROUTER. It shakes hands with it, and puts each message that it sends into the
/// inbox, while a second thread writes the replies. Returns after the peer's octets ended or were refused, and all
/// replies were written or a write failed.
pub(crate) fn serve_requests<R>(rt: R, alloc: Global, guest: &Guest, channel: Channel)
where
    R: Threads + Wait + Clock + Copy + Send + Sync + Drop + 'static,
{
    let Ok((mut reader, mut writer)) = guest.halves(rt, alloc) else {
        drop(channel);
        return;
    };
    match shake(alloc, &mut reader, &mut writer, SocketType::Router, READS) {
        Ok(peer) => {
            guest.open(&rt, usize::MAX);
            let shaken = Shaken {
                reader,
                writer,
                peer,
            };
            if is_named_well(&shaken.peer) {
                serve_open(rt, alloc, guest, channel, shaken);
            } else {
                drop(shaken);
                drop(channel);
            }
        }
        Err(end) => {
            drop(end);
            drop(reader);
            drop(writer);
            drop(channel);
        }
    }
}

/// A peer with whom hands were shaken.
#[derive(Drop)]
struct Shaken<R: Wait + Clock + Drop> {
    /// What is read of it.
    reader: Counted<Reader<R>>,
    /// What is written to it.
    writer: Counted<Socket>,
    /// What is left to hear of it.
    peer: OpenPeer,
}

/// Serves a peer with whom hands were shaken.
fn serve_open<R>(rt: R, alloc: Global, guest: &Guest, channel: Channel, shaken: Shaken<R>)
where
    R: Threads + Wait + Clock + Copy + Send + Sync + Drop + 'static,
{
    let Shaken {
        reader,
        writer,
        peer,
    } = shaken;
    let Some(writers) = SharedWriter::twice(alloc, writer) else {
        drop(channel);
        drop(reader);
        drop(peer);
        return;
    };
    match requests_of(rt, alloc, guest, channel, peer.identity(), writers) {
        Some(ends) => serve_both(rt, alloc, guest, ends, (reader, peer)),
        None => {
            drop(reader);
            drop(peer);
        }
    }
}

/// Hears a peer with whom hands were shaken, while a second thread writes the replies.
fn serve_both<R>(
    rt: R,
    alloc: Global,
    guest: &Guest,
    ends: (Requests<R>, Replies),
    said: (Counted<Reader<R>>, OpenPeer),
)
where
    R: Threads + Wait + Clock + Copy + Send + Sync + Drop + 'static,
{
    let (mut requests, replies) = ends;
    let (mut reader, peer) = said;
    match thread::spawn(&rt, move || replies.write_all(rt, alloc)) {
        Ok(writing) => {
            hear_out(alloc, &mut reader, peer, &mut requests);
            drop(reader);
            guest.peer_left(&rt);
            requests.leave();
            // The writing thread ends once nobody is left who could reply.
            drop(requests);
            writing.join(&rt);
        }
        Err(error) => {
            drop(error);
            drop(reader);
            drop(peer);
            requests.leave();
            drop(requests);
        }
    }
}

/// What the two threads of a connection work with. None if no memory is left.
fn requests_of<R: Wait + Clock + Drop>(
    rt: R,
    alloc: Global,
    guest: &Guest,
    channel: Channel,
    identity: &[u8],
    writers: (SharedWriter, SharedWriter),
) -> Option<(Requests<R>, Replies)> {
    let Some(shares) = shares_of(alloc, guest, identity) else {
        drop(channel);
        drop(writers);
        return None;
    };
    let caller = Caller {
        identity,
        number: guest.id,
        socket: &shares.socket,
        reader: &shares.wakes_reader,
        now: guest.gauge.now(&rt),
    };
    let Some(ends) = ends_of(&rt, &channel, caller) else {
        drop(channel);
        drop(shares);
        drop(writers);
        return None;
    };
    Some(joined(rt, alloc, channel, shares, ends, writers))
}

/// Where replies to a peer are put, and its mailbox twice.
type Ends = (
    Sender<ReplyMessage>,
    Arc<Mailbox, Global>,
    Arc<Mailbox, Global>,
);

/// The mailbox of a peer, for both threads of its connection. None if no memory is left.
fn ends_of<R: Wait>(rt: &R, channel: &Channel, caller: Caller<'_>) -> Option<Ends> {
    let (replies, mailbox) = channel.mailboxes.open(rt, caller).ok()?;
    match Arc::try_clone(&mailbox) {
        Ok(shared) => Some((replies, mailbox, shared)),
        Err(AllocError) => {
            channel
                .mailboxes
                .leave(rt, &mailbox, caller.number, caller.now);
            drop(replies);
            drop(mailbox);
            None
        }
    }
}

/// What the two threads of a connection work with.
fn joined<R: Wait + Clock + Drop>(
    rt: R,
    alloc: Global,
    channel: Channel,
    shares: Shares,
    ends: Ends,
    writers: (SharedWriter, SharedWriter),
) -> (Requests<R>, Replies) {
    let (replies, mailbox, shared) = ends;
    let (answering, replying) = writers;
    let is_named = !shares.identity.is_empty();
    let member = Member {
        number: shares.number,
        identity: shares.identity,
        mailbox,
        writer: shares.wakes_writer,
        is_signed: false,
    };
    let requests = Requests {
        rt,
        alloc,
        channel,
        replies,
        member,
        parker: shares.reader,
        writer: answering,
        gauge: shares.gauge,
        socket: shares.socket,
        is_over: false,
    };
    let replies = Replies {
        number: shares.number,
        is_named,
        mailbox: shared,
        parker: shares.writer,
        reader: shares.wakes_reader,
        writer: replying,
        socket: shares.closed,
    };
    (requests, replies)
}

/// What the two threads of a connection share.
#[derive(Drop)]
struct Shares {
    /// The connection's number on its port.
    number: u64,
    /// The identity that the peer gave itself.
    identity: Vec<u8>,
    /// What the reader waits by while too much is in work.
    reader: Parker,
    /// Wakes the reader.
    wakes_reader: Unparker,
    /// What the thread waits by that writes.
    writer: Parker,
    /// Wakes that.
    wakes_writer: Unparker,
    /// What the connection has unfinished.
    gauge: Arc<Gauge, Global>,
    /// The connection's socket, for the reader.
    socket: Socket,
    /// The same, for the thread that writes.
    closed: Socket,
}

/// What the two threads of a connection share. None if no memory is left, or something has too many owners.
fn shares_of(alloc: Global, guest: &Guest, identity: &[u8]) -> Option<Shares> {
    let (reader, wakes_reader) = parker_of(alloc)?;
    let Some((writer, wakes_writer, identity)) = writing_of(alloc, identity) else {
        drop(reader);
        drop(wakes_reader);
        return None;
    };
    let (Ok(gauge), Ok(socket), Ok(closed)) = (
        Arc::try_clone(&guest.gauge),
        guest.socket.try_clone(),
        guest.socket.try_clone(),
    ) else {
        drop(reader);
        drop(wakes_reader);
        drop(writer);
        drop(wakes_writer);
        drop(identity);
        return None;
    };
    Some(Shares {
        number: guest.id,
        identity,
        reader,
        wakes_reader,
        writer,
        wakes_writer,
        gauge,
        socket,
        closed,
    })
}

/// What the thread waits by that writes, what wakes it, and the identity once more. None if no memory is left.
fn writing_of(alloc: Global, identity: &[u8]) -> Option<(Parker, Unparker, Vec<u8>)> {
    let identity = identity.to_vec(alloc).ok()?;
    match parker_of(alloc) {
        Some((parker, wakes)) => Some((parker, wakes, identity)),
        None => {
            drop(identity);
            None
        }
    }
}

/// What a thread waits by, and what wakes it. None if no memory is left.
fn parker_of(alloc: Global) -> Option<(Parker, Unparker)> {
    let parker = Parker::new(alloc).ok()?;
    match parker.unparker().clone() {
        Ok(wakes) => Some((parker, wakes)),
        Err(AllocError) => {
            drop(parker);
            None
        }
    }
}
