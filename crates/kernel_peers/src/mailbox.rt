//! The replies to a peer, and the connection on which they are written. They are a mailbox's, and not a connection's: a
//! peer that gives itself an identity may connect again, and gets what wasn't written yet.

ghost use Rattle.std.specs.Prelude.{◌<◌, length};

use crate::holding::Holding;
use crossbeam_channel::{Receiver, RecvTimeoutError};
use crossbeam_utils::sync::{Parker, Unparker};
use kernel_jobs::{Account, ReplyMessage};
use kernel_limits::Claim;
use kernel_sockets::{SharedWriter, Socket};
use std::alloc::Global;
use std::sync::{Arc, Mutex, Wait};
use std::time::{Clock, Duration};

/// For how many milliseconds it is waited for a reply, before it is looked whether the connection was closed.
const REPLY_LOOK: u64 = 1_000;

/// For how many milliseconds a connection waits that doesn't have its peer's mailbox, before it asks for it again.
const CLAIM_LOOK: u64 = 500;

/// For how many milliseconds it waits so once nothing is read any more.
const LAST_LOOK: u64 = 10;

/// What is due to a peer.
#[derive(Drop)]
struct Due {
    /// A reply that was taken out, and not written.
    unsent: Option<ReplyMessage>,
    /// Those after it.
    replies: Receiver<ReplyMessage>,
}

/// A mailbox: the replies to a peer, and the connection that has it.
#[derive(Drop)]
pub(crate) struct Mailbox {
    /// The connection.
    holding: Mutex<Holding>,
    /// The replies, for the thread that writes them.
    due: Mutex<Due>,
    /// What of the peer is in work.
    account: Arc<Account, Global>,
}

/// What came of a look for the next reply.
#[derive(Clone, Copy, Debug, PartialEq, Eq)]
pub(crate) enum Look {
    /// It was written.
    Written,
    /// There is none now, or another connection has the mailbox.
    Nothing,
    /// There comes none any more.
    Last,
    /// It couldn't be written.
    Failed,
}

impl Mailbox {
    /// A mailbox that no connection has.
    pub(crate) fn new(replies: Receiver<ReplyMessage>, account: Arc<Account, Global>) -> Mailbox {
        Mailbox {
            holding: Mutex::new(Holding::new()),
            due: Mutex::new(Due {
                unsent: None,
                replies,
            }),
            account,
        }
    }

    /// What of the peer is in work.
    pub(crate) fn account(&self) -> &Arc<Account, Global> {
        &self.account
    }

    /// A connection of the peer is heard from now on.
    pub(crate) fn enter<R: Wait>(&self, rt: &R) {
        self.holding.lock(rt).enter();
    }

    /// The connection of this number isn't heard any more, and its peer has left.
    pub(crate) fn exit<R: Wait>(&self, rt: &R, number: u64) {
        self.holding.lock(rt).exit(number);
    }

    /// The peer has shown that it holds the key, on a connection that it has left.
    pub(crate) fn sign<R: Wait>(&self, rt: &R) {
        self.holding.lock(rt).sign();
    }

    /// Gives the mailbox to the connection of this number, if it may have it, and answers whether it has it now.
    pub(crate) fn claim<R: Wait>(
        &self,
        rt: &R,
        number: u64,
        socket: &Socket,
        claim: Claim,
    ) -> bool {
        self.holding.lock(rt).claim(number, socket, claim)
    }

    /// The peer of the connection of this number has left. If it had the mailbox, the replies wait from now on.
    pub(crate) fn leave<R: Wait>(&self, rt: &R, number: u64) {
        self.holding.lock(rt).leave(number);
    }

    /// Whether a connection of the peer is heard, or it may still come again, and has shown that it holds the key.
    pub(crate) fn is_kept<R: Wait>(&self, rt: &R, now: u64) -> bool {
        self.holding.lock(rt).is_kept(self.account.jobs(), now)
    }

    /// Whether the connection of this number has it.
    fn is_of<R: Wait>(&self, rt: &R, number: u64) -> bool {
        self.holding.lock(rt).is_of(number)
    }

    /// A reply is being written on the connection of this number from now on, if it has the mailbox; answers whether it
    /// has. One without frames isn't written.
    fn begin_writing<R: Wait>(&self, rt: &R, number: u64, reply: &ReplyMessage) -> bool
        requires { 0 < length reply.now.frames }
    {
        self.holding.lock(rt).begin_writing(number, reply)
    }

    /// No reply is being written any more on the connection of this number, if it has the mailbox.
    fn end_writing<R: Wait>(&self, rt: &R, number: u64) {
        self.holding.lock(rt).end_writing(number);
    }

    /// Writes the next reply to the peer of a connection, if that has the mailbox. What can't be written waits on.
    fn write_next<R: Wait + Clock>(&self, rt: &R, alloc: Global, peer: &Replies) -> Look {
        let mut due = self.due.lock(rt);
        if !self.is_of(rt, peer.number) {
            return Look::Nothing;
        }
        match due.next(rt) {
            Ok(reply) => self.write_out(rt, alloc, peer, (&mut due, reply)),
            Err(RecvTimeoutError::Timeout) => Look::Nothing,
            Err(RecvTimeoutError::Disconnected) => Look::Last,
        }
    }

    /// Writes a reply that was taken out to the peer of a connection, if that still has the mailbox. If it can't be
    /// written it is put back.
    fn write_out<R: Wait>(
        &self,
        rt: &R,
        alloc: Global,
        peer: &Replies,
        next: (&mut Due, ReplyMessage),
    ) -> Look {
        let (due, reply) = next;
        if reply.frames.is_empty() {
            // It only woke this thread: nothing is written, for which a newcomer would have this connection closed.
            drop(reply);
            return Look::Nothing;
        }
        if peer.has_left() || !self.begin_writing(rt, peer.number, &reply) {
            due.put_back(reply);
            return Look::Nothing;
        }
        let is_written = peer.writer.message(rt, alloc, reply.frames.as_slice());
        self.end_writing(rt, peer.number);
        if is_written {
            drop(reply);
            return Look::Written;
        }
        due.put_back(reply);
        Look::Failed
    }
}

impl Due {
    /// The next reply.
    ///
    /// # Errors
    ///
    /// `Timeout` if there is none for a while, `Disconnected` if nobody is left who could send one.
    fn next<R: Wait + Clock>(&mut self, rt: &R) -> Result<ReplyMessage, RecvTimeoutError> {
        match self.unsent.take() {
            Some(reply) => Ok(reply),
            None => self
                .replies
                .recv_timeout(rt, Duration::from_millis(REPLY_LOOK)),
        }
    }

    /// Puts a reply back that wasn't written.
    fn put_back(&mut self, reply: ReplyMessage) {
        self.unsent = Some(reply);
    }
}

/// The replies to a peer, as the thread of a connection sees them that writes them.
#[derive(Drop)]
pub(crate) struct Replies {
    /// The connection's number on its port.
    pub(crate) number: u64,
    /// Whether the peer has an identity, and may connect again.
    pub(crate) is_named: bool,
    /// Where they come from.
    pub(crate) mailbox: Arc<Mailbox, Global>,
    /// What the thread waits by while another connection has the mailbox.
    pub(crate) parker: Parker,
    /// Wakes the connection's reader.
    pub(crate) reader: Unparker,
    /// What replies are written to.
    pub(crate) writer: SharedWriter,
    /// The connection's socket.
    pub(crate) socket: Socket,
}

impl Replies {
    /// Writes replies to the peer, until nobody is left who could send one, the connection is closed or a write fails.
    /// Then the peer is to know that, and isn't heard any more.
    pub(crate) fn write_all<R: Wait + Clock + Drop>(self, rt: R, alloc: Global) {
        self.write_each(&rt, alloc);
        self.reader.unpark();
        drop(self);
    }

    /// Writes replies to the peer, until there comes none any more or one can't be written.
    fn write_each<R: Wait + Clock>(&self, rt: &R, alloc: Global) {
        for _ in rt.forever() {
            match self.look(rt, alloc) {
                Look::Written => self.reader.unpark(),
                Look::Nothing => {}
                Look::Last => return,
                Look::Failed => {
                    self.socket.fail();
                    return;
                }
            }
        }
        unreachable!()
    }

    /// Whether the peer has left that may connect again: nothing more is written on this connection then.
    fn has_left(&self) -> bool {
        self.is_named && self.socket.has_hung_up()
    }

    /// Writes the next reply, if the connection has the mailbox and its peer hasn't left; else it asks for the mailbox,
    /// or waits for a while.
    fn look<R: Wait + Clock>(&self, rt: &R, alloc: Global) -> Look {
        if self.socket.is_shut() {
            return Look::Last;
        }
        if self.has_left() {
            // Its reader ends the connection, once it has read what came before that.
            self.mailbox.leave(rt, self.number);
            if self.socket.is_ended() {
                return Look::Last;
            }
            self.pause(rt);
            return Look::Nothing;
        }
        if self.mailbox.is_of(rt, self.number) {
            return self.mailbox.write_next(rt, alloc, self);
        }
        if self
            .mailbox
            .claim(rt, self.number, &self.socket, Claim::Waits)
        {
            return Look::Nothing;
        }
        self.pause(rt);
        Look::Nothing
    }

    /// Waits for a while, or until the connection's reader has something to say. Once nothing is read any more the
    /// connection before may be gone in a moment, and else this one is closed.
    fn pause<R: Wait + Clock>(&self, rt: &R) {
        let millis = if self.socket.is_ended() {
            LAST_LOOK
        } else {
            CLAIM_LOOK
        };
        self.parker.park_timeout(rt, Duration::from_millis(millis));
    }
}
