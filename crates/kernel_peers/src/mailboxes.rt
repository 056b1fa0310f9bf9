//! The mailboxes of a channel, by the identities of their peers.

use crate::mailbox::Mailbox;
use crossbeam_channel::{Sender, unbounded};
use crossbeam_utils::sync::Unparker;
use kernel_jobs::{Account, ReplyMessage};
use kernel_limits::Claim;
use kernel_sockets::Socket;
use listed::Frames;
use std::alloc::{AllocError, Global};
use std::sync::{Arc, Mutex, Wait};

/// A peer, by its connection.
#[derive(Clone, Copy)]
pub(crate) struct Caller<'c> {
    /// The identity that the peer gave itself: no octet if it gave none.
    pub(crate) identity: &'c [u8],
    /// The connection's number on its port.
    pub(crate) number: u64,
    /// The connection's socket.
    pub(crate) socket: &'c Socket,
    /// What wakes the connection's reader.
    pub(crate) reader: &'c Unparker,
    /// The time, in milliseconds.
    pub(crate) now: u64,
}

/// Where replies are put, and the mailbox that they come from.
pub(crate) type Ends = (Sender<ReplyMessage>, Arc<Mailbox, Global>);

/// The mailbox of an identity.
#[derive(Drop)]
struct Named {
    /// The identity.
    identity: Vec<u8>,
    /// Where replies are put.
    replies: Sender<ReplyMessage>,
    /// The mailbox.
    mailbox: Arc<Mailbox, Global>,
}

impl Named {
    /// The same once more, without the identity.
    ///
    /// # Errors
    ///
    /// If something has too many owners.
    fn ends(&self) -> Result<Ends, AllocError> {
        let replies = self.replies.clone()?;
        match Arc::try_clone(&self.mailbox) {
            Ok(mailbox) => Ok((replies, mailbox)),
            Err(AllocError) => {
                drop(replies);
                Err(AllocError)
            }
        }
    }
}

/// The mailboxes of a channel. A peer without an identity has one of its own, which isn't among them.
#[derive(Drop)]
pub(crate) struct Mailboxes {
    /// Where they take their memory.
    alloc: Global,
    /// Those of peers with an identity; none any more once the channel ends.
    named: Mutex<Option<Vec<Named>>>,
}

impl Mailboxes {
    /// No mailboxes.
    pub(crate) fn new(alloc: Global) -> Mailboxes {
        Mailboxes {
            alloc,
            named: Mutex::new(Some(Vec::new(alloc))),
        }
    }

    /// The mailbox of a peer that shook hands, which its connection gets if it may have it.
    ///
    /// # Errors
    ///
    /// If memory is refused.
    pub(crate) fn open<R: Wait>(&self, rt: &R, caller: Caller<'_>) -> Result<Ends, AllocError> {
        let mut named = self.named.lock(rt);
        let ends = match &mut *named {
            Some(named) if !caller.identity.is_empty() => {
                forget(rt, named, caller.now);
                ends_among(self.alloc, named, caller)
            }
            Some(_) | None => new_mailbox(self.alloc, caller.reader),
        };
        match ends {
            Ok(ends) => {
                open_for(rt, self.alloc, &ends, caller);
                Ok(ends)
            }
            Err(AllocError) => Err(AllocError),
        }
    }

    /// The peer of a connection that was opened has left. What is due to it waits, if it has an identity and has shown
    /// that it holds the key.
    pub(crate) fn leave<R: Wait>(&self, rt: &R, mailbox: &Mailbox, number: u64, now: u64) {
        let mut named = self.named.lock(rt);
        mailbox.exit(rt, number);
        if let Some(named) = &mut *named {
            forget(rt, named, now);
        }
    }

    /// The channel ends: nobody's replies wait any more.
    pub(crate) fn close<R: Wait>(&self, rt: &R) {
        let named = self.named.lock(rt).take();
        drop(named);
    }
}

/// Wakes the thread that waits for replies, by one without frames: it looks again whether its connection has the
/// mailbox. It doesn't wait if there are some. If there is no memory for that it looks within a second.
pub(crate) fn wake<R: Wait>(rt: &R, alloc: Global, replies: &Sender<ReplyMessage>) {
    if replies.is_empty() {
        let nothing = ReplyMessage {
            frames: Frames::new(Vec::new(alloc)),
            credit: None,
        };
        drop(replies.send(rt, nothing));
    }
}

/// Counts a caller among those that are heard, and gives it its mailbox, if it may have it; then what waits there is
/// written.
fn open_for<R: Wait>(rt: &R, alloc: Global, ends: &Ends, caller: Caller<'_>) {
    let (replies, mailbox) = ends;
    mailbox.enter(rt);
    if mailbox.claim(rt, caller.number, caller.socket, Claim::Opens) {
        wake(rt, alloc, replies);
    }
}

/// Takes out the mailboxes of peers that don't come again.
fn forget<R: Wait>(rt: &R, named: &mut Vec<Named>, now: u64) {
    named.retain(|it| it.mailbox.is_kept(rt, now));
}

/// The mailbox of an identity among these, which is a new one if there is none yet.
///
/// # Errors
///
/// If memory is refused.
fn ends_among(
    alloc: Global,
    named: &mut Vec<Named>,
    caller: Caller<'_>,
) -> Result<Ends, AllocError> {
    if let Some(found) = named
        .iter()
        .find(|it| it.identity.as_slice() == caller.identity)
    {
        return found.ends();
    }
    named.reserve(1)?;
    let identity = caller.identity.to_vec(alloc)?;
    let Ok((replies, mailbox)) = new_mailbox(alloc, caller.reader) else {
        drop(identity);
        return Err(AllocError);
    };
    let new = Named {
        identity,
        replies,
        mailbox,
    };
    match new.ends() {
        Ok(ends) => {
            named.push_reserved(new);
            Ok(ends)
        }
        Err(AllocError) => {
            drop(new);
            Err(AllocError)
        }
    }
}

/// A mailbox that no connection has, and whose jobs wake this reader.
///
/// # Errors
///
/// If memory is refused.
fn new_mailbox(alloc: Global, reader: &Unparker) -> Result<Ends, AllocError> {
    let account = Arc::new(alloc, Account::new(reader.clone()?))?;
    let Ok((replies, due)) = unbounded(alloc) else {
        drop(account);
        return Err(AllocError);
    };
    match Arc::new(alloc, Mailbox::new(due, account)) {
        Ok(mailbox) => Ok((replies, mailbox)),
        Err(refused) => {
            drop(refused);
            drop(replies);
            Err(AllocError)
        }
    }
}
