//! What of a connection is in work, so that its reader can wait while that is too much.

use crossbeam_utils::sync::Unparker;
use std::alloc::{AllocError, Global};
use std::sync::Arc;
use std::sync::atomic::{AtomicUsize, Ordering};

/// What of a connection is in work: the jobs that it brought and that aren't done, the replies that aren't written, and
/// the octets of both.
#[derive(Drop)]
pub struct Account {
    /// How many jobs aren't done.
    jobs: AtomicUsize,
    /// How many replies aren't written.
    replies: AtomicUsize,
    /// How many octets these jobs and replies have.
    octets: AtomicUsize,
    /// Wakes the connection's reader.
    reader: Unparker,
}

impl Account {
    /// The account of a connection that has nothing in work, and whose reader is woken by this.
    pub fn new(reader: Unparker) -> Account {
        Account {
            jobs: AtomicUsize::new(0),
            replies: AtomicUsize::new(0),
            octets: AtomicUsize::new(0),
            reader,
        }
    }

    /// How many jobs aren't done.
    pub fn jobs(&self) -> usize {
        self.jobs.load(Ordering::SeqCst)
    }

    /// How many replies aren't written.
    pub fn replies(&self) -> usize {
        self.replies.load(Ordering::SeqCst)
    }

    /// How many octets these jobs and replies have.
    pub fn octets(&self) -> usize {
        self.octets.load(Ordering::SeqCst)
    }

    /// What counts the credits of this kind.
    fn count_of(&self, kind: CreditKind) -> &AtomicUsize {
        match kind {
            CreditKind::Job => &self.jobs,
            CreditKind::Reply => &self.replies,
        }
    }

    /// Adds a credit.
    fn add(&self, kind: CreditKind, octets: usize) {
        self.count_of(kind).fetch_add(1, Ordering::SeqCst);
        self.octets.fetch_add(octets, Ordering::SeqCst);
    }

    /// Takes a credit off, and wakes the connection's reader.
    fn take_off(&self, kind: CreditKind, octets: usize) {
        self.count_of(kind).fetch_sub(1, Ordering::SeqCst);
        self.octets.fetch_sub(octets, Ordering::SeqCst);
        self.reader.unpark();
    }
}

/// What a credit is for.
#[derive(Clone, Copy)]
enum CreditKind {
    /// A job that isn't done.
    Job,
    /// A reply that isn't written.
    Reply,
}

/// The part that a job has of its connection's account, and then its reply. It is given back by being dropped, and the
/// connection's reader is woken.
pub struct Credit {
    /// The account.
    account: Arc<Account, Global>,
    /// What it is for.
    kind: CreditKind,
    /// How many octets that has.
    octets: usize,
}

impl Credit {
    /// The part of a job of so many octets, which are added to the account.
    ///
    /// # Errors
    ///
    /// If the account has too many owners. Nothing is added then.
    pub fn take(account: &Arc<Account, Global>, octets: usize) -> Result<Credit, AllocError> {
        let account = Arc::try_clone(account)?;
        account.add(CreditKind::Job, octets);
        Ok(Credit {
            account,
            kind: CreditKind::Job,
            octets,
        })
    }

    /// The job is done, and its reply has so many octets: from now on it is the reply's part.
    pub(crate) fn pass_to_reply(&mut self, octets: usize) {
        self.account.add(CreditKind::Reply, octets);
        self.account.take_off(self.kind, self.octets);
        self.kind = CreditKind::Reply;
        self.octets = octets;
    }
}

impl Drop for Credit {
    fn drop(self) {
        let Credit {
            account,
            kind,
            octets,
        } = self;
        account.take_off(kind, octets);
        drop(account);
    }
}
