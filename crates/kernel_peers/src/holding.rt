//! The connection that has a mailbox: how it gets it, how it loses it, and whether a reply is being written on it.

ghost use Rattle.std.specs.Prelude.{◌≡◌, ◌≢◌, ◌<◌, ◌+◌, ◌-◌, ◌⊎◌, ◌↔◌, IfSome, None, Some, length, true, false};
ghost use Rattle.std.specs.Prelude.{IfNone, OnSome};
ghost use Rattle.kernel_limits.specs.declared.handover.Claim.TheVariants.{Signs};
ghost use Rattle.kernel_limits.specs.declared.handover.Holder.TheVariants.{Gone, Signed, Unsigned};
ghost use Rattle.kernel_limits.specs.Limits.{is_awaited, takes_over};

use kernel_jobs::ReplyMessage;
use kernel_limits::{Claim, Holder, is_awaited, takes_over};
use kernel_sockets::Socket;

/// The connection that had a mailbox, which another one has now.
#[derive(Drop)]
struct Before {
    /// Its socket, if there was one.
    socket: Option<Socket>,
    /// Whether it is to be closed.
    is_closed: bool,
}

impl Before {
    /// Closes it, if it is to be closed.
    fn close(self) {
        if let (Some(socket), true) = (&self.socket, self.is_closed) {
            socket.shut();
        }
    }
}

/// The connection that has a mailbox, and what is known of its peer.
#[derive(Drop)]
pub(crate) struct Holding {
    /// How far it is.
    holder: Holder,
    /// Its number on its port; 0 if there is none.
    number: u64,
    /// Its socket, to close it by.
    socket: Option<Socket>,
    /// Since when there is none and nothing of the peer is in work, in milliseconds, once that was seen.
    since: Option<u64>,
    /// Whether the peer has ever shown that it holds the key.
    is_signed: bool,
    /// How many connections of the peer are heard still, be it what they said before they broke.
    heard: usize,
    /// Whether a reply is just being written on the connection that has the mailbox.
    is_writing: bool,
}

impl Holding {
    /// No connection has the mailbox, and nothing is known of the peer.
    pub(crate) fn new() -> Holding
        ensures nobody { (result.holder ≡ Gone) × (result.number ≡ 0) × (result.is_writing ≡ false) }
        ensures unknown { (result.since ≡ None) × (result.is_signed ≡ false) × (result.heard ≡ 0) }
    {
        Holding {
            holder: Holder::Gone,
            number: 0,
            socket: None,
            since: None,
            is_signed: false,
            heard: 0,
            is_writing: false,
        }
    }

    /// A connection of the peer is heard from now on.
    pub(crate) fn enter(&mut self)
        ensures { self.old.heard < 18446744073709551615 → self.new ≡ record self.old { heard = 1 + self.old.heard } }
    {
        self.heard = self.heard.saturating_add(1);
    }

    /// The connection of this number isn't heard any more, and its peer has left.
    pub(crate) fn exit(&mut self, number: u64)
        ensures left { self.old.number ≡ number → self.new ≡ record self.old {
          holder = Gone;
          number = 0;
          socket = None;
          is_writing = false;
          heard = self.old.heard - 1;
        } }
        ensures another { self.old.number ≢ number → self.new ≡ record self.old { heard = self.old.heard - 1 } }
    {
        self.leave(number);
        self.heard = self.heard.saturating_sub(1);
    }

    /// The peer has shown that it holds the key, on a connection that it has left.
    pub(crate) fn sign(&mut self)
        ensures { self.new ≡ record self.old { is_signed = true } }
    {
        self.is_signed = true;
    }

    /// Whether the connection of this number has the mailbox.
    pub(crate) fn is_of(&self, number: u64) -> bool
        ensures { (result ≡ true) ↔ (self.now.number ≡ number) }
    {
        self.number == number
    }

    /// Gives the mailbox to the connection of this number, if it may have it, and answers whether it has it now. If it
    /// doesn't, nothing has changed.
    pub(crate) fn claim(&mut self, number: u64, socket: &Socket, claim: Claim) -> bool
        ensures own { self.old.number ≡ number → result ≡ true }
        ensures given { result ≡ true → self.new.number ≡ number }
        ensures ruled { result ≡ true → (self.old.number ≡ number) ⊎ (takes_over self.old.holder claim ≡ true) }
        ensures signed { result ≡ true → claim ≡ Signs → (self.new.holder ≡ Signed) × (self.new.is_signed ≡ true) }
        ensures unsigned { result ≡ true → claim ≢ Signs → self.old.number ≢ number → self.new.holder ≡ Unsigned }
        ensures known { claim ≢ Signs → self.new.is_signed ≡ self.old.is_signed }
        ensures heard { self.new.heard ≡ self.old.heard }
        ensures same { claim ≢ Signs → self.old.number ≡ number → self.new ≡ self.old }
        ensures shown { claim ≡ Signs → self.old.number ≡ number → self.new ≡ record self.old {
          holder = Signed;
          is_signed = true;
        } }
        ensures written { result ≡ true → self.old.number ≢ number → self.new.is_writing ≡ false }
        ensures awaited { result ≡ true → self.old.number ≢ number → self.new.since ≡ None }
        ensures refused { result ≡ false → self.new ≡ self.old }
    {
        let is_another = self.number != number;
        if is_another {
            match self.pass(number, socket, claim) {
                Some(before) => before.close(),
                None => return false,
            }
        }
        if claim == Claim::Signs {
            self.holder = Holder::Signed;
            self.is_signed = true;
        }
        true
    }

    /// Gives the mailbox to another connection that isn't closed, if it may have it, and answers the connection before.
    /// That is to be closed if a reply is just being written on it, for which others would wait, or if the other's peer
    /// has signed something. Else it stays: what was asked on it may not have been read yet.
    fn pass(&mut self, number: u64, socket: &Socket, claim: Claim) -> Option<Before>
        ensures given { OnSome result (self.new.number ≡ number) }
        ensures ruled { OnSome result (takes_over self.old.holder claim ≡ true) }
        ensures unsigned { OnSome result (self.new.holder ≡ Unsigned) }
        ensures known { (self.new.is_signed ≡ self.old.is_signed) × (self.new.heard ≡ self.old.heard) }
        ensures written { OnSome result (self.new.is_writing ≡ false) }
        ensures awaited { OnSome result (self.new.since ≡ None) }
        ensures before { IfSome result (λ before. before.socket ≡ self.old.socket) }
        ensures closed { IfSome result (λ before. (before.is_closed ≡ true)
            ↔ ((self.old.is_writing ≡ true) ⊎ (claim ≡ Signs))) }
        ensures refused { IfNone result (self.new ≡ self.old) }
    {
        if socket.is_shut() || !takes_over(self.holder, claim) {
            return None;
        }
        let kept = socket.try_clone().ok()?;
        let before = Before {
            socket: self.socket.replace(kept),
            is_closed: self.is_writing || claim == Claim::Signs,
        };
        self.is_writing = false;
        self.number = number;
        self.holder = Holder::Unsigned;
        self.since = None;
        Some(before)
    }

    /// The peer of the connection of this number has left. If it had the mailbox, the replies wait from now on.
    pub(crate) fn leave(&mut self, number: u64)
        ensures left { self.old.number ≡ number → self.new ≡ record self.old {
          holder = Gone;
          number = 0;
          socket = None;
          is_writing = false;
        } }
        ensures another { self.old.number ≢ number → self.new ≡ self.old }
    {
        if self.number == number {
            self.holder = Holder::Gone;
            self.number = 0;
            self.socket = None;
            self.is_writing = false;
        }
    }

    /// Whether a connection of the peer, which has so many jobs in work, is heard, or it may still come again, and has
    /// shown that it holds the key.
    pub(crate) fn is_kept(&mut self, jobs: usize, now: u64) -> bool
        ensures heard { 0 < self.old.heard → (result ≡ true) × (self.new ≡ self.old) }
        ensures stranger { self.old.heard ≡ 0 → self.old.is_signed ≡ false → (result ≡ false) × (self.new ≡ self.old) }
        ensures working { self.old.heard ≡ 0 → self.old.is_signed ≡ true → 0 < jobs
            → (result ≡ true) × (self.new ≡ record self.old { since = None }) }
        ensures awaited { self.old.heard ≡ 0 → self.old.is_signed ≡ true → jobs ≡ 0 → IfSome self.old.since
            (λ since. (result ≡ is_awaited since now) × (self.new ≡ self.old)) }
        ensures first { self.old.heard ≡ 0 → self.old.is_signed ≡ true → jobs ≡ 0 → self.old.since ≡ None
            → (result ≡ true) × (self.new ≡ record self.old { since = Some now }) }
    {
        self.heard > 0 || (self.is_signed && self.is_awaited(jobs, now))
    }

    /// Whether replies still wait for a peer that left, and that has so many jobs in work.
    fn is_awaited(&mut self, jobs: usize, now: u64) -> bool
        ensures working { 0 < jobs → (result ≡ true) × (self.new ≡ record self.old { since = None }) }
        ensures awaited { jobs ≡ 0 → IfSome self.old.since
            (λ since. (result ≡ is_awaited since now) × (self.new ≡ self.old)) }
        ensures first { jobs ≡ 0 → self.old.since ≡ None
            → (result ≡ true) × (self.new ≡ record self.old { since = Some now }) }
    {
        if jobs > 0 {
            self.since = None;
            return true;
        }
        match self.since {
            Some(since) => is_awaited(since, now),
            None => {
                self.since = Some(now);
                true
            }
        }
    }

    /// A reply is being written on the connection of this number from now on, if it has the mailbox; answers whether it
    /// has. One without frames isn't written.
    pub(crate) fn begin_writing(&mut self, number: u64, reply: &ReplyMessage) -> bool
        requires { 0 < length reply.now.frames }
        ensures answered { (result ≡ true) ↔ (self.old.number ≡ number) }
        ensures begun { result ≡ true → self.new ≡ record self.old { is_writing = true } }
        ensures refused { result ≡ false → self.new ≡ self.old }
    {
        let _ = reply;
        if self.number != number {
            return false;
        }
        self.is_writing = true;
        true
    }

    /// No reply is being written any more on the connection of this number, if it has the mailbox.
    pub(crate) fn end_writing(&mut self, number: u64)
        ensures ended { self.old.number ≡ number → self.new ≡ record self.old { is_writing = false } }
        ensures another { self.old.number ≢ number → self.new ≡ self.old }
    {
        self.is_writing = self.is_writing && self.number != number;
    }
}
