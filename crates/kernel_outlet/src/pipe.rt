//! What is put for a subscriber, kept while its socket has no room, and accepted by that.

ghost use Rattle.std.specs.Prelude.{◌≡◌, ◌<◌, ◌≤◌, ◌-◌, [], length, min, take, true, false, ⊤, IfOk, IfErr, MatchBool};
ghost use Rattle.zmtp_wire.specs.Device.{risen};
ghost use Rattle.kernel_outlet.specs.Pipe.{AddsUp, Flushes, SendsOnce, failed, new_pipe, putting};

use crate::spout::{Sent, Spout};
use ghost_log::Log;
use kernel_limits::{Chunk, Kept};
use std::alloc::{AllocError, Global};
use std::marker::Model;

/// Why a flush ended.
#[derive(Clone, Copy, Debug, PartialEq, Eq)]
pub enum Flushed {
    /// Nothing is kept.
    All,
    /// Something was accepted, and something may be kept still.
    Part,
    /// There is no room for what is kept.
    Full,
    /// None is accepted any more.
    Failed,
}

/// What is put for a subscriber, kept while its socket has no room, and accepted by that.
#[derive(Drop)]
pub struct Pipe<S: Spout> {
    /// Where octets take their memory.
    alloc: Global,
    /// What they leave by.
    spout: S,
    /// What was put.
    put: Log<u8>,
    /// The chunk that is being sent.
    front: Chunk,
    /// How many of its octets were accepted.
    gone: usize,
    /// What is kept after it.
    kept: Kept,
    /// Whether none is accepted any more.
    has_failed: bool,
    /// How many puts failed; at the greatest number it stays.
    failures: u64,
}

impl<S: Spout> Model for Pipe<S> {
    ghost use Rattle.kernel_outlet.specs.Pipe.{Piping, AddsUp, pending};
    ghost use Rattle.kernel_limits.specs.Kept.{chunk_octets};
    ghost use Rattle.std.specs.Prelude.{◌≤◌, length};

    ghost Value = { Piping };

    ghost view = { λ pipe. record {
      put = pipe.put.items;
      accepted = S.accepted pipe.spout;
      kept = pending pipe.front pipe.gone pipe.kept;
      has_failed = pipe.has_failed;
      failures = pipe.failures;
    } };

    ghost invariant = { λ pipe. AddsUp pipe.put.items (S.accepted pipe.spout)
        (pending pipe.front pipe.gone pipe.kept) pipe.has_failed
        × (pipe.gone ≤ length (chunk_octets pipe.front)) };
}

impl<S: Spout> Pipe<S> {
    /// A pipe into which nothing was put yet.
    pub fn new(alloc: Global, spout: S) -> Pipe<S>
        requires { S.accepted spout ≡ [] }
        ensures { result ≡ new_pipe }
    {
        Pipe {
            alloc,
            spout,
            put: Log::new(),
            front: Chunk::Long(Vec::new(alloc)),
            gone: 0,
            kept: Kept::new(alloc),
            has_failed: false,
            failures: 0,
        }
    }

    /// What is true of every pipe: what its spout accepted is a beginning of what was put; and
    /// unless it has failed, that and then what is kept is all that was put. Does nothing.
    pub fn adds_up(&self)
        ensures { AddsUp self.now.put self.now.accepted self.now.kept self.now.has_failed }
    {
        let _ = &self.front;
    }

    /// How many octets are kept, or the greatest number if they are more.
    pub fn len(&self) -> usize
        ensures { result ≡ min (length self.now.kept) usize.MAX }
    {
        self.kept
            .len()
            .saturating_add(self.front.as_slice().len() - self.gone)
    }

    /// Whether none is accepted any more.
    pub fn has_failed(&self) -> bool
        ensures { result ≡ self.now.has_failed }
    {
        self.has_failed
    }

    /// What octets leave by.
    pub fn spout(&self) -> &S
        ensures { S.accepted result.now ≡ self.now.accepted }
    {
        &self.spout
    }

    /// Keeps the first octets of a piece, as long as fewer than its share are kept, and answers how
    /// many. It keeps some of them, if there are some and there is room.
    ///
    /// # Errors
    ///
    /// If memory is refused while something is kept. That stays.
    pub fn put(&mut self, piece: &[u8], share: usize) -> Result<usize, AllocError>
        requires { self.old.has_failed ≡ false }
        ensures puts { IfOk result (λ count. self.new ≡ putting self.old (take count piece.now)) }
        ensures bound { IfOk result (λ count. count ≤ length piece.now) }
        ensures some { IfOk result (λ count. length self.old.kept < share → 0 < length piece.now → 0 < count) }
        ensures stays { IfErr result (λ _. self.new ≡ self.old) }
    {
        let ahead = self.front.as_slice().len() - self.gone;
        match self.kept.put(piece, share.saturating_sub(ahead)) {
            Ok(count) => {
                let (front, _) = piece.split_at(count);
                self.put = self.put.and_all(front);
                Ok(count)
            }
            Err(AllocError) => Err(AllocError),
        }
    }

    /// A put failed.
    pub fn refuse(&mut self)
        ensures { self.new ≡ record self.old { failures = risen self.old.failures } }
    {
        self.failures = self.failures.saturating_add(1);
    }

    /// Gives up: what is kept is dropped, and nothing is accepted any more.
    pub fn fail(&mut self)
        ensures { self.new ≡ failed self.old }
    {
        self.has_failed = true;
        self.front = Chunk::Long(Vec::new(self.alloc));
        self.gone = 0;
        self.kept = Kept::new(self.alloc);
    }

    /// Whether something is kept. If so, some of the chunk that is being sent is left.
    fn has_more(&mut self) -> bool
        ensures same { self.new ≡ self.old }
        ensures none { MatchBool result ⊤ (self.new.kept ≡ []) }
    {
        if self.gone < self.front.as_slice().len() {
            return true;
        }
        match self.kept.take() {
            Some(chunk) => {
                self.front = chunk;
                self.gone = 0;
                true
            }
            None => {
                // The memory of what was sent is given back.
                self.front = Chunk::Long(Vec::new(self.alloc));
                self.gone = 0;
                false
            }
        }
    }

    /// Sends the first octets that are kept, once.
    fn send_once(&mut self) -> Flushed
        ensures { SendsOnce self.old self.new result }
    {
        if !self.has_more() {
            return Flushed::All;
        }
        let (_, rest) = self.front.as_slice().split_at(self.gone);
        match self.spout.send(rest) {
            Sent::Took(count) if count > 0 => {
                self.gone += count;
                Flushed::Part
            }
            Sent::Took(_) | Sent::Full => Flushed::Full,
            Sent::Broken => {
                self.fail();
                Flushed::Failed
            }
        }
    }

    /// Sends what is kept, until nothing is, or there is no room, or nothing is accepted any more,
    /// or it was sent so often.
    pub fn flush(&mut self, times: u64) -> Flushed
        ensures { Flushes self.old self.new result }
    {
        for _ in 0..times {
            match self.send_once() {
                Flushed::Part => (),
                ended => return ended,
            }
        }
        Flushed::Part
    }
}
