//! What is kept for a subscriber: octets that come in pieces and are taken in chunks.

ghost use Rattle.std.specs.Prelude.{◌≡◌, ◌++◌, ◌-◌, ◌<◌, ◌≤◌, ◌↔◌, [], length, take, IfNone, IfOk, IfErr, IfSome};
ghost use Rattle.std.specs.Prelude.{IsTrue, OnOk, ◌+◌, vec_capacity, vec_len};
ghost use Rattle.kernel_limits.specs.Kept.{chunk_octets, joined_chunks, kept_octets, AreSome};

use crate::chunk::{Chunk, SHORT};
use arrayvec::ArrayVec;
use std::alloc::{AllocError, Global};
use std::collections::VecDeque;
use std::marker::Model;
use std::mem;

/// How many octets a chunk has, at most: so many are written at once.
const CHUNK: usize = 1 << 16;

/// What is kept for a subscriber. A contract sees the octets.
#[derive(Drop)]
pub struct Kept {
    /// Where they take their memory.
    alloc: Global,
    /// The first of them, if no memory was left when they came. They lie here, and take none.
    short: ArrayVec<u8, SHORT>,
    /// Chunks that are full, after these.
    full: VecDeque<Vec<u8>>,
    /// The chunk that is being filled, after these.
    last: Vec<u8>,
    /// How many octets are kept.
    len: usize,
}

impl Model for Kept {
    ghost use Rattle.std.specs.Prelude.{ℕ, List};
    ghost use Rattle.kernel_limits.specs.Kept.{kept_octets, IsKept};

    ghost Value = { List ℕ };

    ghost view = { λ kept. kept_octets kept.short.items kept.full.items kept.last.items };

    ghost invariant = { λ kept. IsKept kept.len kept.short.items kept.full.items kept.last.items };
}

impl Kept {
    /// Nothing.
    pub fn new(alloc: Global) -> Kept
        ensures { result ≡ [] }
    {
        Kept {
            alloc,
            short: ArrayVec::new(),
            full: VecDeque::new(alloc),
            last: Vec::new(alloc),
            len: 0,
        }
    }

    /// How many octets are kept.
    pub fn len(&self) -> usize
        ensures { result ≡ length self.now }
    {
        self.len
    }

    /// Whether none is.
    pub fn is_empty(&self) -> bool
        ensures { IsTrue result ↔ (length self.now ≡ 0) }
    {
        self.len == 0
    }

    /// Keeps the first octets of a piece, as long as fewer than its share are kept, and answers how many. It keeps some
    /// of them, if there are some and there is room.
    ///
    /// # Errors
    ///
    /// If memory is refused while something is kept. That stays.
    pub fn put(&mut self, piece: &[u8], share: usize) -> Result<usize, AllocError>
        ensures appends { IfOk result (λ count. self.new ≡ self.old ++ take count piece.now) }
        ensures bound { IfOk result (λ count. (count ≤ length piece.now) × (count ≤ share - length self.old)) }
        ensures some { IfOk result (λ count. length self.old < share → 0 < length piece.now → 0 < count) }
        ensures stays { IfErr result (λ _. self.new ≡ self.old) }
        ensures refused { IfErr result (λ _. 0 < length self.old) }
    {
        match self.put_long(piece, share) {
            Err(AllocError) if self.is_empty() => Ok(self.put_short(piece, share)),
            put => put,
        }
    }

    /// Keeps the first octets of a piece, as long as fewer than its share are kept, and answers how many.
    ///
    /// # Errors
    ///
    /// If memory is refused. What is kept stays.
    fn put_long(&mut self, piece: &[u8], share: usize) -> Result<usize, AllocError>
        ensures appends { IfOk result (λ count. self.new ≡ self.old ++ take count piece.now) }
        ensures bound { IfOk result (λ count. (count ≤ length piece.now) × (count ≤ share - length self.old)) }
        ensures some { IfOk result (λ count. length self.old < share → 0 < length piece.now → 0 < count) }
        ensures stays { IfErr result (λ _. self.new ≡ self.old) }
    {
        turn_over(self.alloc, &mut self.full, &mut self.last)?;
        let room = (CHUNK - self.last.len()).min(share.saturating_sub(self.len));
        let (front, _) = piece.split_at(room.min(piece.len()));
        make_room(&mut self.last, front.len())?;
        self.last.extend_from_slice(front)?;
        self.len += front.len();
        Ok(front.len())
    }

    /// Keeps the first octets of a piece without memory, if nothing is kept, and answers how many.
    fn put_short(&mut self, piece: &[u8], share: usize) -> usize
        requires { self.old ≡ [] }
        ensures appends { self.new ≡ take result piece.now }
        ensures bound { (result ≤ length piece.now) × (result ≤ share) }
        ensures some { 0 < share → 0 < length piece.now → 0 < result }
    {
        let (front, _) = piece.split_at(SHORT.min(share).min(piece.len()));
        let _ = self.short.try_extend_from_slice(front);
        self.len = front.len();
        front.len()
    }

    /// Takes a chunk of the first octets. None if nothing is kept.
    pub fn take(&mut self) -> Option<Chunk>
        ensures front { IfSome result (λ chunk. self.old ≡ chunk_octets chunk ++ self.new) }
        ensures some { IfSome result (λ chunk. 0 < length (chunk_octets chunk)) }
        ensures none { IfNone result ((self.old ≡ []) × (self.new ≡ [])) }
    {
        if !self.short.is_empty() {
            self.len -= self.short.len();
            return Some(Chunk::Short(self.short.take()));
        }
        if let Some(chunk) = self.full.pop_front() {
            self.len -= chunk.len();
            return Some(Chunk::Long(chunk));
        }
        if self.last.is_empty() {
            return None;
        }
        self.len = 0;
        Some(Chunk::Long(mem::replace(&mut self.last, Vec::new(self.alloc))))
    }
}

/// Makes room in a chunk for so many octets more. It takes memory for twice its octets at a time, as a `Vec` does, and
/// never for more than a whole chunk.
///
/// # Errors
///
/// If memory is refused. The chunk stays as it is.
fn make_room(chunk: &mut Vec<u8>, more: usize) -> Result<(), AllocError>
    requires { vec_len chunk.old + more ≤ CHUNK }
    ensures same { chunk.new.items ≡ chunk.old.items }
    ensures room { OnOk result (vec_len chunk.new + more ≤ vec_capacity chunk.new) }
    ensures bound { vec_capacity chunk.old ≤ CHUNK → vec_capacity chunk.new ≤ CHUNK }
{
    let needed = chunk.len() + more;
    if needed <= chunk.capacity() {
        return Ok(());
    }
    let wanted = chunk.len().saturating_mul(2).max(needed).min(CHUNK);
    chunk.reserve_exact(wanted - chunk.len())
}

/// Puts the chunk that is being filled among the full ones if it is full, and begins another: there is room then.
///
/// # Errors
///
/// If memory is refused. The chunks stay as they are.
fn turn_over(
    alloc: Global,
    full: &mut VecDeque<Vec<u8>>,
    last: &mut Vec<u8>,
) -> Result<(), AllocError>
    ensures same { joined_chunks full.new.items last.new.items ≡ joined_chunks full.old.items last.old.items }
    ensures room { OnOk result (length last.new.items < CHUNK) }
    ensures some { AreSome full.old.items → AreSome full.new.items }
{
    if last.len() < CHUNK {
        return Ok(());
    }
    full.reserve(1)?;
    let filled = mem::replace(last, Vec::new(alloc));
    full.push_back_reserved(filled);
    Ok(())
}
