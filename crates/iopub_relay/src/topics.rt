//! The topics that a subscriber holds.

ghost use Rattle.std.specs.Prelude.{◌≡◌, ◌+◌, ◌-◌, ◌<◌, ℕ, List, if◌then◌else◌, bytes_eq, nat_lt, OnOk, OnErr};
ghost use Rattle.std.specs.Prelude.{IfSome, IfNone, MatchBool, HoldsAt, length};
ghost use Rattle.iopub_relay.specs.Topics.{begins_in};
ghost use Rattle.iopub_relay.specs.Counts.{counted, listed, holding_of, Raises};

use listed::Octets;
use std::alloc::{AllocError, Global};
use std::collections::BTreeMap;
use std::marker::Model;

/// Topics, each with how often it is held.
#[derive(Drop)]
pub struct Topics {
    /// How often each is held, up to the greatest `u64`.
    counts: BTreeMap<Vec<u8>, u64>,
    /// Those that are held more often, once for each further time.
    further: Vec<Octets>,
}

impl Model for Topics {
    ghost use Rattle.iopub_relay.specs.Counts.{Counts, entries_of};

    ghost Value = { Counts };

    ghost view = { λ topics. record { entries = entries_of topics.counts; further = topics.further.items } };
}

impl Topics {
    /// No topics.
    pub fn new(alloc: Global) -> Topics
        ensures { (topic : List ℕ) → holding_of result topic ≡ 0 }
    {
        Topics {
            counts: BTreeMap::new(alloc),
            further: Vec::new(alloc),
        }
    }

    /// Holds a topic once more.
    ///
    /// # Errors
    ///
    /// If memory was refused: the topics are as they were.
    pub fn add(&mut self, topic: Octets) -> Result<(), AllocError>
        ensures ok { OnOk result ((other : List ℕ) → holding_of self.new other
            ≡ (if bytes_eq topic other then holding_of self.old other + 1 else holding_of self.old other)) }
        ensures err { OnErr result ((other : List ℕ) → holding_of self.new other ≡ holding_of self.old other) }
    {
        match raise(&mut self.counts, topic.as_slice()) {
            Raised::Yes => (),
            Raised::Full => self.further.push(topic)?,
            Raised::Missing => {
                self.counts.insert(topic.into_vec(), 1)?;
            }
        }
        Ok(())
    }

    /// Holds a topic once less, if it is held.
    pub fn take_out(&mut self, topic: &[u8])
        ensures { (other : List ℕ) → holding_of self.new other
            ≡ (if bytes_eq topic.now other then holding_of self.old other - 1 else holding_of self.old other) }
    {
        if !take_from(&mut self.further, topic) {
            lower(&mut self.counts, topic);
        }
    }

    /// Whether one of them is a beginning of these octets: each beginning is searched for once.
    pub fn begin_in(&self, octets: &[u8]) -> bool
        ensures { result ≡ begins_in (holding_of self.now) octets.now }
    {
        for len in 0..=octets.len() {
            if self.has(&octets[..len]) {
                return true;
            }
        }
        false
    }

    /// Whether a topic is held.
    pub fn has(&self, topic: &[u8]) -> bool
        ensures { result ≡ nat_lt 0 (holding_of self.now topic.now) }
    {
        count_of(&self.counts, topic) > 0 || place_in(&self.further, topic).is_some()
    }
}

/// What came of it that a count was to be raised.
#[derive(Clone, Copy, Debug)]
enum Raised {
    /// It was.
    Yes,
    /// It stands at the greatest `u64`.
    Full,
    /// There is none.
    Missing,
}

/// Raises the count of a topic, if there is one that can be raised.
fn raise(counts: &mut BTreeMap<Vec<u8>, u64>, topic: &[u8]) -> Raised
    ensures { Raises topic.now counts.old counts.new result }
{
    let Some(count) = counts.get_mut(topic) else {
        return Raised::Missing;
    };
    match count.checked_add(1) {
        Some(more) => {
            *count = more;
            Raised::Yes
        }
        None => Raised::Full,
    }
}

/// Lowers the count of a topic, if there is one. One that comes to 0 is removed.
fn lower(counts: &mut BTreeMap<Vec<u8>, u64>, topic: &[u8])
    ensures { (other : List ℕ) → counted counts.new other
        ≡ (if bytes_eq topic.now other then counted counts.old other - 1 else counted counts.old other) }
{
    let Some(count) = counts.get_mut(topic) else {
        return;
    };
    if *count > 1 {
        *count -= 1;
    } else {
        counts.remove(topic);
    }
}

/// The count of a topic, or 0.
fn count_of(counts: &BTreeMap<Vec<u8>, u64>, topic: &[u8]) -> u64
    ensures { result ≡ counted counts.now topic.now }
{
    counts.get(topic).copied().unwrap_or(0)
}

/// A place at which a topic stands in a list.
fn place_in(list: &[Octets], topic: &[u8]) -> Option<usize>
    ensures within { IfSome result (λ place. place < length list.now) }
    ensures held { IfSome result (λ _. 0 < listed list.now topic.now) }
    ensures found { IfSome result (HoldsAt (λ held. held ≡ topic.now) list.now) }
    ensures none { IfNone result (listed list.now topic.now ≡ 0) }
{
    for (place, held) in list.iter().enumerate() {
        if held.as_slice() == topic {
            return Some(place);
        }
    }
    None
}

/// Takes a topic out of a list once, if it stands in it, and answers whether it did.
fn take_from(list: &mut Vec<Octets>, topic: &[u8]) -> bool
    ensures { MatchBool result
        ((other : List ℕ) → listed list.new.items other + (if bytes_eq topic.now other then 1 else 0)
        ≡ listed list.old.items other)
        ((list.new.items ≡ list.old.items) × (listed list.old.items topic.now ≡ 0)) }
{
    let Some(place) = place_in(list, topic) else {
        return false;
    };
    list.swap_remove(place);
    true
}
