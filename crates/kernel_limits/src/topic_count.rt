//! How many topics a subscriber has.

ghost use Rattle.std.specs.Prelude.{◌≡◌, MatchBool};
ghost use Rattle.kernel_limits.specs.Limits.{IsRoomFor, is_told, may_hold, may_ask, topics_excess};
ghost use Rattle.kernel_limits.specs.Limits.{with_topic, without_topic};

use crate::limits::{
    EVENTS, SMALL_TOPIC_OCTETS, TOLD_OCTETS, TOPIC_COST, TOPIC_OCTETS, TOPICS, TOPICS_OCTETS,
};

/// How many topics a subscriber has, each as often as it asked for it, and their octets.
#[derive(Clone, Copy, Debug, PartialEq, Eq)]
pub struct TopicCount {
    /// How many.
    pub topics: usize,
    /// Their octets.
    pub octets: usize,
}

impl TopicCount {
    /// No topic.
    pub fn new() -> TopicCount
        ensures { result ≡ record { topics = 0; octets = 0 } }
    {
        TopicCount {
            topics: 0,
            octets: 0,
        }
    }

    /// Counts one more topic of so many octets, and answers whether there is room for it. It isn't counted otherwise.
    pub fn add(&mut self, octets: usize) -> bool
        ensures { MatchBool result (IsRoomFor octets self.old × (self.new ≡ with_topic octets self.old))
            (¬ IsRoomFor octets self.old × (self.new ≡ self.old)) }
    {
        let is_room = self.topics < TOPICS
            && self.octets <= TOPIC_OCTETS
            && octets <= TOPIC_OCTETS - self.octets;
        if is_room {
            self.topics += 1;
            self.octets += octets;
        }
        is_room
    }

    /// Counts one topic of so many octets less, which was counted.
    pub fn remove(&mut self, octets: usize)
        ensures { self.new ≡ without_topic octets self.old }
    {
        self.topics = self.topics.saturating_sub(1);
        self.octets = self.octets.saturating_sub(octets);
    }
    /// How many octets they take beyond what each subscriber's may.
    pub fn excess(&self) -> usize
        ensures { result ≡ topics_excess self.now }
    {
        self.topics
            .saturating_mul(TOPIC_COST)
            .saturating_add(self.octets)
            .saturating_sub(SMALL_TOPIC_OCTETS)
    }
}

/// Whether topics that take so many octets more may be held, while those of all subscribers together take so many.
pub fn may_hold(all: usize, more: usize) -> bool
    ensures { result ≡ may_hold all more }
{
    all <= TOPICS_OCTETS && more <= TOPICS_OCTETS - all
}

/// Whether the relay is told of a topic of so many octets.
pub fn is_told(octets: usize) -> bool
    ensures { result ≡ is_told octets }
{
    octets <= TOLD_OCTETS
}

/// Whether a subscriber may come or ask for something, while so many others wait for the relay.
pub fn may_ask(waiting: usize) -> bool
    ensures { result ≡ may_ask waiting }
{
    waiting < EVENTS
}
