//! Sinks, and the queue, with all its publishers in one thread and in threads of their own. And the relay: examples with
//! ample memory, over lists of events and over a queue.

// The queue.
mod beside_the_core;
mod bound;
mod exchange;
mod opening;
mod sinks;
mod threads;
mod tokens;
mod workers;

// The relay.
mod feed;
mod frames;
mod relay;
mod steps;
