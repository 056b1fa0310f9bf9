//! Every limit of a server, with its unit and its reason.

/// Connections of one port at a time. Each takes one file descriptor, so four full ports take fewer than the 1,024
/// that systems commonly give a program.
pub const CONNECTIONS: usize = 240;

/// Writers of subscribers that there are at a time: those of connections, and of some that left, as long as the relay
/// hasn't let go of them.
pub const WRITERS: usize = 304;

/// Publications that may wait for the relay: so many that a cell seldom waits, and so few that they take little.
pub const QUEUE: usize = 1_024;

/// Jobs of one connection that wait, or whose replies do. No client sends so many ahead, and few fill no memory.
pub const JOBS: usize = 64;

/// Octets of these jobs and replies: two messages of the greatest size.
pub const JOB_OCTETS: usize = 64 << 20;

/// Milliseconds for a handshake in all, and for a message from its first octet to its last. A slow network needs a few
/// seconds, and who sends nothing more holds a place no longer.
pub const UNFINISHED_MILLIS: u64 = 30_000;

/// Octets of a peer before its READY was read. A greeting and a READY take a few hundred.
pub const HANDSHAKE_OCTETS: usize = 64 << 10;

/// Octets of the identity that a peer gives itself. libzmq lets none be longer.
pub const IDENTITY_OCTETS: usize = 255;

/// Octets of one message on the heartbeat. Jupyter's clients send four.
pub const HEARTBEAT_OCTETS: usize = 64 << 10;

/// Octets of one unfinished message that are counted nowhere: what every connection may hold at the same time.
pub const SMALL_OCTETS: usize = 64 << 10;

/// Octets of all unfinished messages together, beyond the small ones: two messages of the greatest size.
pub const UNFINISHED_OCTETS: usize = 64 << 20;

/// Octets that a connection holds while it waits for a message, and gives back once that begins: what it takes to read
/// a small one and to do what that asks. It takes them only if as many are left.
pub const SPARE_OCTETS: usize = 32 << 10;

/// Topics of one subscriber. Jupyter's clients have one.
pub const TOPICS: usize = 10_000;

/// Octets of these topics.
pub const TOPIC_OCTETS: usize = 1 << 20;

/// The longest topic that the relay is told of, in octets. What is published goes out under names of some tens, so a
/// longer topic matches nothing.
pub const TOLD_OCTETS: usize = 4 << 10;

/// Octets that a topic takes beside its own.
pub const TOPIC_COST: usize = 128;

/// Octets that the topics of one subscriber may take and that are counted nowhere: Jupyter's clients take fewer.
pub const SMALL_TOPIC_OCTETS: usize = 16 << 10;

/// Octets that the topics of all subscribers together may take, beyond these: a dozen subscribers with many topics.
pub const TOPICS_OCTETS: usize = 16 << 20;

/// What subscribers ask for that may wait for the relay: so few that none waits after many of a stranger's.
pub const EVENTS: usize = 64;

/// Octets that are kept for one subscriber before anybody waits for it: a console that is suspended for a while gets
/// all that a common cell prints.
pub const SHARE_OCTETS: usize = 16 << 20;

/// Octets that are kept for each subscriber in any case.
pub const SMALL_SHARE_OCTETS: usize = 64 << 10;

/// Octets that are kept for all subscribers together, beyond these: with them 63 MiB, so that strangers who read
/// nothing don't fill the memory.
pub const SHARES_OCTETS: usize = 48 << 20;

/// Octets of messages that are being written, which are kept for all subscribers together beyond
/// shares: a message of the greatest size, so that a write waits for nobody.
pub const OVERSHOOT_OCTETS: usize = 32 << 20;

/// Octets that a subscriber takes in `PACE_MILLIS`, at least, while somebody waits for it.
pub const PACE_OCTETS: u64 = 64 << 10;

/// Milliseconds in which a subscriber takes `PACE_OCTETS`, at least: 6.5 KB a second, which a slow modem keeps.
pub const PACE_MILLIS: u64 = 10_000;

/// Milliseconds for which it counts that the relay waited for a subscriber in vain. By so much less it waits for others
/// that haven't kept the least pace before, so that many who read nothing stop output little longer than one of them.
pub const WASTE_MILLIS: u64 = 60_000;

/// Milliseconds after which a subscriber takes `PACE_OCTETS` that has kept the least pace. What it took before may lie
/// in the buffers of sockets.
pub const STEADY_MILLIS: u64 = 1_000;

/// Milliseconds that a subscriber has for `PACE_OCTETS` in any case: who reads at once takes them in these.
pub const LEAST_PACE_MILLIS: u64 = 250;

/// Octets of a socket's send buffer, so that what was written to it was taken by its peer but for these.
pub const SEND_BUFFER: i32 = 64 << 10;

/// Milliseconds for which a peer of shell, control or the heartbeat may take nothing of what is written to it. The system
/// tells that a peer took something only after a part of its buffer, of up to 64 KiB: so a peer may take 1.1 KB a second.
pub const REPLY_MILLIS: u64 = 60_000;

/// Milliseconds for which a connection that ends waits for its peer to close its side, so that nothing is left unread.
pub const CLOSE_MILLIS: u64 = 1_000;

/// Reads of a connection that ends, of 4 KiB each: who sends more meanwhile is closed.
pub const CLOSE_READS: u32 = 256;

/// Milliseconds for which replies wait for a peer that left to connect again. Clients connect again within seconds, and
/// a person who reloads a page within a minute.
pub const AWAITED_MILLIS: u64 = 60_000;

/// Milliseconds for which the relay waits for subscribers once the kernel is to end.
pub const END_WAIT_MILLIS: u64 = 300;

/// Milliseconds for which what is left is written once the kernel ended, as ipykernel lingers: with the above less than
/// a second.
pub const END_WRITE_MILLIS: u64 = 500;

/// Milliseconds for which a connection waits, at most, until those that were closed let go of what they held. It takes
/// so long to look at the signature of a large message on a busy machine.
pub const FREED_MILLIS: u64 = 10_000;

/// Reads of one connection, and of its handshake: more than it comes to.
pub const READS: u64 = 1_000_000_000;

/// Seconds of silence after which the system asks whether a peer's machine is still there.
pub const ALIVE_SECONDS: i32 = 60;

/// Seconds between two such questions.
pub const ALIVE_AGAIN_SECONDS: i32 = 10;

/// Such questions that stay without an answer. With the above a peer that vanished without a word, with its machine or
/// its network, holds a place for two minutes.
pub const ALIVE_TIMES: i32 = 6;
