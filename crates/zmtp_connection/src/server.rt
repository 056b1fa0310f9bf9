//! What a peer is served by.

ghost use Rattle.std.specs.Prelude.{◌≡◌, ◌++◌, ℕ, List};
ghost use Rattle.zmtp_connection.specs.Server.{Answering};

use std::alloc::Global;
use zmtp_wire::Message;

/// What became of a message, if the session goes on.
#[derive(Clone, Copy, Debug, PartialEq, Eq)]
pub enum Answered {
    /// The message was done.
    Done,
    /// The message was dropped for want of memory.
    Dropped,
}

/// What answers the messages of a peer.
pub trait Server {
    /// How the server may end a session.
    type End: Drop;

    /// One step: what the server was, a message, the octets that answer it, what the server is then, and whether the
    /// session goes on or how the server ends it.
    ghost answers: { Answering Self Self.End };

    /// The ghost names of the references that the server holds, which no step changes.
    ghost names: { Self → List ℕ };

    /// Answers the message: adds the octets that are to be written to the peer, none if it has no answer. They are
    /// written also if the session ends then.
    ///
    /// # Errors
    ///
    /// If the server ends the session: how. Nothing more is read then.
    fn answer(
        &mut self,
        alloc: Global,
        message: Message,
        reply: &mut Vec<u8>,
    ) -> Result<Answered, Self::End>
        ensures names { names self.new ≡ names self.old }
        ensures answered { (octets : List ℕ) × (reply.new.items ≡ reply.old.items ++ octets)
            × answers self.old message octets self.new result };
}
