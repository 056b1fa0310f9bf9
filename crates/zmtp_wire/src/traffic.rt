//! What a peer sends after its greeting: frames, and the messages and commands that they spell (RFC 23, "Traffic").

mod command;
pub(crate) mod decoder;
mod flags;
pub(crate) mod frame;
pub(crate) mod head;
pub(crate) mod limits;
pub(crate) mod message;
mod pending;
pub(crate) mod ping;
mod size;
mod subscription;

use listed::Octets;

/// What a peer sends after its greeting (RFC 23, "Traffic").
#[derive(Debug, Drop)]
pub enum Traffic {
    /// A message.
    Message(message::Message),
    /// A command's name, of at least one octet, and the rest of its body.
    Command(Octets, Octets),
}

impl Traffic {
    ghost use Rattle.std.specs.Prelude.{◌≡◌};
    ghost use Rattle.zmtp_wire.specs.Traffic.{is_error};

    /// Whether it is the command ERROR, by which a peer ends the connection. What it says isn't judged.
    pub fn is_error(&self) -> bool
        ensures { result ≡ is_error self.now }
    {
        match self {
            Traffic::Message(_) => false,
            Traffic::Command(name, _) => name.as_slice() == b"ERROR".as_slice(),
        }
    }
}
