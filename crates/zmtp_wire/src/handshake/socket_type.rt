//! The types of a socket, and which of them talk to each other.

ghost use Rattle.std.specs.Prelude.{◌≡◌, ◌↔◌, IsTrue, IfSome, IfNone};
ghost use Rattle.zmtp_wire.specs.SocketType.{type_name, NamesType, partners, Pairs};

/// The type of a socket (RFC 23, property `Socket-Type`).
#[derive(Clone, Copy, Debug, PartialEq, Eq)]
pub enum SocketType {
    /// REQ: asks, and waits for the reply.
    Req,
    /// REP: replies to one request after another.
    Rep,
    /// DEALER: sends and receives without waiting.
    Dealer,
    /// ROUTER: receives from many and replies to each by its identity.
    Router,
    /// PUB: publishes.
    Pub,
    /// SUB: subscribes.
    Sub,
    /// XSUB: subscribes by messages of its own.
    Xsub,
}

impl SocketType {
    /// The name of the type, as it is sent.
    pub fn name(self) -> &'static [u8]
        ensures { result.now ≡ type_name self }
    {
        match self {
            SocketType::Req => b"REQ",
            SocketType::Rep => b"REP",
            SocketType::Dealer => b"DEALER",
            SocketType::Router => b"ROUTER",
            SocketType::Pub => b"PUB",
            SocketType::Sub => b"SUB",
            SocketType::Xsub => b"XSUB",
        }
    }

    /// The type that the octets name, without regard to ASCII case. Takes no memory.
    pub fn from_name(octets: &[u8]) -> Option<SocketType>
        ensures named { IfSome result (NamesType octets.now) }
        ensures unknown { IfNone result ((socket : SocketType) → ¬ (NamesType octets.now socket)) }
    {
        if octets.eq_ignore_ascii_case(b"REQ") {
            return Some(SocketType::Req);
        }
        if octets.eq_ignore_ascii_case(b"REP") {
            return Some(SocketType::Rep);
        }
        if octets.eq_ignore_ascii_case(b"DEALER") {
            return Some(SocketType::Dealer);
        }
        if octets.eq_ignore_ascii_case(b"ROUTER") {
            return Some(SocketType::Router);
        }
        if octets.eq_ignore_ascii_case(b"PUB") {
            return Some(SocketType::Pub);
        }
        if octets.eq_ignore_ascii_case(b"SUB") {
            return Some(SocketType::Sub);
        }
        if octets.eq_ignore_ascii_case(b"XSUB") {
            return Some(SocketType::Xsub);
        }
        None
    }

    /// The types of a peer that a socket of this type accepts.
    fn partners(self) -> &'static [SocketType]
        ensures { result.now ≡ partners self }
    {
        match self {
            SocketType::Req => &[SocketType::Rep, SocketType::Router],
            SocketType::Rep => &[SocketType::Req, SocketType::Dealer],
            SocketType::Dealer => &[SocketType::Rep, SocketType::Dealer, SocketType::Router],
            SocketType::Router => &[SocketType::Req, SocketType::Dealer, SocketType::Router],
            SocketType::Pub => &[SocketType::Sub, SocketType::Xsub],
            SocketType::Sub => &[SocketType::Pub],
            SocketType::Xsub => &[SocketType::Pub],
        }
    }

    /// Whether a socket of this type accepts a peer of that type.
    pub fn pairs_with(self, peer: SocketType) -> bool
        ensures { IsTrue result ↔ Pairs self peer }
    {
        self.partners().contains(&peer)
    }
}
