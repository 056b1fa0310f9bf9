//! A peer's PING, and the PONG that answers it (ZeroMQ RFC 37, rules `ping` and `pong`).

ghost use Rattle.std.specs.Prelude.{◌≡◌, ◌≤◌, IfSome, length, option_map};
ghost use Rattle.zmtp_wire.specs.Ping.{context_in, ping_context, pong_octets};

use crate::traffic::Traffic;
use crate::traffic::flags::Flags;
use crate::traffic::head::{Head, LONGEST};

/// How many octets the context of a PING or PONG has at most.
pub const CONTEXT_LIMIT: usize = 16;

/// The name of the command PONG, after its length.
const PONG: [u8; 5] = *b"\x04PONG";

/// Where a PONG's context begins: after its flags, its size and its name.
const BEFORE_CONTEXT: usize = 7;

/// The context of a PING, which its PONG gives back: what stands after two octets of time to live, at most 16 octets. A
/// PING without these two, or with more than 16 after them, has none, and neither has other traffic. Takes no memory.
pub fn read_ping(traffic: &Traffic) -> Option<&[u8]>
    ensures context { option_map (λ context. context.now) result ≡ ping_context traffic.now }
    ensures short { IfSome result (λ context. length context.now ≤ 16) }
{
    let Traffic::Command(name, rest) = traffic else {
        return None;
    };
    if name.as_slice() != b"PING".as_slice() {
        return None;
    }
    context_in(rest.as_slice())
}

/// The context in what stands after a PING's name.
fn context_in(rest: &[u8]) -> Option<&[u8]>
    ensures context { option_map (λ context. context.now) result ≡ context_in rest.now }
    ensures short { IfSome result (λ context. length context.now ≤ 16) }
{
    let [_, _, context @ ..] = rest else {
        return None;
    };
    if context.len() > CONTEXT_LIMIT {
        return None;
    }
    Some(context)
}

/// The PONG that answers a PING of this context: a whole command frame, of 23 octets at most (ZeroMQ RFC 37, rule
/// `pong`). Takes no memory.
pub fn pong_text(context: &[u8]) -> Head
    requires { length context.now ≤ 16 }
    ensures { result ≡ pong_octets context.now }
{
    let flags = Flags {
        more: false,
        long: false,
        command: true,
    };
    let len = BEFORE_CONTEXT + context.len();
    let mut octets = [0; LONGEST];
    octets[0] = flags.octet();
    octets[1] = (PONG.len() + context.len()) as u8;
    octets[2..BEFORE_CONTEXT].copy_from_slice(&PONG);
    octets[BEFORE_CONTEXT..len].copy_from_slice(context);
    Head { octets, len }
}
