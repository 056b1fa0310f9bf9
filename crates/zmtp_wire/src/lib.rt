//! ZMTP 3.1 (ZeroMQ RFC 37) with the mechanism NULL: greeting, READY, messages and commands. What is as in ZMTP 3.0 is
//! named by the sections of that (RFC 23).
#![tactic(auto)]

mod device;
mod fault;
mod handshake;
mod laws;
mod traffic;

pub use device::{Counted, Inlet, Outlet, ReadFailed, WriteFailed, write_all};
pub use fault::WireFault;
pub use handshake::greeting::{Peer, greeting, law_our_greeting_is_accepted, read_greeting};
pub use handshake::ready::{
    Ready, law_one_identity, law_our_ready_is_read, law_properties_have_one_reading,
    law_ready_has_one_outcome, read_identity, read_ready, ready_text,
};
pub use handshake::socket_type::SocketType;
pub use laws::{law_any_cutting, law_one_fault, law_one_reading, law_text_is_read_first};
pub use traffic::Traffic;
pub use traffic::decoder::{Decoder, Fed};
pub use traffic::frame::Frame;
pub use traffic::head::{Head, frame_head};
pub use traffic::limits::Limits;
pub use traffic::message::{Message, text_len, write_frames, write_message};
pub use traffic::ping::{CONTEXT_LIMIT, pong_text, read_ping};
