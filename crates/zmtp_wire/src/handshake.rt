//! Shaking hands: the greeting, and then READY with the socket type (RFC 23, "Greeting" and "The NULL Security
//! Mechanism").

pub(crate) mod greeting;
pub(crate) mod ready;
pub(crate) mod socket_type;
