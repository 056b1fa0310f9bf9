//! By which messages a peer shows that it holds the key.

ghost use Rattle.std.specs.Prelude.{◌≡◌};
ghost use Rattle.kernel_limits.specs.Limits.{is_sent_by_clients};

/// How the types of requests end ('Messaging in Jupyter' 5.3, "Request-Reply").
const REQUEST: &[u8] = b"_request";

/// Whether a message of this type comes from a client. The kernel signs what it publishes with the same key, and who
/// reads IOPub can send that back. So a signature shows that its sender holds the key only if the kernel sends no
/// message of that type. It sends a `comm_close`, and another kernel's messages on stdin are an `input_request`.
pub fn is_sent_by_clients(msg_type: &[u8]) -> bool
    ensures { result ≡ is_sent_by_clients msg_type.now }
{
    let (_, end) = msg_type.split_at(msg_type.len().saturating_sub(REQUEST.len()));
    (end == REQUEST && msg_type != b"input_request".as_slice())
        || msg_type == b"comm_open".as_slice()
        || msg_type == b"comm_msg".as_slice()
}
