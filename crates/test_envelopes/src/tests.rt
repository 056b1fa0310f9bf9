//! A message that is sealed and opened again, with memory for it.

use jmsg_envelope::{EnvelopeFault, MessageParts, Signer, open_envelope, seal};
use listed::{Frames, Octets};
use std::alloc::{AllocError, Global};
use std::test::Fail;

/// A header with the two names that are read.
const HEADER: &[u8] = b"{\"msg_id\":\"a1\",\"msg_type\":\"kernel_info_request\"}";

/// The parts of a message that has a header alone.
fn parts_of(alloc: Global, header: &[u8]) -> Result<MessageParts, AllocError> {
    let header = header.to_vec(alloc)?;
    Ok(MessageParts {
        header: Octets::new(header),
        parent: Octets::new(Vec::new(alloc)),
        metadata: Octets::new(Vec::new(alloc)),
        content: Octets::new(Vec::new(alloc)),
        buffers: Frames::new(Vec::new(alloc)),
    })
}

/// The frames of a message that is sealed.
fn sealed(alloc: Global, signer: &Signer) -> Result<Frames, EnvelopeFault> {
    let parts = parts_of(alloc, HEADER)?;
    let prefix = Frames::new(Vec::new(alloc));
    seal(alloc, signer, prefix, parts)
}

/// Whether frames are opened, with the names of `HEADER`.
fn is_opened(alloc: Global, signer: &Signer, frames: Frames) -> bool {
    match open_envelope(alloc, signer, frames.into_vec()) {
        Ok(envelope) => {
            let is_named = envelope.msg_id.as_str() == "a1"
                && envelope.msg_type.as_str() == "kernel_info_request";
            drop(envelope);
            is_named
        }
        Err(_) => false,
    }
}

/// Whether what is sealed under a key is opened.
fn is_sealed_and_opened(alloc: Global, signer: &Signer) -> bool {
    match sealed(alloc, signer) {
        Ok(frames) => is_opened(alloc, signer, frames),
        Err(_) => false,
    }
}

#[test]
fn what_is_sealed_is_opened(rt: HostRuntime) -> Result<(), Fail> {
    let signer = Signer::new(b"secret".to_vec(rt.alloc())?);
    let is_opened = is_sealed_and_opened(rt.alloc(), &signer);
    drop(signer);
    assert!(rt; is_opened);
    Ok(())
}
