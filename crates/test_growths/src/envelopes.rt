//! Calls of envelopes: messages opened and sealed.

use crate::marks::{begin, end, say_frames, say_number, say_octets, text_at};
use jmsg_envelope::{Envelope, MessageParts, Signer, header_text, open_envelope};
use listed::{Frames, Octets};
use std::alloc::{AllocError, Global};

/// The key.
fn signer(alloc: Global) -> Result<Signer, AllocError> {
    Ok(Signer::new(b"Jefe".to_vec(alloc)?))
}

/// Opens a message, and tells its parts.
pub(crate) fn open<R: Print + AllocGlobal>(rt: &R, frames: Vec<Vec<u8>>) -> Result<(), AllocError> {
    let signer = match signer(rt.alloc()) {
        Ok(signer) => signer,
        Err(refused) => {
            drop(frames);
            return Err(refused);
        }
    };
    begin(rt);
    let opened = open_envelope(rt.alloc(), &signer, frames);
    end(rt);
    match &opened {
        Ok(envelope) => tell_envelope(rt, envelope),
        Err(fault) => say_number(rt, fault.number()),
    }
    drop(opened);
    Ok(())
}

/// Tells the parts of a message.
fn tell_envelope<R: Print + AllocGlobal>(rt: &R, envelope: &Envelope) {
    say_octets(rt, envelope.msg_id.as_str().as_bytes());
    say_octets(rt, envelope.msg_type.as_str().as_bytes());
    say_frames(rt, envelope.identities.as_slice());
    say_octets(rt, envelope.header.as_slice());
    say_octets(rt, envelope.parent.as_slice());
    say_octets(rt, envelope.metadata.as_slice());
    say_octets(rt, envelope.content.as_slice());
    say_frames(rt, envelope.buffers.as_slice());
}

/// The word at a place, or nothing.
fn octets_at(alloc: Global, words: &[Vec<u8>], place: usize) -> Result<Vec<u8>, AllocError> {
    text_at(words, place).as_bytes().to_vec(alloc)
}

/// The parts that words are behind the first, which is a prefix.
fn parts_of(alloc: Global, words: &[Vec<u8>]) -> Result<MessageParts, AllocError> {
    Ok(MessageParts {
        header: Octets::new(octets_at(alloc, words, 1)?),
        parent: Octets::new(octets_at(alloc, words, 2)?),
        metadata: Octets::new(octets_at(alloc, words, 3)?),
        content: Octets::new(octets_at(alloc, words, 4)?),
        buffers: Frames::new(Vec::from_array(alloc, [octets_at(alloc, words, 5)?])?),
    })
}

/// Seals a message, and tells its frames.
pub(crate) fn seal<R: Print + AllocGlobal>(rt: &R, words: &[Vec<u8>]) -> Result<(), AllocError> {
    let alloc = rt.alloc();
    let signer = signer(alloc)?;
    let prefix = Frames::new(Vec::from_array(alloc, [octets_at(alloc, words, 0)?])?);
    let parts = parts_of(alloc, words)?;
    begin(rt);
    let sealed = jmsg_envelope::seal(rt.alloc(), &signer, prefix, parts);
    end(rt);
    match &sealed {
        Ok(frames) => say_frames(rt, frames.as_slice()),
        Err(fault) => say_number(rt, fault.number()),
    }
    drop(sealed);
    Ok(())
}

/// Tells the text of a header.
pub(crate) fn header<R: Print + AllocGlobal>(rt: &R, words: &[Vec<u8>]) {
    let [session, id, date, msg_type] = [0, 1, 2, 3].map(|place: usize| text_at(words, place));
    begin(rt);
    let text = header_text(rt.alloc(), session, id, date, msg_type);
    end(rt);
    match &text {
        Ok(octets) => say_octets(rt, octets),
        Err(fault) => say_number(rt, fault.number()),
    }
}
