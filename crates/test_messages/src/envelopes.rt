//! Codes, messages sealed and opened, and headers.

use crate::spelling::{Word, Words, octets_at, octets_from, texts_from, word_at};
use jmsg_envelope::{
    Envelope, EnvelopeFault, MessageParts, Signer, header_text, hmac_sha256, open_envelope,
};
use listed::{Frames, Octets, Text};
use std::alloc::{AllocError, Global};

/// The number and the words of a fault.
pub(crate) fn told(alloc: Global, fault: EnvelopeFault) -> Result<String, AllocError> {
    format!(in alloc; "{} {fault}", fault.number())
}

/// The code of parts under the key in front of them, in hex digits.
pub(crate) fn code(alloc: Global, words: &str) -> Result<String, AllocError> {
    let key = octets_at(alloc, words, 0)?;
    let parts = octets_from(alloc, words, 1)?;
    let code = code_of(alloc, &key, &parts);
    drop(parts);
    code
}

/// The code of parts under a key.
fn code_of(alloc: Global, key: &[u8], parts: &[Vec<u8>]) -> Result<String, AllocError> {
    let mut lent = Vec::new(alloc);
    for part in parts {
        lent.push(part.as_slice())?;
    }
    hex::encode(alloc, hmac_sha256(key, &lent))
}

/// The signer whose key is the first word.
fn signer(alloc: Global, words: &str) -> Result<Signer, AllocError> {
    Ok(Signer::new(octets_at(alloc, words, 0)?))
}

/// The frame of the second word, or none.
fn prefix(alloc: Global, words: &str) -> Result<Frames, AllocError> {
    let mut frames = Vec::new(alloc);
    if word_at(words, 1) != "''" {
        frames.push(octets_at(alloc, words, 1)?)?;
    }
    Ok(Frames::new(frames))
}

/// The first of some frames, which is taken away; an empty one if there is none.
fn take_octets(alloc: Global, frames: &mut Vec<Vec<u8>>) -> Octets {
    Octets::new(if frames.is_empty() {
        Vec::new(alloc)
    } else {
        frames.remove(0)
    })
}

/// The parts that frames are: four, and buffers.
fn parts_of(alloc: Global, mut frames: Vec<Vec<u8>>) -> MessageParts {
    MessageParts {
        header: take_octets(alloc, &mut frames),
        parent: take_octets(alloc, &mut frames),
        metadata: take_octets(alloc, &mut frames),
        content: take_octets(alloc, &mut frames),
        buffers: Frames::new(frames),
    }
}

/// The frames of a message that is sealed of a key, a prefix and parts.
pub(crate) fn seal(alloc: Global, words: &str) -> Result<String, AllocError> {
    let frames = octets_from(alloc, words, 2)?;
    let prefix = prefix(alloc, words)?;
    let signer = signer(alloc, words)?;
    let sealed = jmsg_envelope::seal(alloc, &signer, prefix, parts_of(alloc, frames));
    drop(signer);
    match sealed {
        Ok(frames) => {
            let told = format!(in alloc; "sealed:{}", Words(frames.as_slice()));
            drop(frames);
            told
        }
        Err(fault) => told(alloc, fault),
    }
}

/// The envelope that frames are opened as, under the key in front of them.
pub(crate) fn open(alloc: Global, words: &str) -> Result<String, AllocError> {
    let signer = signer(alloc, words)?;
    let frames = octets_from(alloc, words, 1)?;
    match open_envelope(alloc, &signer, frames) {
        Ok(envelope) => {
            let told = all_told(alloc, &envelope);
            drop(envelope);
            told
        }
        Err(fault) => told(alloc, fault),
    }
}

/// An envelope's id and type, and its identities, its parts and its buffers, each behind a bar.
fn all_told(alloc: Global, envelope: &Envelope) -> Result<String, AllocError> {
    let named = format!(in alloc;
        "{} {}",
        envelope.msg_id.as_str(),
        envelope.msg_type.as_str()
    )?;
    let parts = parts_told(alloc, envelope)?;
    let (before, behind) = (
        Words(envelope.identities.as_slice()),
        Words(envelope.buffers.as_slice()),
    );
    format!(in alloc; "{named} |{before} | {parts} |{behind}")
}

/// The four parts of an envelope that are signed.
fn parts_told(alloc: Global, envelope: &Envelope) -> Result<String, AllocError> {
    let header = Word(envelope.header.as_slice());
    let parent = Word(envelope.parent.as_slice());
    let metadata = Word(envelope.metadata.as_slice());
    let content = Word(envelope.content.as_slice());
    format!(in alloc; "{header} {parent} {metadata} {content}")
}

/// The header of a session, an id, a date and a type.
pub(crate) fn header(alloc: Global, words: &str) -> Result<String, AllocError> {
    let texts = texts_from(alloc, words, 0)?;
    let header = header_of(alloc, &texts);
    drop(texts);
    header
}

/// The header of these texts.
fn header_of(alloc: Global, texts: &[Text]) -> Result<String, AllocError> {
    let [session, id, date, msg_type] = texts else {
        return String::from_str(alloc, "no header");
    };
    match header_text(
        alloc,
        session.as_str(),
        id.as_str(),
        date.as_str(),
        msg_type.as_str(),
    ) {
        Ok(octets) => format!(in alloc; "{}", Word(&octets)),
        Err(fault) => told(alloc, fault),
    }
}
