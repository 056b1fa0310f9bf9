//! Requests that are asked.

use jmsg_envelope::{Envelope, Signer, open_envelope};
use std::alloc::{AllocError, Global};
use std::io;

/// A request of this id, type and content, under no key.
///
/// # Errors
///
/// If it can't be opened.
pub fn request(alloc: Global, id: &str, kind: &str, content: &str) -> io::Result<Envelope> {
    let header = format!(in alloc; "{{\"msg_id\":\"{id}\",\"msg_type\":\"{kind}\"}}")?;
    let texts = ["<IDS|MSG>", "", header.as_str(), "{}", "{}", content];
    let frames = frames_of(alloc, &texts);
    drop(header);
    let frames = frames?;
    let signer = Signer::new(Vec::new(alloc));
    let opened = open_envelope(alloc, &signer, frames);
    drop(signer);
    match opened {
        Ok(envelope) => Ok(envelope),
        Err(_) => Err(io::Error::other("no request")),
    }
}

/// The frames that hold these texts.
fn frames_of(alloc: Global, texts: &[&str]) -> Result<Vec<Vec<u8>>, AllocError> {
    let mut frames = Vec::new(alloc);
    for text in texts {
        if let Err(AllocError) = add_frame(alloc, text, &mut frames) {
            drop(frames);
            return Err(AllocError);
        }
    }
    Ok(frames)
}

/// Adds the frame that holds a text.
fn add_frame(alloc: Global, text: &str, frames: &mut Vec<Vec<u8>>) -> Result<(), AllocError> {
    let frame = Vec::from_slice(alloc, text.as_bytes())?;
    match frames.push(frame) {
        Ok(()) => Ok(()),
        Err(refused) => {
            drop(refused);
            Err(AllocError)
        }
    }
}
