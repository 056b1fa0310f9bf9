//! Messages as texts, each frame on a line of its own.

use crate::stamp::DATE;
use listed::Frames;
use std::alloc::{AllocError, Global};

/// What a kernel of shell arithmetic says of itself.
pub const INFO: &str = concat!(
    r#"{"banner":"Shell arithmetic in 64 bits","help_links":[],"implementation":"jkernel","#,
    r#""implementation_version":"1.0","language_info":{"file_extension":".sha","#,
    r#""mimetype":"text/plain","name":"sharith","version":"1.0"},"#,
    r#""protocol_version":"5.3","status":"ok"}"#,
);

/// The reply to a cell that was interrupted.
pub const INTERRUPTED: &str = concat!(
    r#"{"ename":"Interrupted","evalue":"interrupted","execution_count":1,"#,
    r#""status":"error","traceback":["Interrupted: interrupted"]}"#,
);

/// The frames of a message, each on a line of its own.
pub fn frames_text(alloc: Global, frames: &Frames) -> Result<String, AllocError> {
    let mut octets = Vec::new(alloc);
    match push_frames(&mut octets, frames) {
        Ok(()) => text_of(alloc, octets),
        Err(AllocError) => {
            drop(octets);
            Err(AllocError)
        }
    }
}

/// Adds the frames of a message to octets, with an end of line between two.
fn push_frames(octets: &mut Vec<u8>, frames: &Frames) -> Result<(), AllocError> {
    for (place, frame) in frames.as_slice().iter().enumerate() {
        if place > 0 {
            octets.push(b'\n')?;
        }
        octets.extend_from_slice(frame.as_slice())?;
    }
    Ok(())
}

/// The text that octets are.
fn text_of(alloc: Global, octets: Vec<u8>) -> Result<String, AllocError> {
    match String::from_utf8(octets) {
        Ok(text) => Ok(text),
        Err(refused) => {
            drop(refused);
            String::from_str(alloc, "no UTF-8")
        }
    }
}

/// A message after what stands before its delimiter: its type, the number of its id, and its content, with a request
/// of a type as its parent.
pub fn due_text(
    alloc: Global,
    front: &str,
    due: (&str, u64, &str),
    parent_type: &str,
) -> Result<String, AllocError> {
    let parent = format!(in alloc; "{{\"msg_id\":\"q\",\"msg_type\":\"{parent_type}\"}}")?;
    let text = due_message(alloc, front, due, parent.as_str());
    drop(parent);
    text
}

/// A message after what stands before its delimiter: its type, the number of its id, and its content, with this header
/// as its parent.
pub fn due_message(
    alloc: Global,
    front: &str,
    (msg_type, number, content): (&str, u64, &str),
    parent: &str,
) -> Result<String, AllocError> {
    format!(in alloc;
        "{front}<IDS|MSG>\n\n{{\"date\":\"{DATE}\",\"msg_id\":\"s{number}\",\"msg_type\":\"{msg_type}\",\
        \"session\":\"s\",\"username\":\"kernel\",\"version\":\"5.3\"}}\n{parent}\n{{}}\n{content}"
    )
}
