//! Requests that are put into inboxes.

use crossbeam_channel::Sender;
use kernel_jobs::{Credit, Job, Note, ReplyMessage};
use listed::Frames;
use std::alloc::{AllocError, Global};
use std::sync::Wait;

/// The type of a request that asks what the kernel is.
pub const ASKED: &str = "kernel_info_request";

/// The type of a request to shut the kernel down.
pub const SHUTDOWN: &str = "shutdown_request";

/// Puts a request of this type and content into an inbox; its reply goes there.
pub fn ask<R: Wait>(
    rt: &R,
    alloc: Global,
    inbox: &Sender<Note<Job>>,
    replies: &Sender<ReplyMessage>,
    request: (&str, &str),
) -> Result<(), AllocError> {
    put(rt, inbox, replies, request_frames(alloc, request)?, None)
}

/// Puts a message into an inbox; its reply goes there. With a credit it is counted as its connection's.
pub fn put<R: Wait>(
    rt: &R,
    inbox: &Sender<Note<Job>>,
    replies: &Sender<ReplyMessage>,
    frames: Frames,
    credit: Option<Credit>,
) -> Result<(), AllocError> {
    match replies.clone() {
        Ok(replies) => send(rt, inbox, Note::Item(Job::new(frames, replies, credit))),
        Err(AllocError) => {
            drop(frames);
            drop(credit);
            Err(AllocError)
        }
    }
}

/// Puts a note into an inbox, whose worker is there.
pub fn send<T: Drop, R: Wait>(
    rt: &R,
    inbox: &Sender<Note<T>>,
    note: Note<T>,
) -> Result<(), AllocError> {
    match inbox.send(rt, note) {
        Ok(()) => Ok(()),
        Err(refused) => {
            drop(refused);
            Err(AllocError)
        }
    }
}

/// A request of this type and content, from a client without a name.
pub fn request_frames(
    alloc: Global,
    (msg_type, content): (&str, &str),
) -> Result<Frames, AllocError> {
    let text = format!(in alloc;
        "<IDS|MSG>\n\n{{\"msg_id\":\"q\",\"msg_type\":\"{msg_type}\"}}\n{{}}\n{{}}\n{content}"
    )?;
    let frames = frames_of(alloc, text.as_str());
    drop(text);
    frames
}

/// A message whose frames are the lines of a text.
pub fn frames_of(alloc: Global, text: &str) -> Result<Frames, AllocError> {
    let mut frames = Vec::new(alloc);
    match push_lines(alloc, &mut frames, text) {
        Ok(()) => Ok(Frames::new(frames)),
        Err(AllocError) => {
            drop(frames);
            Err(AllocError)
        }
    }
}

/// Adds the lines of a text to frames.
fn push_lines(alloc: Global, frames: &mut Vec<Vec<u8>>, text: &str) -> Result<(), AllocError> {
    for line in text.split('\n') {
        frames.push(Vec::from_slice(alloc, line.as_bytes())?)?;
    }
    Ok(())
}
