//! The jobs of shell and control, and where their replies go.

ghost use Rattle.std.specs.Prelude.{◌≡◌};

use crate::credit::Credit;
use crate::inbox::tell;
use crossbeam_channel::Sender;
use ghost_log::Log;
use listed::Frames;
use std::marker::Model;
use std::sync::Wait;
use zmtp_wire::text_len;

/// A message that came in on shell or control. Its reply goes to whom it belongs: what is replied to is the message
/// itself.
#[derive(Drop)]
pub struct Job {
    /// Its frames, identities first.
    pub frames: Frames,
    /// Where its reply goes.
    pub to: ReplyTo,
    pub ghost own: { to ≡ frames },
}

impl Job {
    /// The job to handle a message, whose reply goes into a channel that holds any number, since the worker waits for
    /// room. With a credit it is counted as its connection's.
    pub fn new(frames: Frames, replies: Sender<ReplyMessage>, credit: Option<Credit>) -> Job
        ensures { result.frames ≡ frames }
    {
        let to = ReplyTo::new(&frames, replies, credit);
        Job { frames, to }
    }
}

/// Where the reply to a message goes. A contract sees the frames of that message.
#[derive(Drop)]
pub struct ReplyTo {
    /// A channel that holds any number.
    replies: Sender<ReplyMessage>,
    /// The job's part of what its connection may have in work, if that is counted.
    credit: Option<Credit>,
    /// The message.
    asked: Log<Frames>,
}

impl Model for ReplyTo {
    ghost use Rattle.std.specs.Prelude.{ℕ, List};
    ghost use Rattle.kernel_jobs.specs.First.{first_of};

    ghost Value = { List (List ℕ) };

    ghost view = { λ reply_to. first_of reply_to.asked.items };
}

/// A reply that goes to its peer.
#[derive(Drop)]
pub struct ReplyMessage {
    /// Its frames, identities first.
    pub frames: Frames,
    /// Its part of what its connection may have in work, if that is counted. It is to be dropped once the reply was
    /// written.
    pub credit: Option<Credit>,
}

impl ReplyTo {
    /// Where the reply to a message goes.
    fn new(message: &Frames, replies: Sender<ReplyMessage>, credit: Option<Credit>) -> ReplyTo
        ensures { result ≡ message.now }
    {
        ReplyTo {
            replies,
            credit,
            asked: Log::new().and(message),
        }
    }

    /// Sends the reply to a message. If nobody waits for it, it is dropped.
    pub fn send<R: Wait>(self, rt: &R, frames: Frames) {
        let ReplyTo {
            replies,
            credit,
            asked,
        } = self;
        drop(asked);
        let credit = credit_of_reply(credit, &frames);
        tell(rt, &replies, ReplyMessage { frames, credit });
        drop(replies);
    }
}

/// The credit of a job that is done, as its reply's.
fn credit_of_reply(credit: Option<Credit>, reply: &Frames) -> Option<Credit> {
    let mut credit = credit?;
    credit.pass_to_reply(text_len(reply.as_slice()).unwrap_or(usize::MAX));
    Some(credit)
}
