//! The ends of a block: busy and idle, and the reply.

ghost use Rattle.std.specs.Prelude.{◌≡◌, ◌+◌, ◌<◌, ◌≤◌, ◌^◌, true, IfOk, OnErr, MatchResult};
ghost use Rattle.serde_json.specs.Written.{compact_text};
ghost use Rattle.jmsg_types.specs.Reply.{reply_data};
ghost use Rattle.jmsg_types.specs.declared.publication.Publication.TheVariants.{Status};
ghost use Rattle.kernel_engine.specs.Block.{busy, idle, published, reply_message};
ghost use Rattle.kernel_engine.specs.Growth.{sealing_of};
ghost use Rattle.kernel_engine.specs.Opens.{OpensBlock, PublishesNone, PublishesStarting, ids_of_reply};

use crate::heading::Heading;
use crate::open_block::OpenBlock;
use crate::publishing::{Body, LAST_NUMBER, Publishing};
use iopub_event::Event;
use iopub_queue::Publish;
use jmsg_envelope::Stamp;
use jmsg_types::{Publication, Reply, State, content_text, reply_type};
use listed::{Frames, Octets, Text};
use std::alloc::{AllocError, Global};

impl<P, S: Stamp> Publishing<P, S> {
    /// What tells this state under this number, as a message after its topic.
    fn status(
        &self,
        alloc: Global,
        heading: &Heading,
        number: u64,
        state: State,
    ) -> Result<Frames, AllocError>
        ensures { IfOk result (λ message. message
            ≡ published (sealing_of S.stamp self.now) heading.now number (Status state)) }
    {
        self.publication(alloc, heading, number, Publication::Status(state))
    }

    /// The ends of a block, under the next two numbers: that the kernel is busy, and that it is idle.
    fn ends(&self, alloc: Global, heading: &Heading) -> Result<(Frames, Frames), AllocError>
        requires { self.now.next < 2 ^ 63 }
        ensures { let sealing = sealing_of S.stamp self.now in
            IfOk result (λ ends. (ends.0 ≡ busy sealing heading.now self.now.next)
            × (ends.1 ≡ idle sealing heading.now self.now.next)) }
    {
        let busy = self.status(alloc, heading, self.next, State::Busy)?;
        match self.status(alloc, heading, self.next + 1, State::Idle) {
            Ok(idle) => Ok((busy, idle)),
            Err(AllocError) => {
                drop(busy);
                Err(AllocError)
            }
        }
    }

    /// The heading of messages with this parent header, under a new date.
    fn heading(&mut self, alloc: Global, parent: Octets) -> Result<Heading, AllocError>
        ensures heading { IfOk result (λ heading. (S.stamp.is_date (S.stamp.meaning self.old.stamp) heading.date ≡ true)
            × (heading.parent ≡ parent)) }
        ensures same { (self.new ≡ record self.old { stamp = self.new.stamp })
            × (S.stamp.meaning self.new.stamp ≡ S.stamp.meaning self.old.stamp) }
    {
        match self.stamp.date(alloc) {
            Ok(date) => Ok(Heading {
                date: Text::new(date),
                parent,
            }),
            Err(AllocError) => {
                drop(parent);
                Err(AllocError)
            }
        }
    }

    /// Opens the block of a request with this header: publishes that the kernel is busy, under a new date. The message
    /// that it is idle is made before anything is published. If the block is silent, nothing of its cell is published.
    ///
    /// # Errors
    ///
    /// If memory was refused, or the sink refused. Then nothing is published.
    pub(crate) fn open<W: Drop>(
        &mut self,
        alloc: Global,
        header: Octets,
        silent: bool,
    ) -> Result<OpenBlock, AllocError>
    where
        P: Publish<Item = Event<W>>,
        requires { self.old.next < 2 ^ 63 }
        ensures { MatchResult result
            (λ block. OpensBlock P.sink S.stamp header block.heading block.idle self.old self.new
            × (block.silent ≡ silent))
            (λ _. PublishesNone P.sink S.stamp self.old self.new) }
    {
        let heading = self.heading(alloc, header)?;
        let Ok((busy, idle)) = self.ends(alloc, &heading) else {
            drop(heading);
            return Err(AllocError);
        };
        match self.sink.publish(Event::Message(busy)) {
            Ok(()) => {
                self.next += 2;
                Ok(OpenBlock {
                    heading,
                    idle,
                    silent,
                })
            }
            Err(refused) => {
                drop(refused);
                drop(idle);
                drop(heading);
                Err(AllocError)
            }
        }
    }

    /// Publishes that the kernel starts, under a new date and with no request as its parent.
    ///
    /// # Errors
    ///
    /// If memory was refused, or the sink refused. Then nothing is published.
    pub(crate) fn start<W: Drop>(&mut self, alloc: Global) -> Result<(), AllocError>
    where
        P: Publish<Item = Event<W>>,
        requires { self.old.next ≡ 1 }
        ensures { MatchResult result
            (λ _. PublishesStarting P.sink S.stamp self.old self.new)
            (λ _. PublishesNone P.sink S.stamp self.old self.new) }
    {
        let parent = Octets::new(Vec::from_slice(alloc, b"{}")?);
        let heading = self.heading(alloc, parent)?;
        let told = self.publish(alloc, &heading, Publication::Status(State::Starting));
        drop(heading);
        told
    }

    /// The reply to a message of this type, after the identities of who sent it, with the next number.
    ///
    /// # Errors
    ///
    /// If memory was refused, or no number is left. Then nothing changes.
    pub fn reply(
        &mut self,
        alloc: Global,
        heading: &Heading,
        identities: Frames,
        msg_type: &str,
        reply: Option<Reply>,
    ) -> Result<Option<Frames>, AllocError>
        ensures made { IfOk result (λ message. (message ≡ reply_message (sealing_of S.stamp self.old)
            heading.now identities self.old.next msg_type.now reply)
            × (self.new ≡ record self.old { next = self.old.next + ids_of_reply reply })) }
        ensures refused { OnErr result (self.new ≡ self.old) }
        ensures few { self.old.next ≤ 2 ^ 63 + 1 → self.new.next ≤ 2 ^ 63 + 1 }
    {
        let Some(reply) = reply else {
            drop(identities);
            return Ok(None);
        };
        let Ok(content) = content_octets(alloc, reply) else {
            drop(identities);
            return Err(AllocError);
        };
        if self.next > LAST_NUMBER {
            drop(content);
            drop(identities);
            return Err(AllocError);
        }
        let msg_type = reply_type(msg_type).unwrap_or("");
        let body = Body {
            content,
            buffers: Frames::new(Vec::new(alloc)),
        };
        let message = self.message(alloc, heading, identities, self.next, msg_type, body)?;
        self.next += 1;
        Ok(Some(message))
    }
}

/// The octets of the content of a reply, which is JSON.
fn content_octets(alloc: Global, reply: Reply) -> Result<Octets, AllocError>
    ensures { IfOk result (λ content. content ≡ compact_text (reply_data reply)) }
{
    let content = content_text(alloc, &reply);
    drop(reply);
    match content {
        Ok(content) => Ok(Octets::new(content)),
        Err(_) => Err(AllocError),
    }
}
