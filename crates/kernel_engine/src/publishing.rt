//! Messages made and published, one after the other.

ghost use Rattle.std.specs.Prelude.{◌≡◌, [], ◌∷◌, IfOk, MatchResult, map};
ghost use Rattle.jmsg_envelope.specs.Header.{header_octets};
ghost use Rattle.kernel_engine.specs.Block.{empty_object, message, published};
ghost use Rattle.jmsg_types.specs.Publication.{publication_data, topic};
ghost use Rattle.serde_json.specs.Written.{compact_text};
ghost use Rattle.kernel_engine.specs.Growth.{InFront, PutsUnder, sealing_of, unless_silent};
ghost use Rattle.kernel_engine.specs.Publications.{publication_of};

use crate::heading::Heading;
use crate::open_block::OpenBlock;
use interp_core::Output;
use iopub_event::Event;
use iopub_queue::Publish;
use jmsg_envelope::{MessageParts, Signer, Stamp, header_text, seal};
use jmsg_types::{Publication, content_text_of_publication, topic_of, type_of};
use listed::{Frames, Octets, Row};
use std::alloc::{AllocError, Global};
use std::collections::VecDeque;

/// The last number for an id.
pub(crate) const LAST_NUMBER: u64 = 1 << 63;

/// What a message says: its content, and the buffers after it.
#[derive(Drop)]
pub struct Body {
    /// The content, which is JSON.
    pub content: Octets,
    /// The buffers: octets that go along as they are.
    pub buffers: Frames,
}

/// What the messages of an engine are made and published with.
#[derive(Drop)]
pub struct Publishing<P, S> {
    /// Where messages are published.
    pub sink: P,
    /// What messages are signed with.
    pub signer: Signer,
    /// Where ids and dates come from.
    pub stamp: S,
    /// The number of the next message's id.
    pub next: u64,
}

impl<P, S: Stamp> Publishing<P, S> {
    /// Publishes a publication of a block's cell, unless it is silent, with the next number.
    ///
    /// # Errors
    ///
    /// As `publish`. Then nothing is published.
    pub(crate) fn put<W: Drop>(
        &mut self,
        alloc: Global,
        block: &OpenBlock,
        publication: Publication,
    ) -> Result<(), AllocError>
    where
        P: Publish<Item = Event<W>>,
        ensures { let grew = PutsUnder P.sink S.stamp block.now.heading self.old self.new in
            MatchResult result (λ _. grew (unless_silent block.now.silent (publication ∷ []))) (λ _. grew []) }
    {
        if block.silent {
            drop(publication);
            return Ok(());
        }
        self.publish(alloc, &block.heading, publication)
    }

    /// Publishes a publication with the next number.
    ///
    /// # Errors
    ///
    /// If memory was refused, the sink refused, or no number is left. Then nothing is published.
    pub fn publish<W: Drop>(
        &mut self,
        alloc: Global,
        heading: &Heading,
        publication: Publication,
    ) -> Result<(), AllocError>
    where
        P: Publish<Item = Event<W>>,
        ensures { let grew = PutsUnder P.sink S.stamp heading.now self.old self.new in
            MatchResult result (λ _. grew (publication ∷ [])) (λ _. grew []) }
    {
        if self.next > LAST_NUMBER {
            drop(publication);
            return Err(AllocError);
        }
        let message = self.publication(alloc, heading, self.next, publication)?;
        match self.sink.publish(Event::Message(message)) {
            Ok(()) => {
                self.next += 1;
                Ok(())
            }
            Err(refused) => {
                drop(refused);
                Err(AllocError)
            }
        }
    }

    /// Publishes what a cell wrote, unless it is silent.
    ///
    /// # Errors
    ///
    /// As `put`. Then a beginning of it is published.
    #[tactic(auto, using(crate::proofs::GrowthLemmas::puts_none))]
    pub(crate) fn put_outputs<W: Drop>(
        &mut self,
        alloc: Global,
        block: &OpenBlock,
        outputs: Row<Output>,
    ) -> Result<(), AllocError>
    where
        P: Publish<Item = Event<W>>,
        ensures { let grew = PutsUnder P.sink S.stamp block.now.heading self.old self.new in
            MatchResult result (λ _. grew (unless_silent block.now.silent (map publication_of outputs)))
            (λ _. InFront grew block.now.silent (map publication_of outputs)) }
    {
        let mut waiting = VecDeque::from_vec(outputs.into_vec());
        while let Some(output) = waiting.pop_front() {
            self.put(alloc, block, publication_of(output))?;
        }
        Ok(())
    }

    /// What is published under this number, as a message after its topic.
    pub(crate) fn publication(
        &self,
        alloc: Global,
        heading: &Heading,
        number: u64,
        publication: Publication,
    ) -> Result<Frames, AllocError>
        ensures { IfOk result (λ frames. frames
            ≡ published (sealing_of S.stamp self.now) heading.now number publication) }
    {
        let Ok((prefix, content)) = topic_and_content(alloc, &publication) else {
            drop(publication);
            return Err(AllocError);
        };
        let msg_type = type_of(&publication);
        let body = Body {
            content,
            buffers: publication.into_buffers(alloc),
        };
        self.message(alloc, heading, prefix, number, msg_type, body)
    }

    /// The message of this number and type that says this, sealed after a prefix.
    #[tactic(auto, unfolding(crate::specs::Block::message))]
    pub(crate) fn message(
        &self,
        alloc: Global,
        heading: &Heading,
        prefix: Frames,
        number: u64,
        msg_type: &str,
        body: Body,
    ) -> Result<Frames, AllocError>
        ensures { IfOk result (λ frames. frames
            ≡ message (sealing_of S.stamp self.now) heading.now prefix number msg_type.now body) }
    {
        let parts = match self.parts(alloc, heading, number, msg_type, body) {
            Ok(parts) => parts,
            Err(AllocError) => {
                drop(prefix);
                return Err(AllocError);
            }
        };
        match seal(alloc, &self.signer, prefix, parts) {
            Ok(frames) => Ok(frames),
            Err(_) => Err(AllocError),
        }
    }

    /// The parts of the message of this number and type that says this.
    fn parts(
        &self,
        alloc: Global,
        heading: &Heading,
        number: u64,
        msg_type: &str,
        body: Body,
    ) -> Result<MessageParts, AllocError>
        ensures { let sealing = sealing_of S.stamp self.now in
            IfOk result (λ parts. parts ≡ record {
              header = header_octets sealing.session (sealing.id number) heading.now.date msg_type.now;
              parent = heading.now.parent;
              metadata = empty_object;
              content = body.content;
              buffers = body.buffers;
            }) }
    {
        match self.heads(alloc, heading, number, msg_type) {
            Ok((header, parent, metadata)) => {
                let Body { content, buffers } = body;
                Ok(MessageParts {
                    header: Octets::new(header),
                    parent: Octets::new(parent),
                    metadata: Octets::new(metadata),
                    content,
                    buffers,
                })
            }
            Err(AllocError) => {
                drop(body);
                Err(AllocError)
            }
        }
    }

    /// The header, the parent header and the metadata of the message of this number and type.
    fn heads(
        &self,
        alloc: Global,
        heading: &Heading,
        number: u64,
        msg_type: &str,
    ) -> Result<(Vec<u8>, Vec<u8>, Vec<u8>), AllocError>
        ensures { let sealing = sealing_of S.stamp self.now in
            IfOk result (λ heads. (heads.0.items
            ≡ header_octets sealing.session (sealing.id number) heading.now.date msg_type.now)
            × (heads.1.items ≡ heading.now.parent) × (heads.2.items ≡ empty_object)) }
    {
        let header = self.header(alloc, heading, number, msg_type)?;
        let Ok(parent) = Vec::from_slice(alloc, heading.parent.as_slice()) else {
            drop(header);
            return Err(AllocError);
        };
        let Ok(metadata) = Vec::from_slice(alloc, b"{}") else {
            drop(parent);
            drop(header);
            return Err(AllocError);
        };
        Ok((header, parent, metadata))
    }

    /// The header of the message of this number and type.
    fn header(
        &self,
        alloc: Global,
        heading: &Heading,
        number: u64,
        msg_type: &str,
    ) -> Result<Vec<u8>, AllocError>
        ensures { let sealing = sealing_of S.stamp self.now in
            IfOk result (λ header. header.items
            ≡ header_octets sealing.session (sealing.id number) heading.now.date msg_type.now) }
    {
        let id = self.stamp.id(alloc, number)?;
        let session = self.stamp.session();
        let date = heading.date.as_str();
        let header = header_text(alloc, session, id.as_str(), date, msg_type);
        drop(id);
        match header {
            Ok(header) => Ok(header),
            Err(_) => Err(AllocError),
        }
    }
}

/// The topic of a publication, as the frame in front of its message, and the octets of its content, which is JSON.
fn topic_and_content(
    alloc: Global,
    publication: &Publication,
) -> Result<(Frames, Octets), AllocError>
    ensures { IfOk result (λ made. (made.0 ≡ topic publication.now ∷ [])
        × (made.1 ≡ compact_text (publication_data publication.now))) }
{
    let topic = Vec::from_slice(alloc, topic_of(publication).as_bytes())?;
    let mut prefix = Vec::new(alloc);
    prefix.push(topic)?;
    let Ok(content) = content_text_of_publication(alloc, publication) else {
        return Err(AllocError);
    };
    Ok((Frames::new(prefix), Octets::new(content)))
}

/// What a cell wrote, as it is published.
fn publication_of(output: Output) -> Publication
    ensures { result ≡ publication_of output }
{
    match output {
        Output::Stdout(text) => Publication::Stream { err: false, text },
        Output::Stderr(text) => Publication::Stream { err: true, text },
        Output::Display(text, buffers) => Publication::Display { text, buffers },
        Output::DisplayHtml { text, html } => Publication::DisplayHtml { text, html },
    }
}
