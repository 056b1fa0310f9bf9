//! Engines of shell and control: what a kernel publishes and replies, request by request.

ghost use Rattle.std.specs.Prelude.{◌≡◌, ◌⊎◌, [], None, MatchResult};
ghost use Rattle.kernel_engine.specs.Comes.{IsRead, message_comes};
ghost use Rattle.kernel_engine.specs.declared.response.Response.{Response};
ghost use Rattle.kernel_engine.specs.Handles.{HandlesErr, HandlesOk, Pays, PaysNot};
ghost use Rattle.kernel_engine.specs.Last.{HandlesLast, HandlesLastErr};
ghost use Rattle.kernel_engine.specs.Orders.{handled_of};
ghost use Rattle.kernel_engine.specs.Takes.{Asks, Finishes, GoesUnread, AreUnread, Takes};
ghost use Rattle.kernel_engine.specs.Starts.{SaysNothing, SaysStarting, StartsNot};
ghost use Rattle.kernel_engine.specs.World.{world_of};

use crate::asked::{Asked, Done, Unread};
use crate::engine_end::EngineEnd;
use crate::fault::EngineFault;
use crate::handled::Handled;
use crate::parts::Parts;
use crate::publishing::Publishing;
use crate::side::Side;
use crate::stop::Stop;
use interp_core::Interpreter;
use iopub_event::Event;
use iopub_queue::{Publish, PublishAfter, Word};
use jmsg_envelope::{Envelope, EnvelopeFault, Signer, Stamp, open_envelope};
use listed::Frames;
use std::alloc::Global;
use std::marker::Model;

/// An engine of one channel. It handles requests one after the other, over an interpreter, a sink for what it
/// publishes, a stamp for ids and dates, and a signer. A contract sees its parts.
///
/// What it published is always well blocked. First comes that the kernel starts, if it said so, and then one block
/// after the other, each from busy to idle. The last block is open exactly if its idle is owed.
#[derive(Drop)]
pub struct Engine<I: Interpreter, P, S: Stamp, W>
where
    P: Publish<Item = Event<W>>,
{
    /// Its parts.
    parts: Parts<I, P, S, W>,
}

impl<I: Interpreter, P, S: Stamp, W> Model for Engine<I, P, S, W>
where
    P: Publish<Item = Event<W>>,
{
    ghost use Rattle.kernel_engine.specs.declared.parts.Parts.{Parts};

    ghost Value = { Parts I P S W };

    ghost use Rattle.kernel_engine.specs.Within.{parts_of_engine, IsSound};
    ghost use Rattle.kernel_engine.specs.World.{world_of};

    ghost view = { parts_of_engine };

    ghost invariant = { IsSound (world_of I.meaning P.sink S.stamp) };
}

impl<I: Interpreter, P, S: Stamp, W: Drop> Engine<I, P, S, W>
where
    P: Publish<Item = Event<W>>,
{
    /// An engine that has published nothing, over a sink that has published nothing. Needs no memory.
    pub fn new(side: Side, interp: I, sink: P, stamp: S, signer: Signer) -> Engine<I, P, S, W>
        requires { P.sink.items sink ≡ [] }
        ensures { result ≡ record {
          side = side;
          interp = interp;
          count = 0;
          publishing = record { sink = sink; signer = signer; stamp = stamp; next = 1 };
          owed = None;
        } }
    {
        Engine {
            parts: Parts {
                side,
                interp,
                count: 0,
                publishing: Publishing {
                    sink,
                    signer,
                    stamp,
                    next: 1,
                },
                owed: None,
            },
        }
    }

    /// Publishes that the kernel starts, if this is an engine of the shell that has published nothing. Any other does
    /// nothing.
    ///
    /// # Errors
    ///
    /// `Memory` if memory was refused, or the sink refused. Then nothing is published.
    pub fn start(&mut self, alloc: Global) -> Result<(), EngineFault>
        ensures { MatchResult result
            (λ _. SaysStarting P.sink S.stamp self.old self.new
            ⊎ SaysNothing P.sink S.stamp self.old self.new)
            (λ fault. StartsNot P.sink S.stamp self.old fault self.new) }
    {
        self.parts.start(alloc)
    }

    /// Opens the frames of a message as a request under the engine's key, and reads what it comes to.
    ///
    /// # Errors
    ///
    /// `NoRequest` if they are none, and `NoMemory` if memory was refused.
    pub fn read(&self, alloc: Global, frames: Frames) -> Result<Asked, Unread>
        ensures { MatchResult result (Asks self.now.publishing.signer self.now.side frames)
            (AreUnread self.now.publishing.signer frames) }
    {
        let request = match open_envelope(alloc, self.signer(), frames.into_vec()) {
            Ok(request) => request,
            Err(EnvelopeFault::OutOfMemory) => return Err(Unread::NoMemory),
            Err(
                EnvelopeFault::NoDelimiter
                | EnvelopeFault::TooFewParts
                | EnvelopeFault::BadSignature
                | EnvelopeFault::BadHeader,
            ) => return Err(Unread::NoRequest),
        };
        let does = self.parts.read(alloc, &request);
        Ok(Asked { request, does })
    }

    /// Handles a request that was read. Its block is published, from busy to idle, and its reply is answered with what
    /// the kernel is to do.
    ///
    /// It is refused as `Worn` if 2^62 ids were given. It is refused as `OwedIdle`, with the request, if the idle of
    /// the one before is owed and the sink refused it again. In both cases nothing changes. It is refused as `Memory`
    /// if memory was refused, or the sink refused. Then nothing was published of the request, or a cut block was, whose
    /// idle may be owed. The cells that ran stay.
    pub fn finish<T: Stop>(&mut self, alloc: Global, asked: Asked, stop: &T) -> Done
        requires { IsRead asked.does (message_comes self.old.side asked.request) }
        ensures { Finishes (world_of I.meaning P.sink S.stamp) (T.may_ask stop.now) asked self.old result self.new }
    {
        match self.parts.finish(alloc, asked, stop) {
            Ok(response) => Done::Handled(response),
            Err(fault) => Done::Refused(fault),
        }
    }

    /// Handles a request: reads what it comes to, and then as `finish`.
    ///
    /// # Errors
    ///
    /// As `finish` refuses it.
    pub fn handle<T: Stop>(
        &mut self,
        alloc: Global,
        request: Envelope,
        stop: &T,
    ) -> Result<Handled, EngineFault>
        ensures { let world = world_of I.meaning P.sink S.stamp in
            let may = T.may_ask stop.now in
            MatchResult result
            (λ handled. (response : Response) × (handled ≡ handled_of response)
            × HandlesOk world may request self.old response self.new)
            (λ fault. HandlesErr world may request self.old fault self.new) }
    {
        let does = self.parts.read(alloc, &request);
        match self.parts.finish(alloc, Asked { request, does }, stop) {
            Ok(response) => Ok(Handled::of(response)),
            Err(fault) => Err(fault),
        }
    }

    /// Takes the frames of a message: opens them as a request under the engine's key, reads it, and handles it. If no
    /// memory was left to open them, and 2^62 ids were given, they are refused as `Worn`.
    pub fn take<T: Stop>(&mut self, alloc: Global, frames: Frames, stop: &T) -> Done
        ensures { Takes (world_of I.meaning P.sink S.stamp) (T.may_ask stop.now) frames self.old result self.new }
    {
        match self.read(alloc, frames) {
            Ok(asked) => self.finish(alloc, asked, stop),
            Err(unread) => self.unread_done(unread),
        }
    }

    /// What comes of a message that isn't read. If it is no request it is ignored. If no memory was left for it, it is
    /// lost, or refused as `Worn` if 2^62 ids were given.
    pub fn unread_done(&self, unread: Unread) -> Done
        ensures { GoesUnread self.now unread result }
    {
        match unread {
            Unread::NoRequest => Done::Ignored,
            Unread::NoMemory => {
                if self.parts.is_worn() {
                    return Done::Refused(EngineFault::Worn);
                }
                Done::Lost
            }
        }
    }

    /// What its messages are signed with, and its requests verified.
    pub fn signer(&self) -> &Signer
        ensures { result.now ≡ self.now.publishing.signer }
    {
        &self.parts.publishing.signer
    }

    /// Ends the engine. An idle that is owed is tried once more.
    pub fn close(self) -> EngineEnd<I, P, S, W>
        ensures { Pays P.sink self result
            ⊎ PaysNot P.sink self result }
    {
        let mut parts = self.parts;
        parts.pay();
        EngineEnd::new(parts)
    }
}

impl<I: Interpreter, P, S: Stamp, W: Drop> Engine<I, P, S, W>
where
    P: PublishAfter<Item = Event<W>>,
{
    /// Handles a request as `handle` does. In the view of the sink's publisher the idle that closes its block stands
    /// after all that the word tells of. So what the word tells of is taken before it, in every schedule. If no idle is
    /// published the word is dropped.
    ///
    /// # Errors
    ///
    /// As `handle`.
    pub fn handle_last<T: Stop>(
        &mut self,
        alloc: Global,
        word: Word<Event<W>>,
        request: Envelope,
        stop: &T,
    ) -> Result<Handled, EngineFault>
        requires queue { word.queue ≡ (P.publisher self.old.publishing.sink).queue }
        ensures { let world = world_of I.meaning P.sink S.stamp in
            let may = T.may_ask stop.now in
            MatchResult result
            (λ handled. (response : Response) × (handled ≡ handled_of response)
            × HandlesLast world P.publisher may request word.list self.old response self.new)
            (λ fault. HandlesLastErr world P.publisher may request word.list self.old fault self.new) }
    {
        let does = self.parts.read(alloc, &request);
        let asked = Asked { request, does };
        match self.parts.finish_last(alloc, word, asked, stop) {
            Ok(handled) => Ok(Handled::of(handled)),
            Err(fault) => Err(fault),
        }
    }
}
