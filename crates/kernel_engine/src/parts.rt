//! The parts of an engine, and the steps by which it handles a request.

ghost use Rattle.std.specs.Prelude.{◌≡◌, ◌⊎◌, ◌≤◌, ◌<◌, ◌^◌, None, OnErr, OnOk, MatchBool, MatchResult};
ghost use Rattle.kernel_engine.specs.declared.fault.EngineFault.TheVariants.{Memory};
ghost use Rattle.kernel_engine.specs.Begins.{BeginsRequest, BeginsNot};
ghost use Rattle.kernel_engine.specs.Comes.{IsRead, is_silent, message_comes};
ghost use Rattle.kernel_engine.specs.Handles.{AnswersInBlock, AnswersNot, Closes, HandlesErr};
ghost use Rattle.kernel_engine.specs.Handles.{HandlesOk, LeavesOpen, Pays, PaysNot};
ghost use Rattle.kernel_engine.specs.Last.{ClosesBehind, HandlesLast, HandlesLastErr};
ghost use Rattle.kernel_engine.specs.Starts.{StartsFirst, StartsLater, StartsRefused};
ghost use Rattle.kernel_engine.specs.World.{world_of};

use crate::asked::Asked;
use crate::does::Does;
use crate::fault::EngineFault;
use crate::open_block::{Begun, OpenBlock};
use crate::pending::Pending;
use crate::publishing::Publishing;
use crate::respond::read_does;
use crate::response::Response;
use crate::side::Side;
use crate::stop::Stop;
use interp_core::Interpreter;
use iopub_event::Event;
use iopub_queue::{Publish, PublishAfter, Word};
use jmsg_envelope::{Envelope, Stamp};
use jmsg_types::MessageType;
use std::alloc::{AllocError, Global};

/// The greatest next number with which a request is begun: then 2^62 ids were not given yet.
const LAST_BEGIN: u64 = 1 << 62;

/// The parts of an engine.
#[derive(Drop)]
pub struct Parts<I, P, S, W> {
    /// The channel that its requests come in on.
    pub side: Side,
    /// What runs cells.
    pub interp: I,
    /// How many cells were counted.
    pub count: u64,
    /// What its messages are made and published with.
    pub publishing: Publishing<P, S>,
    /// The idle of the latest block, if it isn't published yet.
    pub owed: Option<Event<W>>,
}

impl<I, P, S, W: Drop> Parts<I, P, S, W>
where
    P: Publish<Item = Event<W>>,
{
    /// Publishes the idle that is owed, if one is: whether none is owed then.
    pub(crate) fn pay(&mut self) -> bool
        ensures { MatchBool result (Pays P.sink self.old self.new)
            (PaysNot P.sink self.old self.new) }
    {
        let Some(idle) = self.owed.take() else {
            return true;
        };
        match self.publishing.sink.publish(idle) {
            Ok(()) => true,
            Err(refused) => {
                self.owed = Some(refused.item);
                false
            }
        }
    }

    /// Publishes the idle of a block, or owes it.
    fn close_block(&mut self, block: OpenBlock)
        requires { self.old.owed ≡ None }
        ensures { Closes P.sink block.idle self.old self.new
            ⊎ LeavesOpen P.sink block.idle self.old self.new }
    {
        let OpenBlock {
            heading,
            idle,
            silent: _,
        } = block;
        drop(heading);
        if let Err(returned) = self.publishing.sink.publish(Event::Message(idle)) {
            self.owed = Some(returned.item);
        }
    }
}

impl<I: Interpreter, P, S: Stamp, W: Drop> Parts<I, P, S, W>
where
    P: Publish<Item = Event<W>>,
{
    /// Answers a request in its block, which is open: its reply, and what the kernel is to do.
    fn answer<T: Stop>(
        &mut self,
        alloc: Global,
        block: &OpenBlock,
        pending: Pending,
        stop: &T,
    ) -> Result<Response, EngineFault>
        requires few { self.old.count < 2 ^ 63 }
        requires silent { block.now.silent ≡ is_silent pending.does }
        ensures { let world = world_of I.meaning P.sink S.stamp in
            let may = T.may_ask stop.now in
            MatchResult result
            (λ handled. AnswersInBlock world may block.now.heading pending.identities pending.msg_type pending.does
            self.old handled self.new)
            (λ fault. (fault ≡ Memory) × AnswersNot world may block.now.heading pending.does self.old self.new) }
    {
        let Pending {
            identities,
            msg_type,
            does,
        } = pending;
        let Ok(answered) = self.respond(alloc, block, stop, does) else {
            drop(msg_type);
            drop(identities);
            return Err(EngineFault::Memory);
        };
        let publishing = &mut self.publishing;
        let named = msg_type.as_str();
        let reply = publishing.reply(alloc, &block.heading, identities, named, answered.reply);
        drop(msg_type);
        let Ok(reply) = reply else {
            return Err(EngineFault::Memory);
        };
        Ok(Response {
            reply,
            order: answered.order,
        })
    }

    /// Publishes that the kernel starts, if these are the parts of an engine of the shell that gave no id.
    ///
    /// # Errors
    ///
    /// `Memory` if memory was refused, or the sink refused. Then nothing is published.
    pub(crate) fn start(&mut self, alloc: Global) -> Result<(), EngineFault>
        ensures { MatchResult result
            (λ _. StartsFirst P.sink S.stamp self.old self.new
            ⊎ StartsLater P.sink S.stamp self.old self.new)
            (λ fault. StartsRefused P.sink S.stamp self.old fault self.new) }
    {
        if self.side == Side::Control || self.publishing.next != 1 {
            return Ok(());
        }
        match self.publishing.start(alloc) {
            Ok(()) => Ok(()),
            Err(AllocError) => Err(EngineFault::Memory),
        }
    }

    /// Whether so many ids were given that no further request is begun.
    pub(crate) fn is_worn(&self) -> bool
        ensures { MatchBool result (2 ^ 62 < self.now.publishing.next) (self.now.publishing.next ≤ 2 ^ 62) }
    {
        self.publishing.next > LAST_BEGIN
    }

    /// What a request comes to: `Unread` if memory was refused.
    pub fn read(&self, alloc: Global, request: &Envelope) -> Does
        ensures { IsRead result (message_comes self.now.side request.now) }
    {
        let kind = MessageType::from_name(request.msg_type.as_str());
        match read_does(alloc, self.side, kind, request.content.as_slice()) {
            Ok(does) => does,
            Err(AllocError) => Does::Unread,
        }
    }

    /// Begins a request that was read: publishes the idle that is owed, opens the block, and answers the request in it.
    ///
    /// # Errors
    ///
    /// `Worn` if 2^62 ids were given, `OwedIdle` if an idle stays owed: then nothing changes. `Memory` if memory was
    /// refused, or the sink refused: then nothing was published of the request.
    fn begin<T: Stop>(
        &mut self,
        alloc: Global,
        asked: Asked,
        stop: &T,
    ) -> Result<Begun, EngineFault>
        requires few { self.old.count ≤ self.old.publishing.next }
        ensures begun { let world = world_of I.meaning P.sink S.stamp in
            let may = T.may_ask stop.now in
            MatchResult result
            (λ begun. BeginsRequest world may asked self.old begun self.new)
            (λ fault. BeginsNot world asked.request self.old fault self.new) }
        ensures owed { OnOk result (self.new.owed ≡ None) }
        ensures counted { OnErr result (self.new.count ≤ self.new.publishing.next) }
    {
        if self.is_worn() {
            drop(asked);
            return Err(EngineFault::Worn);
        }
        if !self.pay() {
            return Err(EngineFault::OwedIdle(asked.into_request()));
        }
        let (header, pending) = asked.into_pending();
        let silent = pending.does.is_silent();
        let Ok(block) = self.publishing.open(alloc, header, silent) else {
            drop(pending);
            return Err(EngineFault::Memory);
        };
        let answered = self.answer(alloc, &block, pending, stop);
        Ok(Begun { block, answered })
    }

    /// Handles a request that was read: publishes the idle that is owed, opens the block, answers the request in it,
    /// and closes it.
    ///
    /// # Errors
    ///
    /// `Worn` if 2^62 ids were given, `OwedIdle` if an idle stays owed: then nothing changes. `Memory` if memory was
    /// refused, or the sink refused: then nothing was published of the request, or a cut block was.
    pub fn finish<T: Stop>(
        &mut self,
        alloc: Global,
        asked: Asked,
        stop: &T,
    ) -> Result<Response, EngineFault>
        requires read { IsRead asked.does (message_comes self.old.side asked.request) }
        requires few { self.old.count ≤ self.old.publishing.next }
        ensures handled { let world = world_of I.meaning P.sink S.stamp in
            let may = T.may_ask stop.now in
            MatchResult result
            (λ handled. HandlesOk world may asked.request self.old handled self.new)
            (λ fault. HandlesErr world may asked.request self.old fault self.new) }
        ensures counted { self.new.count ≤ self.new.publishing.next }
        ensures read { OnOk result (asked.does ≡ message_comes self.old.side asked.request) }
    {
        match self.begin(alloc, asked, stop) {
            Ok(Begun { block, answered }) => {
                self.close_block(block);
                answered
            }
            Err(fault) => Err(fault),
        }
    }
}

impl<I: Interpreter, P, S: Stamp, W: Drop> Parts<I, P, S, W>
where
    P: PublishAfter<Item = Event<W>>,
{
    /// Publishes the idle of a block after all that the word tells of, or owes it.
    fn close_behind(&mut self, word: Word<Event<W>>, block: OpenBlock)
        requires owed { self.old.owed ≡ None }
        requires queue { word.queue ≡ (P.publisher self.old.publishing.sink).queue }
        ensures { ClosesBehind P.publisher P.sink block.idle word.list self.old self.new
            ⊎ LeavesOpen P.sink block.idle self.old self.new }
    {
        let OpenBlock {
            heading,
            idle,
            silent: _,
        } = block;
        drop(heading);
        let closing = Event::Message(idle);
        if let Err(back) = self.publishing.sink.publish_after(word, closing) {
            self.owed = Some(back.item);
        }
    }

    /// Handles a request that was read as `finish` does, its idle after all that the word tells of. If no idle is
    /// published the word is dropped.
    ///
    /// # Errors
    ///
    /// As `finish`.
    pub(crate) fn finish_last<T: Stop>(
        &mut self,
        alloc: Global,
        word: Word<Event<W>>,
        asked: Asked,
        stop: &T,
    ) -> Result<Response, EngineFault>
        requires read { IsRead asked.does (message_comes self.old.side asked.request) }
        requires few { self.old.count ≤ self.old.publishing.next }
        requires queue { word.queue ≡ (P.publisher self.old.publishing.sink).queue }
        ensures handled { let world = world_of I.meaning P.sink S.stamp in
            let may = T.may_ask stop.now in
            MatchResult result
            (λ handled. HandlesLast world P.publisher may asked.request word.list self.old handled self.new)
            (λ fault. HandlesLastErr world P.publisher may asked.request word.list self.old fault self.new) }
        ensures counted { self.new.count ≤ self.new.publishing.next }
    {
        match self.begin(alloc, asked, stop) {
            Ok(Begun { block, answered }) => {
                self.close_behind(word, block);
                answered
            }
            Err(fault) => {
                drop(word);
                Err(fault)
            }
        }
    }
}
