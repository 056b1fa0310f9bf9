//! Requests that are answered.

ghost use Rattle.std.specs.Prelude.{◌≡◌, ◌<◌, ◌^◌, ℕ, List, [], Option, Some, None, Result, IfOk, IfSome, IsErr};
ghost use Rattle.std.specs.Prelude.{MatchResult, option_to_list};
ghost use Rattle.interp_core.specs.Fault.{fault_name, fault_value};
ghost use Rattle.interp_core.specs.declared.answer.Completeness.{Completeness};
ghost use Rattle.interp_core.specs.declared.answer.Completion.{Completion};
ghost use Rattle.interp_core.specs.declared.answer.Info.{Info};
ghost use Rattle.interp_core.specs.declared.fault.InterpFault.{InterpFault};
ghost use Rattle.jmsg_types.specs.declared.reply.Reply.{Reply};
ghost use Rattle.jmsg_types.specs.declared.reply.Reply.TheVariants as tells;
ghost use Rattle.jmsg_types.specs.Fault.{IsAnswerOrMemory, refusal_of};
ghost use Rattle.kernel_engine.specs.Answer.{Finds, completeness_reply, completion_reply, error_reply_to, info_reply};
ghost use Rattle.kernel_engine.specs.Answer.{reply_by, verdict_of};
ghost use Rattle.kernel_engine.specs.Comes.{asked_of, comes_by, has_meaning, is_silent, refused};
ghost use Rattle.kernel_engine.specs.Growth.{PutsUnder};
ghost use Rattle.kernel_engine.specs.Publications.{count_after};
ghost use Rattle.kernel_engine.specs.Responds.{ExecutedCut, ExecutedWhole};
ghost use Rattle.kernel_engine.specs.Responds.{RespondsCut, RespondsWhole, answer_of};

use crate::does::{Does, Look, Order, comes_to};
use crate::heading::Heading;
use crate::open_block::OpenBlock;
use crate::parts::Parts;
use crate::publishing::Publishing;
use crate::side::Side;
use crate::stop::Stop;
use crate::words::own_words;
use interp_core::{Completeness, Completion, Info, InterpFault, Interpreter};
use iopub_event::Event;
use iopub_queue::Publish;
use jmsg_envelope::Stamp;
use jmsg_types::{
    ContentFault, ErrorForm, Heard, MessageType, Publication, Reply, Request, Verdict,
    content_words, read_known,
};
use listed::{Row, Text};
use std::alloc::{AllocError, Global};

/// What a request is answered.
#[derive(Drop)]
pub struct Answered {
    /// The content of its reply, if it has one.
    pub reply: Option<Reply>,
    /// What the kernel is to do.
    pub order: Order,
}

impl Answered {
    /// A reply, or none, and nothing that the kernel is to do.
    fn plain(reply: Option<Reply>) -> Answered
        ensures { result ≡ record { reply = reply; order = Order.GoOn } }
    {
        Answered {
            reply,
            order: Order::GoOn,
        }
    }
}

/// What a message of this type and content comes to on a channel.
///
/// # Errors
///
/// If memory was refused.
pub fn read_does(
    alloc: Global,
    side: Side,
    kind: Option<MessageType>,
    content: &[u8],
) -> Result<Does, AllocError>
    ensures { IfOk result (λ does. does ≡ comes_by side kind (asked_of side kind content.now)) }
{
    match asked_of(alloc, side, kind, content) {
        Ok(request) => Ok(comes_to(side, request)),
        Err(fault) => refuse(alloc, kind, &fault),
    }
}

/// What a message of this type and content asks on a channel. One without a meaning there isn't read.
fn asked_of(
    alloc: Global,
    side: Side,
    kind: Option<MessageType>,
    content: &[u8],
) -> Result<Request, ContentFault>
    ensures { IsAnswerOrMemory result (asked_of side kind content.now) }
{
    let Some(kind) = kind else {
        return Ok(Request::Unknown);
    };
    if has_meaning(side, kind) {
        read_known(alloc, kind, content)
    } else {
        Ok(Request::Unknown)
    }
}

/// Whether a type of message has a meaning on a channel.
fn has_meaning(side: Side, kind: MessageType) -> bool
    ensures { result ≡ has_meaning side kind }
{
    match kind.columns().heard {
        Heard::Everywhere => true,
        Heard::OnShell => side == Side::Shell,
        Heard::Nowhere => false,
    }
}

/// What a message comes to whose content is refused.
fn refuse(
    alloc: Global,
    kind: Option<MessageType>,
    fault: &ContentFault,
) -> Result<Does, AllocError>
    ensures does { IfOk result (λ does. IfSome (refusal_of fault.now) (λ refusal. does ≡ refused kind refusal)) }
    ensures memory { refusal_of fault.now ≡ None → IsErr result }
{
    let Ok((ename, evalue)) = content_words(alloc, fault) else {
        return Err(AllocError);
    };
    let Some(kind) = kind else {
        return Ok(Does::nothing());
    };
    let ename = Text::new(String::from_str(alloc, ename)?);
    Ok(Does::Refuses {
        kind,
        ename,
        evalue,
    })
}

/// The error that replies to a type of message.
fn error_reply(kind: MessageType, count: u64, ename: Text, evalue: Text) -> Option<Reply>
    ensures { result ≡ error_reply_to kind count ename evalue }
{
    match kind.columns().error {
        ErrorForm::NoError => None,
        ErrorForm::Plain => Some(Reply::Error { ename, evalue }),
        ErrorForm::Counted => Some(Reply::ExecuteError {
            ename,
            evalue,
            count,
        }),
    }
}

impl<I: Interpreter, P, S: Stamp, W: Drop> Parts<I, P, S, W>
where
    P: Publish<Item = Event<W>>,
{
    /// Answers a request by what it comes to, and publishes what is to be published of it.
    ///
    /// # Errors
    ///
    /// If memory was refused, or the sink refused.
    pub(crate) fn respond<T: Stop>(
        &mut self,
        alloc: Global,
        block: &OpenBlock,
        stop: &T,
        does: Does,
    ) -> Result<Answered, AllocError>
        requires few { self.old.count < 2 ^ 63 }
        requires silent { block.now.silent ≡ is_silent does }
        ensures responds { let grew =
            PutsUnder P.sink S.stamp block.now.heading self.old.publishing self.new.publishing in
            let may = T.may_ask stop.now in
            MatchResult result
            (λ answered. RespondsWhole I.meaning does may self.old.interp self.old.count
            (answer_of answered self.new.interp self.new.count) grew)
            (λ _. RespondsCut I.meaning does may self.old.interp self.old.count self.new.interp self.new.count grew) }
        ensures rest { self.new ≡ record self.old {
          interp = self.new.interp;
          count = self.new.count;
          publishing = self.new.publishing;
        } }
    {
        match does {
            Does::Says {
                publication,
                reply,
                order,
            } => say(
                alloc,
                &mut self.publishing,
                &block.heading,
                publication,
                reply,
                order,
            ),
            Does::Looks(look) => look_up(alloc, &self.interp, look),
            Does::Runs {
                code,
                silent: _,
                counts,
                expressions,
            } => self.run(alloc, block, stop, counts, code, expressions),
            Does::Refuses {
                kind,
                ename,
                evalue,
            } => Ok(Answered::plain(error_reply(kind, self.count, ename, evalue))),
            Does::Unread => Err(AllocError),
        }
    }

    /// Counts a cell that is stored, runs it and publishes it unless it is silent, and replies to it.
    fn run<T: Stop>(
        &mut self,
        alloc: Global,
        block: &OpenBlock,
        stop: &T,
        counts: bool,
        code: Text,
        expressions: Row<(Text, Text)>,
    ) -> Result<Answered, AllocError>
        requires { self.old.count < 2 ^ 63 }
        ensures ran { let grew = PutsUnder P.sink S.stamp block.now.heading self.old.publishing self.new.publishing in
            let may = T.may_ask stop.now in
            let silent = block.now.silent in
            let count = count_after counts self.old.count in
            MatchResult result
            (λ answered. (reply : Reply) × (answered ≡ record { reply = Some reply; order = Order.GoOn })
            × ExecutedWhole I.meaning may silent code expressions count self.old.interp reply self.new.interp grew)
            (λ _. ExecutedCut I.meaning may silent code expressions count self.old.interp self.new.interp grew) }
        ensures rest { self.new ≡ record self.old {
          interp = self.new.interp;
          count = count_after counts self.old.count;
          publishing = self.new.publishing;
        } }
    {
        self.grow(counts);
        match self.execute(alloc, block, stop, code, expressions) {
            Ok(reply) => Ok(Answered::plain(Some(reply))),
            Err(AllocError) => Err(AllocError),
        }
    }

    /// Counts a cell that is stored.
    fn grow(&mut self, counts: bool)
        requires { self.old.count < 2 ^ 63 }
        ensures { self.new ≡ record self.old { count = count_after counts self.old.count } }
    {
        if counts {
            self.count += 1;
        }
    }
}

/// Publishes this, if there is something, and replies this.
fn say<P, S: Stamp, W: Drop>(
    alloc: Global,
    publishing: &mut Publishing<P, S>,
    heading: &Heading,
    publication: Option<Publication>,
    reply: Option<Reply>,
    order: Order,
) -> Result<Answered, AllocError>
where
    P: Publish<Item = Event<W>>,
    ensures { let grew = PutsUnder P.sink S.stamp heading.now publishing.old publishing.new in
        MatchResult result
        (λ answered. (answered ≡ record { reply = reply; order = order }) × grew (option_to_list publication))
        (λ _. grew []) }
{
    if let Err(AllocError) = publish(alloc, publishing, heading, publication) {
        drop(reply);
        return Err(AllocError);
    }
    Ok(Answered { reply, order })
}

/// Publishes this, if there is something.
fn publish<P, S: Stamp, W: Drop>(
    alloc: Global,
    publishing: &mut Publishing<P, S>,
    heading: &Heading,
    publication: Option<Publication>,
) -> Result<(), AllocError>
where
    P: Publish<Item = Event<W>>,
    ensures { let grew = PutsUnder P.sink S.stamp heading.now publishing.old publishing.new in
        MatchResult result (λ _. grew (option_to_list publication)) (λ _. grew []) }
{
    match publication {
        Some(publication) => publishing.publish(alloc, heading, publication),
        None => Ok(()),
    }
}

/// What the language answers, as a reply.
fn look_up<I: Interpreter>(alloc: Global, interp: &I, look: Look) -> Result<Answered, AllocError>
    ensures { IfOk result (λ answered. (reply : Reply) × Finds I.meaning interp.now look reply
        × (answered ≡ record { reply = Some reply; order = Order.GoOn })) }
{
    match find(alloc, interp, look) {
        Ok(reply) => Ok(Answered::plain(Some(reply))),
        Err(AllocError) => Err(AllocError),
    }
}

/// What the language answers.
fn find<I: Interpreter>(alloc: Global, interp: &I, look: Look) -> Result<Reply, AllocError>
    ensures { IfOk result (Finds I.meaning interp.now look) }
{
    match look {
        Look::Info => tell_info(alloc, interp),
        Look::Completion { code, cursor } => tell_completion(alloc, interp, code, cursor),
        Look::Inspection { code, cursor } => tell_inspection(alloc, interp, code, cursor),
        Look::Completeness { code } => tell_completeness(alloc, interp, code),
    }
}

/// The error that replies with a fault that isn't want of memory.
fn fault_reply(alloc: Global, fault: InterpFault) -> Result<Reply, AllocError>
    ensures reply { IfOk result (λ reply. reply ≡ tells.Error (fault_name fault) (fault_value fault)) }
    ensures memory { fault ≡ InterpFault.OutOfMemory → IsErr result }
{
    let words = own_words(alloc, &fault);
    drop(fault);
    let (ename, evalue) = words?;
    Ok(Reply::Error { ename, evalue })
}

/// What the language says of itself, as a reply.
fn tell_info<I: Interpreter>(alloc: Global, interp: &I) -> Result<Reply, AllocError>
    ensures { IfOk result (λ reply. (info : Result Info InterpFault) × I.meaning.tells interp.now info
        × (reply ≡ reply_by info_reply info)) }
{
    match interp.info(alloc) {
        Ok(info) => Ok(info_reply(info)),
        Err(fault) => fault_reply(alloc, fault),
    }
}

/// What the language says of itself, as the content of a reply.
fn info_reply(info: Info) -> Reply
    ensures { result ≡ info_reply info }
{
    Reply::KernelInfo {
        banner: info.banner,
        file_extension: info.file_extension,
        mimetype: info.mimetype,
        name: info.name,
        version: info.version,
    }
}

/// How the word at a cursor may go on, as a reply.
fn tell_completion<I: Interpreter>(
    alloc: Global,
    interp: &I,
    code: Text,
    cursor: u64,
) -> Result<Reply, AllocError>
    ensures { IfOk result (λ reply. (completion : Result Completion InterpFault)
        × I.meaning.completes interp.now code cursor completion × (reply ≡ reply_by completion_reply completion)) }
{
    let completion = interp.complete(alloc, code.as_str(), cursor);
    drop(code);
    match completion {
        Ok(completion) => Ok(completion_reply(completion)),
        Err(fault) => fault_reply(alloc, fault),
    }
}

/// How a word may go on, as the content of a reply.
fn completion_reply(completion: Completion) -> Reply
    ensures { result ≡ completion_reply completion }
{
    Reply::Complete {
        matches: completion.matches,
        start: completion.start,
        end: completion.end,
    }
}

/// What is known of the word at a cursor, as a reply.
fn tell_inspection<I: Interpreter>(
    alloc: Global,
    interp: &I,
    code: Text,
    cursor: u64,
) -> Result<Reply, AllocError>
    ensures { IfOk result (λ reply. (text : Result (Option (List ℕ)) InterpFault)
        × I.meaning.inspects interp.now code cursor text × (reply ≡ reply_by tells.Inspect text)) }
{
    let text = interp.inspect(alloc, code.as_str(), cursor);
    drop(code);
    match text {
        Ok(text) => Ok(Reply::Inspect(text)),
        Err(fault) => fault_reply(alloc, fault),
    }
}

/// Whether a text is a whole cell, as a reply.
fn tell_completeness<I: Interpreter>(
    alloc: Global,
    interp: &I,
    code: Text,
) -> Result<Reply, AllocError>
    ensures { IfOk result (λ reply. (completeness : Result Completeness InterpFault)
        × I.meaning.judges interp.now code completeness × (reply ≡ reply_by completeness_reply completeness)) }
{
    let completeness = interp.is_complete(alloc, code.as_str());
    drop(code);
    match completeness {
        Ok(completeness) => Ok(Reply::IsComplete(verdict_of(completeness))),
        Err(fault) => fault_reply(alloc, fault),
    }
}

/// Whether a text is a whole cell, as a reply's word for it.
fn verdict_of(completeness: Completeness) -> Verdict
    ensures { result ≡ verdict_of completeness }
{
    match completeness {
        Completeness::Complete => Verdict::Complete,
        Completeness::Incomplete => Verdict::Incomplete,
        Completeness::Invalid => Verdict::Invalid,
    }
}
