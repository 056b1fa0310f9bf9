//! A replay: the octets that a peer sends come as hexadecimal text, and the kernel makes three lines of them.

ghost use Rattle.std.specs.Prelude.{◌≡◌, [], Some, IfOk, IfErr, IfSome, OnOk, ◌++◌, map};
ghost use Rattle.std.specs.List.{flat_map, position};
ghost use Rattle.iopub_queue.specs.Sink.{list_sink};
ghost use Rattle.kernel_session.specs.Laws.{SessionIsSettled};
ghost use Rattle.kernel_session.specs.Work.{all_items};
ghost use Rattle.kernel_replay.specs.Lines.{ending_text, ending_words, event_text, hex_octets, is_stray};
ghost use Rattle.kernel_replay.specs.Lines.{printed_lines};
ghost use Rattle.kernel_replay.specs.Session.{begun_engine};
ghost use Rattle.kernel_replay.specs.Replay.{IsNotHex, PrintsAll, PrintsPeer};

use crate::input::{HexFault, HexRefusal, octets_of, read_all, stray_at};
use crate::lines::{PrintedEnd, lines_text};
use crate::stamp::ReplayStamp;
use interp_core::Interpreter;
use iopub_event::Event;
use iopub_queue::ListSink;
use jmsg_envelope::Signer;
use kernel_engine::{Engine, EngineFault, Side, Stop};
use kernel_session::{SessionEnd, law_session_stays, session};
use std::alloc::{AllocError, Global};
use std::io::Read;
use zmtp_connection::{ConnectionEnd, ConnectionFault, Ending};
use zmtp_wire::{Counted, Inlet, WireFault, write_message};

/// The most reads of one session.
const TURNS: u64 = 1_000_000_000;

/// Stops nothing.
#[derive(Clone, Copy, Debug)]
pub(crate) struct Unstopped;

impl Stop for Unstopped {
    ghost may_ask = { λ _. ⊥ };

    fn asked(&self) -> bool {
        false
    }
}

/// Why a replay has no lines.
#[derive(Debug, Drop)]
pub enum ReplayFault {
    /// Its connection couldn't go on.
    Connection(ConnectionFault),
    /// Its engine couldn't go on.
    Engine(EngineFault),
}

/// The engine of a replay, whose subscribers have nothing that they are written to.
type ReplayEngine<I> = Engine<I, ListSink<Event<Vec<u8>>>, ReplayStamp, Vec<u8>>;

/// The octets that the reader's text spells.
///
/// # Errors
///
/// `NotHex` if it spells none, and `Failed` if memory was refused or a read failed.
pub fn read_octets<R: Read>(alloc: Global, reader: &mut R) -> Result<Vec<u8>, HexFault>
    ensures ok { IfOk result (λ octets. IfSome (R.remaining reader.old) (λ input.
        (R.remaining reader.new ≡ Some []) × (hex_octets input ≡ Some octets.items))) }
    ensures err { IfErr result (λ fault. fault ≡ HexFault.NotHex → IsNotHex (R.remaining reader.old)) }
{
    match read_hex(alloc, reader) {
        Ok(octets) => Ok(octets),
        Err(refusal) => Err(refusal.fault),
    }
}

/// As `read_octets`, and says of a text that spells none where it breaks off.
///
/// # Errors
///
/// `NotHex` with the place, and `Failed`.
pub fn read_hex<R: Read>(alloc: Global, reader: &mut R) -> Result<Vec<u8>, HexRefusal>
    ensures ok { IfOk result (λ octets. IfSome (R.remaining reader.old) (λ input.
        (R.remaining reader.new ≡ Some []) × (hex_octets input ≡ Some octets.items))) }
    ensures err { IfErr result (λ refusal. refusal.fault ≡ HexFault.NotHex → IsNotHex (R.remaining reader.old)) }
    ensures place { IfErr result (λ refusal. refusal.fault ≡ HexFault.NotHex
        → IfSome (R.remaining reader.old) (λ input. refusal.place ≡ position is_stray input)) }
{
    let Ok(text) = read_all(alloc, reader) else {
        return Err(HexRefusal {
            fault: HexFault::Failed,
            place: None,
        });
    };
    let place = stray_at(&text);
    match octets_of(alloc, text) {
        Ok(octets) => Ok(octets),
        Err(fault) => Err(HexRefusal { fault, place }),
    }
}

/// The lines of the session with a peer that sends these octets.
pub fn answer_octets<I: Interpreter + Drop>(
    alloc: Global,
    interp: I,
    key: Vec<u8>,
    octets: &[u8],
) -> Result<Vec<u8>, ReplayFault>
    ensures { IfOk result (λ lines. PrintsAll I.meaning interp key.items octets.now lines.items) }
{
    // A session that ended before the last octet is that of all octets: what stands after changes nothing.
    law_session_stays::<I, Unstopped>();
    answer_peer(alloc, interp, key, &mut Counted::new(octets))
}

/// The lines of the session with the peer whose octets are read here.
pub fn answer_peer<I: Interpreter + Drop, R: Inlet>(
    alloc: Global,
    interp: I,
    key: Vec<u8>,
    reader: &mut R,
) -> Result<Vec<u8>, ReplayFault>
    ensures { IfOk result (λ lines. PrintsPeer I.meaning interp key.items (R.inflow reader.old).left
        (R.inflow reader.new).left lines.items) }
{
    let mut engine = begun(alloc, interp, key)?;
    let mut writer = Counted::new(Vec::new(alloc));
    let end = session(alloc, reader, &mut writer, &mut engine, &Unstopped, TURNS);
    let shell = writer.into_inner();
    match outcome_of(end, engine) {
        Ok(outcome) => outcome_lines(alloc, shell, outcome),
        Err(fault) => {
            drop(shell);
            Err(fault)
        }
    }
}

/// An engine of shell, over this interpreter, that has said that the kernel starts.
fn begun<I: Interpreter + Drop>(
    alloc: Global,
    interp: I,
    key: Vec<u8>,
) -> Result<ReplayEngine<I>, ReplayFault>
    ensures { IfOk result (λ engine. engine ≡ begun_engine interp key.items engine.publishing.stamp) }
{
    let sink = ListSink::new(alloc);
    let mut engine = Engine::new(Side::Shell, interp, sink, ReplayStamp, Signer::new(key));
    match engine.start(alloc) {
        Ok(()) => Ok(engine),
        Err(fault) => {
            drop(engine);
            Err(ReplayFault::Engine(fault))
        }
    }
}

/// What a session came to that its peer ended.
#[derive(Drop)]
struct Outcome {
    /// How it ended.
    ending: PrintedEnd,
    /// All that was published.
    events: Vec<Event<Vec<u8>>>,
}

/// What a session that ended so came to, if its peer ended it and no idle is owed in the end; else its fault.
fn outcome_of<I: Interpreter + Drop>(
    end: Ending<SessionEnd>,
    engine: ReplayEngine<I>,
) -> Result<Outcome, ReplayFault>
    ensures ending { IfOk result (λ outcome. ending_words outcome.ending ≡ ending_text end) }
    ensures settled { OnOk result (SessionIsSettled end) }
    ensures published { IfOk result (λ outcome. map Some outcome.events.items ≡ all_items list_sink engine) }
{
    match settled(end) {
        Ok(ending) => match published(engine) {
            Ok(events) => Ok(Outcome { ending, events }),
            Err(fault) => Err(fault),
        },
        Err(fault) => {
            drop(engine);
            Err(fault)
        }
    }
}

/// The lines of a session, of what was written and what it came to.
fn outcome_lines(alloc: Global, shell: Vec<u8>, outcome: Outcome) -> Result<Vec<u8>, ReplayFault>
    ensures { IfOk result (λ lines. lines.items ≡ printed_lines shell.items
        (flat_map event_text outcome.events.items) (ending_words outcome.ending)) }
{
    let lines = session_lines(alloc, &shell, &outcome.events, outcome.ending);
    drop(shell);
    drop(outcome);
    match lines {
        Ok(lines) => Ok(lines),
        Err(AllocError) => Err(ReplayFault::Connection(ConnectionFault::Memory)),
    }
}

/// The printed ending of a session that its peer ended; else its fault.
fn settled(end: Ending<SessionEnd>) -> Result<PrintedEnd, ReplayFault>
    ensures { IfOk result (λ ending. (ending_words ending ≡ ending_text end) × SessionIsSettled end) }
{
    match end {
        Ending::Connection(ConnectionEnd::Eof) => Ok(PrintedEnd::Eof),
        Ending::Connection(ConnectionEnd::Wire(WireFault::OutOfMemory)) => {
            Err(ReplayFault::Connection(ConnectionFault::Memory))
        }
        Ending::Connection(ConnectionEnd::Wire(fault)) => Ok(PrintedEnd::Fault(fault)),
        Ending::Connection(ConnectionEnd::Failed(fault)) => Err(ReplayFault::Connection(fault)),
        Ending::Host(SessionEnd::Shutdown(_restart)) => Ok(PrintedEnd::Shutdown),
        Ending::Host(SessionEnd::Failed(fault)) => Err(ReplayFault::Engine(fault)),
    }
}

/// All that an engine published, if no idle is owed in the end.
fn published<I: Interpreter + Drop>(
    engine: ReplayEngine<I>,
) -> Result<Vec<Event<Vec<u8>>>, ReplayFault>
    ensures { IfOk result (λ events. map Some events.items ≡ all_items list_sink engine) }
{
    let end = engine.close();
    if end.owed() {
        drop(end);
        return Err(ReplayFault::Engine(EngineFault::Memory));
    }
    let parts = end.into_parts();
    let publishing = parts.publishing;
    let sink = publishing.sink;
    Ok(sink.into_items())
}

/// The lines of a session, of what was written, what was published and how it ended.
fn session_lines(
    alloc: Global,
    shell: &[u8],
    events: &[Event<Vec<u8>>],
    ending: PrintedEnd,
) -> Result<Vec<u8>, AllocError>
    ensures { IfOk result (λ lines. lines.items ≡ printed_lines shell.now (flat_map event_text events.now)
        (ending_words ending)) }
{
    let iopub = events_text(alloc, events)?;
    lines_text(alloc, shell, &iopub, ending)
}

/// The texts of published messages, one after the other.
fn events_text(alloc: Global, events: &[Event<Vec<u8>>]) -> Result<Vec<u8>, AllocError>
    ensures { IfOk result (λ octets. octets.items ≡ flat_map event_text events.now) }
{
    let mut octets = Vec::new(alloc);
    for event in events {
        append_event(alloc, event, &mut octets)?;
    }
    Ok(octets)
}

/// Adds the text of an event, if it is a message.
fn append_event(
    alloc: Global,
    event: &Event<Vec<u8>>,
    octets: &mut Vec<u8>,
) -> Result<(), AllocError>
    ensures { OnOk result (octets.new.items ≡ octets.old.items ++ event_text event.now) }
{
    match event {
        Event::Message(frames) => {
            // A message without frames has no text.
            if !frames.is_empty() && write_message(alloc, frames.as_slice(), octets).is_err() {
                return Err(AllocError);
            }
            Ok(())
        }
        Event::Attach(..)
        | Event::Subscribe(..)
        | Event::Cancel(..)
        | Event::Pong(..)
        | Event::Detach(_) => Ok(()),
    }
}
