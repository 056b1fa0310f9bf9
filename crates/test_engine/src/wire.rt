//! Sessions of an engine with a peer, from its greeting on.

use crate::device::{Devices, Drip, Jam};
use crate::engine::add_published;
use crate::message::MARKS;
use crate::setup::{Places, Setup};
use arith_shell::ShellArith;
use jmsg_envelope::Signer;
use kernel_engine::{Engine, EngineFault};
use kernel_session::{SessionEnd, session};
use percent_encoding::{percent_decode, percent_encode};
use std::alloc::{AllocError, Global};
use std::io;
use test_examples::{After, Refusing, Scarce};
use zmtp_connection::{ConnectionEnd, Ending};
use zmtp_wire::Counted;

/// What a session comes to.
#[derive(Drop)]
struct Visit {
    /// How it ends.
    end: String,
    /// What was written to the peer.
    written: Vec<u8>,
    /// What was published.
    sink: Refusing,
}

/// What sessions with a peer that sends the octets of these lines come to: one, and what is published, or those of each
/// place.
///
/// # Errors
///
/// Where memory was refused, or what was published is no message.
pub(crate) fn visited(alloc: Global, setup: Setup, lines: &[String]) -> io::Result<String> {
    let octets = octets_of(alloc, lines)?;
    let mut text = String::new(alloc);
    let visit = session_over(alloc, setup, setup.devices, octets.as_slice())?;
    match setup.places {
        Some(places) => tell_places(alloc, setup, places, octets.as_slice(), &visit, &mut text)?,
        None => tell_visit(alloc, setup, &visit, &mut text)?,
    }
    Ok(text)
}

/// Tells how a session ends, what was written and what was published.
fn tell_visit(alloc: Global, setup: Setup, visit: &Visit, text: &mut String) -> io::Result<()> {
    writeln!(text, "    ends by {}", visit.end.as_str())?;
    let written = percent_encode(visit.written.as_slice(), MARKS);
    writeln!(text, "    written {written}")?;
    add_published(alloc, setup.is_counted, visit.sink.items.as_slice(), text)
}

/// Tells what the sessions of each place come to; places in a row that come to the same share a line.
fn tell_places(
    alloc: Global,
    setup: Setup,
    places: Places,
    octets: &[u8],
    whole: &Visit,
    text: &mut String,
) -> io::Result<()> {
    let mut runs = Runs {
        first: places.first,
        answer: String::new(alloc),
    };
    for place in places.first..=places.last {
        let mut devices = setup.devices;
        devices.set(places.of.key(), place);
        let visit = session_over(alloc, setup, devices, octets)?;
        let answer = told(alloc, setup.is_counted, whole, &visit)?;
        runs.add(place, answer, text)?;
    }
    Ok(runs.end(places.last, text)?)
}

/// Places in a row that come to the same.
#[derive(Drop)]
struct Runs {
    /// The first of them.
    first: u64,
    /// What they come to, nothing where there is none yet.
    answer: String,
}

impl Runs {
    /// Adds a place, behind a line of those before it where they come to something else.
    fn add(&mut self, place: u64, answer: String, text: &mut String) -> Result<(), AllocError> {
        if self.answer != answer {
            if !self.answer.is_empty() {
                self.end(place.saturating_sub(1), text)?;
            }
            self.first = place;
            self.answer = answer;
        }
        Ok(())
    }

    /// Adds the line of the places up to a last one.
    fn end(&self, last: u64, text: &mut String) -> Result<(), AllocError> {
        let Runs { first, answer } = self;
        if *first == last {
            writeln!(text, "    {last}: {answer}")
        } else {
            writeln!(text, "    {first}..{last}: {answer}")
        }
    }
}

/// What a session comes to, beside one that was not disturbed: how it ends, and how much of what that wrote and
/// published.
fn told(
    alloc: Global,
    is_counted: bool,
    whole: &Visit,
    visit: &Visit,
) -> Result<String, AllocError> {
    let (end, count) = (visit.end.as_str(), visit.written.len());
    let part = if !whole.written.starts_with(visit.written.as_slice()) {
        "what is not due"
    } else if whole.written.len() == count {
        "all"
    } else {
        "a beginning"
    };
    let published = visit.sink.items.len();
    if is_counted {
        format!(in alloc; "{end}, wrote {part} in {count} octets, published {published}")
    } else {
        format!(in alloc; "{end}, wrote {part}")
    }
}

/// The octets that lines spell, joined.
fn octets_of(alloc: Global, lines: &[String]) -> Result<Vec<u8>, AllocError> {
    let mut octets = Vec::new(alloc);
    for line in lines {
        percent_decode(line.as_bytes()).append_to(&mut octets)?;
    }
    Ok(octets)
}

/// Has an engine serve a peer over devices: what it comes to.
fn session_over(alloc: Global, setup: Setup, devices: Devices, octets: &[u8]) -> io::Result<Visit> {
    let sink = Refusing::new(alloc, setup.first, setup.last);
    let signer = Signer::new(Vec::new(alloc));
    let stamp = Scarce::new(setup.call);
    let mut engine = Engine::new(setup.side, ShellArith::new(alloc), sink, stamp, signer);
    let mut reader = Counted::new(Drip::new(octets, devices));
    let mut writer = Counted::new(Jam::new(alloc, devices));
    let stop = After::new(setup.noes);
    let ending = session(
        alloc,
        &mut reader,
        &mut writer,
        &mut engine,
        &stop,
        devices.turns,
    );
    let word = word_of(alloc, &ending);
    drop(ending);
    let publishing = engine.close().into_parts().publishing;
    let (sink, written) = (publishing.sink, writer.into_inner().octets);
    Ok(Visit {
        end: word?,
        written,
        sink,
    })
}

/// How a session ended, in a word; where a request comes back, its type.
fn word_of(alloc: Global, end: &Ending<SessionEnd>) -> Result<String, AllocError> {
    match end {
        Ending::Connection(ConnectionEnd::Eof) => String::from_str(alloc, "eof"),
        Ending::Connection(ConnectionEnd::Wire(fault)) => fault_of(alloc, fault.number()),
        Ending::Connection(ConnectionEnd::Failed(fault)) => fault_of(alloc, fault.number()),
        Ending::Host(SessionEnd::Shutdown(restart)) => format!(in alloc; "shutdown {restart}"),
        Ending::Host(SessionEnd::Failed(EngineFault::OwedIdle(request))) => {
            format!(in alloc; "{} comes back", request.msg_type.as_str())
        }
        Ending::Host(SessionEnd::Failed(fault)) => fault_of(alloc, fault.number()),
    }
}

/// The number of a fault, in words.
fn fault_of(alloc: Global, number: u8) -> Result<String, AllocError> {
    format!(in alloc; "fault {number}")
}
