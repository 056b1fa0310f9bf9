//! What the requests of a block come to.

use crate::message::add_message;
use crate::setup::{Language, Setup};
use crate::wire::visited;
use arith_shell::ShellArith;
use interp_core::Interpreter;
use iopub_event::Event;
use jmsg_envelope::{Envelope, Signer};
use kernel_engine::{Engine, EngineEnd, EngineFault, Handled};
use std::alloc::{AllocError, Global};
use std::io;
use test_examples::{After, Letters, Refusing, Scarce, request};

/// What the lines of a block come to, and what is published.
///
/// # Errors
///
/// Where a line says nothing, or memory was refused.
pub(crate) fn answers(alloc: Global, setup: Setup, requests: &[String]) -> io::Result<String> {
    match setup.language {
        Language::Arith if setup.is_wire => visited(alloc, setup, requests),
        Language::Arith => over(alloc, setup, ShellArith::new(alloc), requests),
        Language::Letters => over(alloc, setup, Letters { is_wanting: false }, requests),
        Language::Wanting => over(alloc, setup, Letters { is_wanting: true }, requests),
    }
}

/// The same over this interpreter.
fn over<I: Interpreter + Drop>(
    alloc: Global,
    setup: Setup,
    interp: I,
    requests: &[String],
) -> io::Result<String>
where
    I::Cell: Drop,
{
    let sink = Refusing::new(alloc, setup.first, setup.last);
    let signer = Signer::new(Vec::new(alloc));
    let mut engine = Engine::new(setup.side, interp, sink, Scarce::new(setup.call), signer);
    let mut text = String::new(alloc);
    let asked = ask_all(alloc, &mut engine, setup.noes, requests, &mut text);
    let ended = add_end(alloc, engine.close(), setup.is_counted, &mut text);
    match asked.and(ended) {
        Ok(()) => Ok(text),
        Err(error) => {
            drop(text);
            Err(error)
        }
    }
}

/// Has an engine do what each line says, and adds what it comes to.
fn ask_all<I: Interpreter>(
    alloc: Global,
    engine: &mut Engine<I, Refusing, Scarce, ()>,
    noes: u64,
    requests: &[String],
    text: &mut String,
) -> io::Result<()> {
    for line in requests {
        ask(alloc, engine, noes, line.as_str(), text)?;
    }
    Ok(())
}

/// Adds what an engine leaves: whether an idle is owed, and what was published.
fn add_end<I: Interpreter + Drop>(
    alloc: Global,
    end: EngineEnd<I, Refusing, Scarce, ()>,
    is_counted: bool,
    text: &mut String,
) -> io::Result<()> {
    let is_owed = end.owed();
    let parts = end.into_parts();
    let items = parts.publishing.sink.items.as_slice();
    let added = add_left(alloc, is_owed, is_counted, items, text);
    drop(parts);
    added
}

/// Adds whether an idle is owed, and what was published.
fn add_left(
    alloc: Global,
    is_owed: bool,
    is_counted: bool,
    items: &[Event<()>],
    text: &mut String,
) -> io::Result<()> {
    if is_owed {
        text.push_str("    an idle is owed\n")?;
    }
    add_published(alloc, is_counted, items, text)
}

/// Has an engine do what a line says, once more where it comes back, and adds what it comes to.
fn ask<I: Interpreter>(
    alloc: Global,
    engine: &mut Engine<I, Refusing, Scarce, ()>,
    noes: u64,
    line: &str,
    text: &mut String,
) -> io::Result<()> {
    if line == "start" {
        let started = engine.start(alloc);
        return Ok(add_start(started, text)?);
    }
    let asked = read_request(alloc, line)?;
    let Some(back) = handle(alloc, engine, noes, asked, text)? else {
        return Ok(());
    };
    drop(handle(alloc, engine, noes, back, text)?);
    Ok(())
}

/// The request of a line: its id, its type and its content.
fn read_request(alloc: Global, line: &str) -> io::Result<Envelope> {
    let Some((id, behind)) = line.split_once(' ') else {
        return Err(io::Error::other("no request"));
    };
    let (kind, content) = behind.split_once(' ').unwrap_or((behind, ""));
    request(alloc, id, kind, content)
}

/// Has an engine handle a request, adds what it comes to, and answers the request where it comes back.
fn handle<I: Interpreter>(
    alloc: Global,
    engine: &mut Engine<I, Refusing, Scarce, ()>,
    noes: u64,
    asked: Envelope,
    text: &mut String,
) -> io::Result<Option<Envelope>> {
    let stop = After::new(noes);
    let handled = engine.handle(alloc, asked, &stop);
    drop(stop);
    add_handled(alloc, handled, text)
}

/// Adds whether an engine started.
fn add_start(started: Result<(), EngineFault>, text: &mut String) -> Result<(), AllocError> {
    match started {
        Ok(()) => text.push_str("    started\n"),
        Err(fault) => add_fault(fault, text),
    }
}

/// Adds the number of a fault.
fn add_fault(fault: EngineFault, text: &mut String) -> Result<(), AllocError> {
    let number = fault.number();
    drop(fault);
    writeln!(text, "    fault {number}")
}

/// Adds that a request comes back.
fn add_back(back: &Envelope, text: &mut String) -> Result<(), AllocError> {
    let id = back.msg_id.as_str();
    writeln!(text, "    {id} comes back")
}

/// Adds what a request comes to, and answers the request where it comes back.
fn add_handled(
    alloc: Global,
    handled: Result<Handled, EngineFault>,
    text: &mut String,
) -> io::Result<Option<Envelope>> {
    match handled {
        Ok(handled) => {
            let added = add_reply(alloc, &handled, text);
            drop(handled);
            added?;
            Ok(None)
        }
        Err(EngineFault::OwedIdle(back)) => match add_back(&back, text) {
            Ok(()) => Ok(Some(back)),
            Err(AllocError) => {
                drop(back);
                Err(io::Error::from(AllocError))
            }
        },
        Err(fault) => {
            add_fault(fault, text)?;
            Ok(None)
        }
    }
}

/// Adds a reply, and what the kernel is to do then.
fn add_reply(alloc: Global, handled: &Handled, text: &mut String) -> io::Result<()> {
    text.push_str("   ")?;
    match &handled.reply {
        Some(frames) => add_message(alloc, text, frames)?,
        None => text.push_str(" no reply")?,
    }
    Ok(add_marks(handled, text)?)
}

/// Adds what the kernel is to do behind a reply, and ends its line.
fn add_marks(handled: &Handled, text: &mut String) -> Result<(), AllocError> {
    let end = if handled.end { " end" } else { "" };
    let restart = if handled.restart { " restart" } else { "" };
    let interrupt = if handled.interrupt { " interrupt" } else { "" };
    writeln!(text, "{end}{restart}{interrupt}")
}

/// Adds what was published, or how many messages that is.
pub(crate) fn add_published(
    alloc: Global,
    is_counted: bool,
    items: &[Event<()>],
    text: &mut String,
) -> io::Result<()> {
    if is_counted {
        let count = items.len();
        writeln!(text, "    published {count}")?;
        return Ok(());
    }
    for item in items {
        let Event::Message(frames) = item else {
            return Err(io::Error::other("no message"));
        };
        text.push_str("   ")?;
        add_message(alloc, text, frames)?;
        text.push('\n')?;
    }
    Ok(())
}
