//! A subscriber of a relay.

ghost use Rattle.std.specs.Prelude.{◌≡◌, IfSome};
ghost use Rattle.listed.specs.Bodies.{bodies};
ghost use Rattle.zmtp_wire.specs.Frame.{text};
ghost use Rattle.zmtp_wire.specs.Device.{AddsAll};
ghost use Rattle.zmtp_wire.specs.Ping.{pong_if_short};
ghost use Rattle.iopub_relay.specs.Relay.{has_failed};
ghost use Rattle.iopub_relay.specs.Table.{IsAlike, Receives, PongsBy};

use crate::buffered::{Buffered, Rest};
use crate::topics::Topics;
use zmtp_wire::{CONTEXT_LIMIT, Outlet, WriteFailed, pong_text, write_all, write_frames};

/// How a subscriber stands.
#[derive(Clone, Copy, Debug, PartialEq, Eq)]
pub(crate) enum Standing {
    /// It is served.
    Served,
    /// A write failed or took nothing: it gets nothing more.
    Broken,
    /// There was no memory for a topic: it gets nothing more.
    Starved,
}

/// A subscriber: what its octets are written to, and the topics that it holds.
#[derive(Drop)]
pub(crate) struct Subscriber<W> {
    /// Which one it is.
    pub(crate) id: u64,
    /// What its octets are written to.
    pub(crate) writer: W,
    /// The topics that it holds. They stay as they are once it has failed.
    pub(crate) topics: Topics,
    /// How it stands.
    pub(crate) standing: Standing,
}

impl<W> Subscriber<W> {
    /// Whether it has failed.
    pub(crate) fn has_failed(&self) -> bool
        ensures { result ≡ has_failed self.now.standing }
    {
        match self.standing {
            Standing::Served => false,
            Standing::Broken | Standing::Starved => true,
        }
    }
}

impl<W: Outlet> Subscriber<W> {
    /// Receives a message: gets its text, if one of its topics is a beginning of the first frame.
    pub(crate) fn receive(&mut self, frames: &[Vec<u8>], octets: Option<&[u8]>)
        requires { IfSome octets (λ octets. octets.now ≡ text (bodies frames.now)) }
        ensures { Receives W.outflow (bodies frames.now) self.old self.new }
    {
        let Standing::Served = self.standing else {
            return;
        };
        let Some(first) = frames.first() else {
            return;
        };
        if !self.topics.begin_in(first) {
            return;
        }
        if write_text(&mut self.writer, frames, octets).is_err() {
            self.standing = Standing::Broken;
        }
    }

    /// Receives the PONG that it asks for by a PING of this context.
    pub(crate) fn pong(&mut self, context: &[u8])
        ensures { PongsBy W.outflow self.old.standing context.now self.old self.new }
    {
        match self.standing {
            Standing::Served => {}
            Standing::Broken | Standing::Starved => return,
        }
        match write_pong(&mut self.writer, context) {
            Ok(()) => {}
            Err(WriteFailed) => self.standing = Standing::Broken,
        }
    }
}

impl<W: Buffered> Subscriber<W> {
    /// Has its writer pass on what that keeps, and answers what is kept still.
    pub(crate) fn flush(&mut self) -> Rest
        ensures { IsAlike W.outflow self.old self.new }
    {
        self.writer.flush()
    }

    /// Whether it hasn't failed, and so much is kept for it that it is waited for.
    pub(crate) fn is_crowded(&self) -> bool {
        !self.has_failed() && self.writer.is_crowded()
    }
}

/// Writes the PONG of a context, if that isn't too long for one.
fn write_pong<W: Outlet>(writer: &mut W, context: &[u8]) -> Result<(), WriteFailed>
    ensures { AddsAll (W.outflow writer.old) (W.outflow writer.new) result (pong_if_short context.now) }
{
    if context.len() > CONTEXT_LIMIT {
        return Ok(());
    }
    write_all(writer, pong_text(context).octets())
}

/// Writes the text of a message: as it was built, or frame by frame if it wasn't.
fn write_text<W: Outlet>(
    writer: &mut W,
    frames: &[Vec<u8>],
    octets: Option<&[u8]>,
) -> Result<(), WriteFailed>
    requires { IfSome octets (λ octets. octets.now ≡ text (bodies frames.now)) }
    ensures { AddsAll (W.outflow writer.old) (W.outflow writer.new) result (text (bodies frames.now)) }
{
    match octets {
        Some(octets) => write_all(writer, octets),
        None => write_frames(writer, frames),
    }
}
