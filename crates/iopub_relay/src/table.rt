//! The subscribers of a relay.

ghost use Rattle.std.specs.Prelude.{◌≡◌, [], length, IfOk, IfErr, IfSome};
ghost use Rattle.listed.specs.Bodies.{bodies};
ghost use Rattle.zmtp_wire.specs.Frame.{text};
ghost use Rattle.iopub_relay.specs.Relay.{is_failed};
ghost use Rattle.iopub_relay.specs.Rows.{AreRising, IsAt, IsFree, subscriber_at};
ghost use Rattle.iopub_relay.specs.Table.{ServesEvent, AllReceive, AreAlike};

use crate::buffered::{Buffered, Rest};
use crate::subscriber::{Standing, Subscriber};
use crate::topics::Topics;
use iopub_event::Event;
use listed::{Frames, Octets};
use std::alloc::Global;
use std::marker::Model;
use zmtp_wire::{Outlet, write_message};

/// What came of an event.
#[derive(Clone, Copy, Debug)]
pub(crate) enum EventOutcome {
    /// What the event asks for.
    Done,
    /// There was no memory for a topic of this subscriber, which has failed so.
    NoTopic(u64),
    /// There was no memory for this subscriber: it didn't come, and its writer was dropped.
    NoRoom(u64),
}

/// The subscribers of a relay, by rising ids. A contract sees the list of them.
#[derive(Drop)]
pub(crate) struct Table<W> {
    /// The subscribers.
    rows: Vec<Subscriber<W>>,
    /// What gives the memory.
    alloc: Global,
}

impl<W> Model for Table<W> {
    ghost use Rattle.std.specs.Prelude.{List};
    ghost use Rattle.iopub_relay.specs.declared.subscriber.Subscriber.{Subscriber};
    ghost use Rattle.iopub_relay.specs.Rows.{AreRising};

    ghost Value = { List (Subscriber W) };

    ghost view = { λ table. table.rows.items };

    ghost invariant = { λ table. AreRising table.rows.items };
}

impl<W> Table<W> {
    /// No subscribers.
    pub(crate) fn new(alloc: Global) -> Table<W>
        ensures { result ≡ [] }
    {
        Table {
            rows: Vec::new(alloc),
            alloc,
        }
    }
}

impl<W: Outlet + Drop> Table<W> {
    /// Serves an event.
    pub(crate) fn serve(&mut self, event: Event<W>) -> EventOutcome
        ensures { ServesEvent W.outflow self.old self.new event result }
    {
        match event {
            Event::Message(frames) => self.message(frames),
            Event::Attach(id, writer) => self.attach(id, writer),
            Event::Subscribe(id, topic) => self.subscribe(id, topic),
            Event::Cancel(id, topic) => self.cancel(id, topic),
            Event::Pong(id, context) => self.pong(id, context),
            Event::Detach(id) => self.detach(id),
        }
    }

    /// Serves a message: each subscriber with a topic that its first frame begins with gets its text. If there is
    /// memory, that is built once for all, also if nobody gets it.
    pub(crate) fn message(&mut self, frames: Frames) -> EventOutcome
        ensures { ServesEvent W.outflow self.old self.new (Event.Message frames) result }
    {
        let frames = frames.as_slice();
        let built = text_of(self.alloc, frames);
        let octets = match &built {
            Some(octets) => Some(octets.as_slice()),
            None => None,
        };
        receive_all(&mut self.rows, frames, octets);
        EventOutcome::Done
    }

    /// Serves that a subscriber comes. If it is there already its new writer is dropped.
    pub(crate) fn attach(&mut self, id: u64, writer: W) -> EventOutcome
        ensures { ServesEvent W.outflow self.old self.new (Event.Attach id writer) result }
    {
        let Err(place) = place_of(&self.rows, id) else {
            return EventOutcome::Done;
        };
        let row = Subscriber {
            id,
            writer,
            topics: Topics::new(self.alloc),
            standing: Standing::Served,
        };
        if let Err(_) = self.rows.insert(place, row) {
            return EventOutcome::NoRoom(id);
        }
        EventOutcome::Done
    }

    /// Serves that a subscriber subscribes to a topic.
    pub(crate) fn subscribe(&mut self, id: u64, topic: Octets) -> EventOutcome
        ensures { ServesEvent W.outflow self.old self.new (Event.Subscribe id topic) result }
    {
        let Ok(place) = place_of(&self.rows, id) else {
            return EventOutcome::Done;
        };
        let row = &mut self.rows[place];
        let Standing::Served = row.standing else {
            return EventOutcome::Done;
        };
        if row.topics.add(topic).is_err() {
            row.standing = Standing::Starved;
            return EventOutcome::NoTopic(id);
        }
        EventOutcome::Done
    }

    /// Serves that a subscriber gives a topic up.
    pub(crate) fn cancel(&mut self, id: u64, topic: Octets) -> EventOutcome
        ensures { ServesEvent W.outflow self.old self.new (Event.Cancel id topic) result }
    {
        let Ok(place) = place_of(&self.rows, id) else {
            return EventOutcome::Done;
        };
        let row = &mut self.rows[place];
        let Standing::Served = row.standing else {
            return EventOutcome::Done;
        };
        row.topics.take_out(topic.as_slice());
        EventOutcome::Done
    }

    /// Serves that a subscriber asks for a PONG: it gets one, unless its context is too long. Needs no memory.
    pub(crate) fn pong(&mut self, id: u64, context: Octets) -> EventOutcome
        ensures { ServesEvent W.outflow self.old self.new (Event.Pong id context) result }
    {
        let Ok(place) = place_of(&self.rows, id) else {
            return EventOutcome::Done;
        };
        let row = &mut self.rows[place];
        row.pong(context.as_slice());
        EventOutcome::Done
    }

    /// Serves that a subscriber leaves.
    pub(crate) fn detach(&mut self, id: u64) -> EventOutcome
        ensures { ServesEvent W.outflow self.old self.new (Event.Detach id) result }
    {
        if let Ok(place) = place_of(&self.rows, id) {
            self.rows.remove(place);
        }
        EventOutcome::Done
    }
}

impl<W> Table<W> {
    /// The subscribers, by rising ids.
    pub(crate) fn into_rows(self) -> Vec<Subscriber<W>>
        ensures rows { result.items ≡ self }
        ensures rising { AreRising result.items }
    {
        self.rows
    }

    /// What is true of every table: the ids of its subscribers rise. Does nothing.
    pub(crate) fn is_rising(&self)
        ensures { AreRising self.now }
    {
        let _ = &self.rows;
    }

    /// How many subscribers there are.
    pub(crate) fn len(&self) -> usize
        ensures { result ≡ length self.now }
    {
        self.rows.len()
    }

    /// What gives the memory.
    pub(crate) fn alloc(&self) -> Global {
        self.alloc
    }

    /// Whether a subscriber is there and has failed.
    pub(crate) fn failed(&self, id: u64) -> bool
        ensures { result ≡ is_failed (subscriber_at id self.now) }
    {
        match place_of(&self.rows, id) {
            Ok(place) => self.rows[place].has_failed(),
            Err(_) => false,
        }
    }
}

impl<W: Buffered> Table<W> {
    /// Has each writer pass on what it keeps, and answers what is kept still.
    pub(crate) fn flush(&mut self) -> Rest
        ensures { AreAlike W.outflow self.old self.new }
    {
        flush_all(&mut self.rows)
    }

    /// Whether so much is kept for a subscriber that hasn't failed that it is waited for.
    pub(crate) fn is_crowded(&self) -> bool {
        self.rows.iter().any(|row| row.is_crowded())
    }
}

/// Has each subscriber's writer pass on what it keeps, and answers what is kept still.
fn flush_all<W: Buffered>(subscribers: &mut Vec<Subscriber<W>>) -> Rest
    ensures { AreAlike W.outflow subscribers.old.items subscribers.new.items }
{
    let mut keeps = Rest::Nothing;
    for place in 0..subscribers.len() {
        let row = &mut subscribers[place];
        let its = row.flush();
        keeps = keeps.and(its);
    }
    keeps
}

/// The text of a message, if it has a frame and there is memory for it.
fn text_of(alloc: Global, frames: &[Vec<u8>]) -> Option<Vec<u8>>
    ensures { IfSome result (λ octets. octets.items ≡ text (bodies frames.now)) }
{
    let mut octets = Vec::new(alloc);
    if frames.is_empty() || write_message(alloc, frames, &mut octets).is_err() {
        return None;
    }
    Some(octets)
}

/// Has each subscriber receive a message.
fn receive_all<W: Outlet>(rows: &mut Vec<Subscriber<W>>, frames: &[Vec<u8>], octets: Option<&[u8]>)
    requires { IfSome octets (λ octets. octets.now ≡ text (bodies frames.now)) }
    ensures { AllReceive W.outflow (bodies frames.now) rows.old.items rows.new.items }
{
    for place in 0..rows.len() {
        let row = &mut rows[place];
        row.receive(frames, octets);
    }
}

/// The place of a subscriber, or the one at which it belongs.
fn place_of<W>(rows: &[Subscriber<W>], id: u64) -> Result<usize, usize>
    requires { AreRising rows.now }
    ensures there { IfOk result (λ place. IsAt id place rows.now) }
    ensures absent { IfErr result (λ place. IsFree id place rows.now) }
{
    let place = rows.partition_point(|row| row.id < id);
    match rows.get(place) {
        Some(row) if row.id == id => Ok(place),
        _ => Err(place),
    }
}
