//! Connections of IOPub: subscribers, who are written to by the relay alone.

use crossbeam_channel::{SendError, Sender};
use iopub_event::Event;
use iopub_relay::{Topics, door_event};
use kernel_jobs::Note;
use kernel_limits::limits::READS;
use kernel_limits::{TopicCount, is_told, may_ask};
use kernel_sockets::{Gauge, Guest, Reader, Server, Socket, SocketWriter, hear_out};
use listed::Octets;
use std::alloc::{AllocError, Global};
use std::sync::{Arc, MutexGuard, Wait};
use std::thread;
use std::time::{Clock, Duration};
use zmtp_connection::{Intake, OpenPeer, shake};
use zmtp_wire::{Counted, SocketType, Traffic};

/// For how many milliseconds a reader waits, before it looks again whether few events wait for the
/// relay; and at most, before it looks whether the relay has let go of a subscriber that left.
const TURN_LOOK: u64 = 20;

/// What a subscriber's messages are written to.
pub type Writer<R> = SocketWriter<R>;

/// The inbox of subscriptions.
pub type SubscriptionsInbox<R> = Sender<Note<Event<Writer<R>>>>;

/// What becomes of an event of a subscriber.
enum Asks {
    /// The relay is told of it.
    Something,
    /// The relay needn't know of it.
    Nothing,
    /// The subscriber asks for more than it may have.
    TooMuch,
}

/// The topics that a subscriber asked for, and how many they are.
#[derive(Drop)]
struct Asked {
    /// Where they take their memory.
    alloc: Global,
    /// The topics.
    topics: Topics,
    /// How many they are.
    count: TopicCount,
    /// What all share.
    server: Arc<Server, Global>,
}

impl Asked {
    /// Keeps what an event asks for, or gives it up, and answers what becomes of it.
    ///
    /// # Errors
    ///
    /// If memory is refused.
    fn note<W, R: Wait>(&mut self, rt: &R, event: &Event<W>) -> Result<Asks, AllocError> {
        match event {
            Event::Subscribe(_, topic) => self.add(rt, topic.as_slice()),
            Event::Cancel(_, topic) => Ok(self.take_out(rt, topic.as_slice())),
            Event::Message(_) | Event::Attach(..) | Event::Pong(..) | Event::Detach(_) => {
                Ok(Asks::Something)
            }
        }
    }

    /// Keeps a topic, if there is room for it.
    ///
    /// # Errors
    ///
    /// If memory is refused.
    fn add<R: Wait>(&mut self, rt: &R, topic: &[u8]) -> Result<Asks, AllocError> {
        if !self.is_counted(rt, topic.len()) {
            return Ok(Asks::TooMuch);
        }
        let kept = topic.to_vec(self.alloc)?;
        self.topics.add(Octets::new(kept))?;
        Ok(asks_for(topic))
    }

    /// Counts a topic of so many octets, and answers whether there is room for it.
    fn is_counted<R: Wait>(&mut self, rt: &R, octets: usize) -> bool {
        let before = self.count.excess();
        if !self.count.add(octets) {
            return false;
        }
        let more = self.count.excess().saturating_sub(before);
        let is_room = self.server.hold_topics(rt, more);
        if !is_room {
            self.count.remove(octets);
        }
        is_room
    }

    /// Gives a topic up, if it is held.
    fn take_out<R: Wait>(&mut self, rt: &R, topic: &[u8]) -> Asks {
        if !self.topics.has(topic) {
            return Asks::Nothing;
        }
        self.topics.take_out(topic);
        let before = self.count.excess();
        self.count.remove(topic.len());
        self.server
            .free_topics(rt, before.saturating_sub(self.count.excess()));
        asks_for(topic)
    }

    /// Nothing is held any more.
    fn give_back<R: Wait>(&self, rt: &R) {
        self.server.free_topics(rt, self.count.excess());
    }
}

/// Whether the relay is told of a topic.
fn asks_for(topic: &[u8]) -> Asks {
    if is_told(topic.len()) {
        Asks::Something
    } else {
        Asks::Nothing
    }
}

/// Where a subscriber's subscriptions and PINGs go as events. All else that it sends is dropped.
#[derive(Drop)]
struct Subscriptions<R: Wait + Clock + Drop> {
    /// The handle to wait by.
    rt: R,
    /// Where topics take their memory.
    alloc: Global,
    /// The subscriber's number.
    id: u64,
    /// The inbox of subscriptions.
    inbox: SubscriptionsInbox<R>,
    /// What it asked for.
    asked: Asked,
    /// What the connection has unfinished.
    gauge: Arc<Gauge, Global>,
    /// The connection's socket.
    socket: Socket,
}

impl<R: Wait + Clock + Drop> Intake for Subscriptions<R> {
    ghost use Rattle.std.specs.Prelude.{⊤, None, []};

    ghost takes = { λ _ _ _ _. ⊤ };

    ghost told = { λ _. None };

    ghost names = { λ _. [] };

    fn note_unfinished(&self, octets: usize) {
        self.gauge.note(&self.rt, octets);
    }

    fn put(&mut self, traffic: Traffic) -> Result<bool, AllocError> {
        let event = door_event(self.alloc, self.id, &traffic);
        drop(traffic);
        self.gauge.finish(&self.rt);
        match event {
            Ok(Some(event)) => self.ask(event),
            Ok(None) => Ok(true),
            Err(AllocError) => Err(AllocError),
        }
    }
}

impl<R: Wait + Clock + Drop> Subscriptions<R> {
    /// Tells the worker of subscriptions what the subscriber asks for, if it may, and answers whether that went well.
    ///
    /// # Errors
    ///
    /// If memory is refused.
    fn ask(&mut self, event: Event<Writer<R>>) -> Result<bool, AllocError> {
        let noted = self.asked.note(&self.rt, &event);
        match noted {
            Ok(Asks::Something) => self.tell_in_turn(event),
            Ok(Asks::Nothing) => {
                drop(event);
                Ok(true)
            }
            Ok(Asks::TooMuch) => {
                drop(event);
                Ok(false)
            }
            Err(AllocError) => {
                drop(event);
                Err(AllocError)
            }
        }
    }

    /// Tells the worker of subscriptions an event once few others wait for it, and answers whether it is still there,
    /// and the peer, too.
    ///
    /// # Errors
    ///
    /// If memory is refused.
    fn tell_in_turn(&self, event: Event<Writer<R>>) -> Result<bool, AllocError> {
        match self.wait_its_turn() {
            Some(turn) => {
                let told = self.tell(event);
                drop(turn);
                told
            }
            None => {
                drop(event);
                Ok(false)
            }
        }
    }

    /// Waits until few events wait for the worker of subscriptions. As long as the turn is held that is so but for the
    /// holder's. None if the peer isn't there any more.
    fn wait_its_turn(&self) -> Option<MutexGuard<'_, ()>> {
        match self.turn() {
            Some(turn) => Some(turn),
            None => self.wait_for_turn(),
        }
    }

    /// Waits until few events wait for the worker of subscriptions, of which there were many. None if the peer isn't
    /// there any more.
    fn wait_for_turn(&self) -> Option<MutexGuard<'_, ()>> {
        for _ in self.rt.forever() {
            thread::sleep(&self.rt, Duration::from_millis(TURN_LOOK));
            if self.socket.is_ended() || self.socket.has_hung_up() {
                return None;
            }
            let turn = self.turn();
            if turn.is_some() {
                self.gauge.resume(&self.rt);
                return turn;
            }
            drop(turn);
        }
        unreachable!()
    }

    /// What the relay writes to for a newcomer, made once it has its turn, under which writers are
    /// counted; or nothing, if something is wanting. None if the peer isn't there any more.
    fn open(&self, alloc: Global, guest: &Guest) -> Option<Option<Writer<R>>>
    where
        R: Copy,
    {
        let turn = self.wait_its_turn()?;
        guest.open(&self.rt, usize::MAX);
        let writer = writer_of(self.rt, alloc, guest);
        drop(turn);
        Some(writer)
    }

    /// The turn, if few events wait for the worker of subscriptions, and few writers for the relay.
    fn turn(&self) -> Option<MutexGuard<'_, ()>> {
        let turn = self.asked.server.turn().lock(&self.rt);
        if may_ask(self.inbox.len()) && self.asked.server.has_room() {
            return Some(turn);
        }
        drop(turn);
        None
    }

    /// Tells the worker of subscriptions an event, and answers whether it is still there.
    ///
    /// # Errors
    ///
    /// If memory is refused.
    fn tell(&self, event: Event<Writer<R>>) -> Result<bool, AllocError> {
        match self.inbox.send(&self.rt, Note::Item(event)) {
            Ok(()) => Ok(true),
            Err(SendError::Disconnected(note)) => {
                drop(note);
                Ok(false)
            }
            Err(SendError::OutOfMemory(note)) => {
                drop(note);
                Err(AllocError)
            }
        }
    }

    /// Tells the worker of subscriptions that the subscriber came, and answers whether both are still there.
    fn attach(&self, writer: Writer<R>) -> bool {
        let event = Event::Attach(self.id, writer);
        matches!(self.tell_in_turn(event), Ok(true))
    }

    /// Tells the worker of subscriptions that the subscriber left. If memory is refused it is
    /// tried again; if it is gone nothing is to be done.
    fn detach(&self) {
        for _ in self.rt.forever() {
            match self.tell(Event::Detach(self.id)) {
                Ok(_) => return,
                Err(AllocError) => thread::yield_now(),
            }
        }
        unreachable!()
    }
}

/// Serves a subscriber as a PUB. It shakes hands with it, and tells the worker of subscriptions that it
/// came, what it asks for and that it left. The relay writes to it meanwhile. Returns after the
/// subscriber's octets ended or were refused, and the relay has let go of it, or its socket was shut
/// down.
pub(crate) fn serve_subscriber<R>(rt: R, alloc: Global, guest: &Guest, inbox: SubscriptionsInbox<R>)
where
    R: Wait + Clock + Copy + Drop,
{
    let Ok((mut reader, mut writer)) = guest.halves(rt, alloc) else {
        drop(inbox);
        return;
    };
    match shake(alloc, &mut reader, &mut writer, SocketType::Pub, READS) {
        Ok(peer) => {
            drop(writer);
            serve_open(rt, alloc, guest, inbox, reader, peer);
        }
        Err(end) => {
            drop(end);
            drop(reader);
            drop(writer);
            drop(inbox);
        }
    }
}

/// Serves a subscriber with whom hands were shaken.
fn serve_open<R>(
    rt: R,
    alloc: Global,
    guest: &Guest,
    inbox: SubscriptionsInbox<R>,
    reader: Counted<Reader<R>>,
    peer: OpenPeer,
)
where
    R: Wait + Clock + Copy + Drop,
{
    let Some(subscriptions) = subscriptions_of(rt, alloc, guest, inbox) else {
        drop(reader);
        drop(peer);
        return;
    };
    // Until it has its turn a newcomer may have its place: who comes again and again fills nothing.
    let Some(writer) = subscriptions.open(alloc, guest) else {
        drop(reader);
        drop(peer);
        drop(subscriptions);
        return;
    };
    match writer {
        Some(writer) => {
            hear_subscriber(subscriptions, writer, reader, peer);
            guest.peer_left(&rt);
            wait_until_shut(&rt, &guest.socket);
        }
        None => {
            drop(reader);
            drop(peer);
            drop(subscriptions);
        }
    }
}

/// Waits until the socket is shut down: the relay has let go of its writer, or the last owner of the
/// inbox has, or a newcomer has its place.
fn wait_until_shut<R: Wait + Clock>(rt: &R, socket: &Socket) {
    let mut nap = 1;
    for _ in rt.forever() {
        if socket.is_shut() {
            break;
        }
        thread::sleep(rt, Duration::from_millis(nap));
        nap = nap.saturating_mul(2).min(TURN_LOOK);
    }
}

/// What the relay writes to for a subscriber. None if no memory is left, or something has too many
/// owners.
fn writer_of<R: Wait + Clock + Drop>(rt: R, alloc: Global, guest: &Guest) -> Option<Writer<R>> {
    let Ok(socket) = guest.socket.try_clone() else {
        return None;
    };
    match Arc::try_clone(&guest.server) {
        Ok(server) => SocketWriter::new(rt, alloc, server, socket).ok(),
        Err(AllocError) => {
            drop(socket);
            None
        }
    }
}

/// Where the subscriptions of a subscriber go. None if something has too many owners.
fn subscriptions_of<R: Wait + Clock + Drop>(
    rt: R,
    alloc: Global,
    guest: &Guest,
    inbox: SubscriptionsInbox<R>,
) -> Option<Subscriptions<R>> {
    let (Ok(gauge), Ok(server), Ok(socket)) = (
        Arc::try_clone(&guest.gauge),
        Arc::try_clone(&guest.server),
        guest.socket.try_clone(),
    ) else {
        drop(inbox);
        return None;
    };
    Some(Subscriptions {
        rt,
        alloc,
        id: guest.id,
        inbox,
        asked: Asked {
            alloc,
            topics: Topics::new(alloc),
            count: TopicCount::new(),
            server,
        },
        gauge,
        socket,
    })
}

/// Says that a subscriber came, hears it, and says that it left. Nobody waits for it from then on.
fn hear_subscriber<R: Wait + Clock + Drop>(
    mut subscriptions: Subscriptions<R>,
    writer: Writer<R>,
    mut reader: Counted<Reader<R>>,
    peer: OpenPeer,
) {
    if subscriptions.attach(writer) {
        hear_out(subscriptions.alloc, &mut reader, peer, &mut subscriptions);
        subscriptions.socket.end_reads();
        subscriptions.detach();
    } else {
        drop(peer);
    }
    subscriptions.asked.give_back(&subscriptions.rt);
    drop(reader);
    drop(subscriptions);
}
