//! A kernel that is shut down in order, its relay in a thread of its own.

ghost use Rattle.std.specs.Prelude.{◌≡◌, ◌<◌, ◌≤◌, [], IfOk, IfSome, length, vec_capacity};
ghost use Rattle.kernel_workers.specs.Starting.{IsOpened};
ghost use Rattle.test_kernel.specs.Ready.{AreOfOne, IsLast};

use crate::tests::expect_same;
use crate::tests::keeper::Keeper;
use arith_shell::ShellArith;
use crossbeam_channel::unbounded;
use crossbeam_utils::sync::Unparker;
use iopub_event::Event;
use iopub_queue::{Closed, Publish, Taker};
use iopub_relay::Relay;
use jmsg_envelope::{Envelope, Signer, Stamp, open_envelope};
use kernel_engine::{Done, Engine, EngineFault, Side, Stop};
use kernel_workers::{RelayEnd, RelayWorker, Shutdown, ShutdownEnd, Waking, shutdown_order};
use listed::{Frames, Octets};
use std::alloc::{AllocError, Global};
use std::process::Abort;
use std::sync::atomic::AtomicBool;
use std::sync::{Arc, Wait};
use std::test::Fail;
use std::thread::Threads;
use std::time::Clock;
use test_requests::{DATE, SHUTDOWN, both, due_text, frames_text, open_three, request_frames};

/// What handles the requests of a channel.
type KeptEngine<R> = Engine<ShellArith, Waking<Event<Keeper>, R>, FewDates, Keeper>;

/// Session `s`, ids `s1`, `s2` and so on, and one date, so many times; then there is no memory for it.
#[derive(Clone, Copy, Debug)]
struct FewDates(u64);

impl Stamp for FewDates {
    ghost use Rattle.std.specs.Prelude.{codes, true};
    ghost use Rattle.jmsg_envelope.specs.Stamp.{numbered, numbered-differ};

    ghost stamp = { record {
      meaning = λ _. record { session = codes "s"; label = codes "s" };
      id_text = numbered;
      is_date = λ _ _. true;
    } };

    ghost ids_differ = { numbered-differ };

    fn session(&self) -> &str {
        "s"
    }

    fn id(&self, alloc: Global, n: u64) -> Result<String, AllocError> {
        format!(in alloc; "s{n}")
    }

    fn date(&mut self, alloc: Global) -> Result<String, AllocError> {
        if self.0 == 0 {
            return Err(AllocError);
        }
        self.0 -= 1;
        String::from_str(alloc, DATE)
    }
}

/// How many dates are enough for all messages of a channel.
const ENOUGH: u64 = 100;

/// The parent of what belongs to the cell.
const EXECUTED: &[u8] = b"\"msg_type\":\"execute_request\"";

/// The parent of what belongs to the shutdown.
const SHUT_DOWN: &[u8] = b"\"msg_type\":\"shutdown_request\"";

/// The content by which a block ends.
const IDLE: &[u8] = b"{\"execution_state\":\"idle\"}";

/// Says that no cell is to stop.
struct GoOn;

impl Stop for GoOn {
    ghost may_ask = { λ _. ⊥ };

    fn asked(&self) -> bool {
        false
    }
}

/// The publishers of shell, of control and of the door, of a queue of one place, and the relay's worker.
#[derive(Drop)]
struct Ready<R> {
    /// The publisher of shell.
    shell: Waking<Event<Keeper>, R>,
    /// The publisher of control.
    control: Waking<Event<Keeper>, R>,
    /// The publisher of subscriptions.
    door: Waking<Event<Keeper>, R>,
    /// The relay's worker.
    relay: RelayWorker<Keeper, R>,
    /// By which that is told to end.
    relay_end: RelayEnd,
}

/// The relay's worker over this taker, and by which it is told to end. None for want of memory.
fn relay_of<R: Drop>(
    alloc: Global,
    taker: Taker<Event<Keeper>, R>,
) -> Option<(RelayWorker<Keeper, R>, RelayEnd)>
    requires { taker.taken ≡ [] }
    ensures { IfSome result (λ made. made.0.relay.taker ≡ taker) }
{
    let Ok((subscriptions, nobody)) = unbounded(alloc) else {
        drop(taker);
        return None;
    };
    drop(nobody);
    RelayWorker::new(alloc, Relay::new(alloc, taker), subscriptions).ok()
}

/// What wakes the relay's worker, once for each publisher.
fn unparkers_of<R: Drop>(
    relay: &RelayWorker<Keeper, R>,
) -> Result<(Unparker, Unparker, Unparker), AllocError> {
    Ok((relay.unparker()?, relay.unparker()?, relay.unparker()?))
}

/// What a kernel of a queue of one place begins with.
fn begin<R: Copy + Drop>(rt: &R, alloc: Global) -> Option<Ready<R>>
    ensures { IfSome result (λ ready. IsOpened ready.shell ready.control ready.door ready.relay.relay.taker) }
{
    let Ok((shell, control, door, taker)) = open_three(rt, alloc, 1) else {
        return None;
    };
    let Some((relay, relay_end)) = relay_of(alloc, taker) else {
        drop((shell, control, door));
        return None;
    };
    match unparkers_of(&relay) {
        Ok((for_shell, for_control, for_door)) => Some(Ready {
            shell: Waking::new(shell, for_shell),
            control: Waking::new(control, for_control),
            door: Waking::new(door, for_door),
            relay,
            relay_end,
        }),
        Err(AllocError) => {
            drop((shell, control, door, relay, relay_end));
            None
        }
    }
}

/// Has an engine execute a cell.
fn execute<R: Wait>(alloc: Global, engine: &mut KeptEngine<R>, frames: Frames) -> Done
    ensures queue { engine.new.publishing.sink.queue ≡ engine.old.publishing.sink.queue }
    ensures number { engine.new.publishing.sink.number ≡ engine.old.publishing.sink.number }
{
    engine.take(alloc, frames, &GoOn)
}

/// Has subscriber 1, who writes to a keeper, come and ask for everything, and a cell run on shell, while the relay
/// serves them in a thread of its own. The stamp of control has so many dates. None if there is no thread for the relay.
fn serve_cell<R>(
    rt: R,
    alloc: Global,
    ready: Ready<R>,
    given: (Frames, Keeper),
    dates: u64,
) -> Option<Served<R>>
where
    R: Threads + Wait + Clock + Copy + Send + Sync + Drop + 'static,
    requires { IsOpened ready.shell ready.control ready.door ready.relay.relay.taker }
    ensures { IfSome result (λ served. AreOfOne served.shell.publishing.sink served.control.publishing.sink served.door
        served.relay.taker) }
{
    let (cell, keeper) = given;
    let Ready {
        shell,
        control,
        door,
        relay,
        relay_end,
    } = ready;
    let Some(thread) = relay.spawn(rt) else {
        drop((shell, control, door, relay_end, cell, keeper));
        return None;
    };
    let door = subscribe(alloc, door, keeper);
    let mut engine = kept_engine(alloc, Side::Shell, shell, FewDates(ENOUGH));
    let done = execute(alloc, &mut engine, cell);
    drop(done);
    let control = kept_engine(alloc, Side::Control, control, FewDates(dates));
    relay_end.end();
    let relay = thread.join(&rt);
    Some(Served {
        shell: engine,
        control,
        door,
        relay,
    })
}

/// Has subscriber 1 come and ask for everything.
fn subscribe<R: Wait + Drop>(
    alloc: Global,
    mut door: Waking<Event<Keeper>, R>,
    keeper: Keeper,
) -> Waking<Event<Keeper>, R>
    ensures queue { result.queue ≡ door.queue }
    ensures number { result.number ≡ door.number }
{
    drop(door.publish(Event::Attach(1, keeper)));
    let everything = Octets::new(Vec::new(alloc));
    drop(door.publish(Event::Subscribe(1, everything)));
    door
}

/// What there is before the shutdown.
#[derive(Drop)]
struct Served<R: Wait> {
    /// What handles the requests of shell.
    shell: KeptEngine<R>,
    /// What handles the requests of control.
    control: KeptEngine<R>,
    /// The publisher of subscriptions.
    door: Waking<Event<Keeper>, R>,
    /// What serves the subscribers.
    relay: Relay<Keeper, R>,
}

/// An engine of a channel that publishes by a sink, with this stamp: arithmetic, and no key.
fn kept_engine<R: Wait>(
    alloc: Global,
    side: Side,
    sink: Waking<Event<Keeper>, R>,
    stamp: FewDates,
) -> KeptEngine<R>
    requires { sink.published ≡ [] }
    ensures { result.publishing.sink ≡ sink }
{
    let signer = Signer::new(Vec::new(alloc));
    Engine::new(side, ShellArith::new(alloc), sink, stamp, signer)
}

/// The token of the door, which closes, in a list that has room for two more; and nothing else.
fn last_token<R: Wait + Drop>(
    door: Waking<Event<Keeper>, R>,
    mut tokens: Vec<Closed<Event<Keeper>>>,
) -> (Vec<Closed<Event<Keeper>>>, ())
    requires none { tokens.items ≡ [] }
    requires room { 3 ≤ vec_capacity tokens }
    ensures last { IsLast door result.0.items }
    ensures room { 3 ≤ vec_capacity result.0 }
{
    tokens.push_reserved(door.close());
    (tokens, ())
}

/// Room for the tokens of three publishers.
fn room_for_three(alloc: Global) -> Result<Vec<Closed<Event<Keeper>>>, AllocError>
    ensures none { IfOk result (λ tokens. tokens.items ≡ []) }
    ensures room { IfOk result (λ tokens. 3 ≤ vec_capacity tokens) }
{
    let mut tokens = Vec::new(alloc);
    match tokens.reserve(3) {
        Ok(()) => Ok(tokens),
        Err(AllocError) => {
            drop(tokens);
            Err(AllocError)
        }
    }
}

/// Shuts a kernel down; the door closes meanwhile. None if there is no thread for the relay.
fn shut_down<R>(
    rt: R,
    alloc: Global,
    served: Served<R>,
    request: Envelope,
    tokens: Vec<Closed<Event<Keeper>>>,
) -> Option<ShutdownEnd<Keeper, R>>
where
    R: Threads + Wait + Clock + Copy + Send + Sync + Drop + 'static,
    requires ready { AreOfOne served.shell.publishing.sink served.control.publishing.sink served.door
        served.relay.taker }
    requires none { tokens.items ≡ [] }
    requires room { 3 ≤ vec_capacity tokens }
{
    let Served {
        shell,
        control,
        door,
        relay,
    } = served;
    let rest = move || -> (Vec<Closed<Event<Keeper>>>, ())
        requires none { tokens.items ≡ [] }
        requires room { 3 ≤ vec_capacity tokens }
    { last_token(door, tokens) };
    let shutdown = Shutdown {
        shell,
        control,
        request,
        rest,
        relay,
    };
    match shutdown_order(rt, alloc, shutdown) {
        Ok(end) => Some(end.0),
        Err(unbegun) => {
            drop(unbegun);
            None
        }
    }
}

/// Where a text stands in octets: how often, and where first and last.
#[derive(Clone, Copy, Debug)]
struct Places {
    /// How often.
    count: usize,
    /// Where first.
    first: usize,
    /// Where last.
    last: usize,
}

/// Where a text stands in octets.
fn places_of(octets: &[u8], text: &[u8]) -> Places
    requires { 0 < length text.now }
{
    let mut places = Places {
        count: 0,
        first: 0,
        last: 0,
    };
    for (place, window) in octets.windows(text.len()).enumerate() {
        if window == text {
            if places.count == 0 {
                places.first = place;
            }
            places.last = place;
            places.count = places.count.saturating_add(1);
        }
    }
    places
}

/// That a subscriber got the six messages of the cell, and behind them the two of the shutdown. That shell's close was
/// taken before the last of them, too, no subscriber sees.
fn expect_order(rt: &impl Abort, octets: &[u8]) {
    let of_cell = places_of(octets, EXECUTED);
    let of_shutdown = places_of(octets, SHUT_DOWN);
    let idles = places_of(octets, IDLE);
    assert_eq!(rt; (of_cell.count, of_shutdown.count, idles.count), (6, 2, 2));
    assert!(rt; of_cell.last < of_shutdown.first);
    assert!(rt; of_cell.last < idles.first);
    assert!(rt; of_shutdown.last < idles.last);
}

/// That a subscriber got the six messages of the cell, and none of the shutdown.
fn expect_cell_alone(rt: &impl Abort, octets: &[u8]) {
    let of_cell = places_of(octets, EXECUTED);
    let of_shutdown = places_of(octets, SHUT_DOWN);
    assert_eq!(rt; (of_cell.count, of_shutdown.count), (6, 0));
}

/// A request for a shutdown that begins the kernel anew.
fn shutdown_request(alloc: Global) -> Result<Envelope, AllocError> {
    let frames = request_frames(alloc, (SHUTDOWN, r#"{"restart":true}"#))?;
    let unsigned = Signer::new(Vec::new(alloc));
    let request = open_envelope(alloc, &unsigned, frames.into_vec());
    drop(unsigned);
    match request {
        Ok(request) => Ok(request),
        Err(fault) => {
            drop(fault);
            Err(AllocError)
        }
    }
}

/// A cell of three statements, and what writes to the subscriber.
fn cell(alloc: Global) -> Result<(Frames, Keeper), AllocError> {
    let cell = request_frames(alloc, ("execute_request", r#"{"code":"1;2;3"}"#))?;
    match Arc::new(alloc, AtomicBool::new(false)) {
        Ok(has_output) => Ok((cell, Keeper::new(alloc, has_output))),
        Err(_) => {
            drop(cell);
            Err(AllocError)
        }
    }
}

/// How a kernel ends whose subscriber saw a cell run, and whose control has so many dates. None if there was no memory
/// or no thread.
fn end_of<R>(rt: R, alloc: Global, dates: u64) -> Option<ShutdownEnd<Keeper, R>>
where
    R: Threads + Wait + Clock + Copy + Send + Sync + Drop + 'static,
{
    let Ok(tokens) = room_for_three(alloc) else {
        return None;
    };
    let Ok((request, cell)) = both(shutdown_request(alloc), cell(alloc)) else {
        drop(tokens);
        return None;
    };
    let Some(ready) = begin(&rt, alloc) else {
        drop((tokens, request, cell));
        return None;
    };
    match serve_cell(rt, alloc, ready, cell, dates) {
        Some(served) => shut_down(rt, alloc, served, request, tokens),
        None => {
            drop((tokens, request));
            None
        }
    }
}

/// That a reply is that to the shutdown.
fn expect_shutdown_reply(
    rt: &impl Abort,
    alloc: Global,
    reply: Option<Frames>,
) -> Result<(), AllocError> {
    let reply = reply.expect(rt, "a reply");
    let text = frames_text(alloc, &reply);
    drop(reply);
    let due = ("shutdown_reply", 3, r#"{"restart":true,"status":"ok"}"#);
    expect_same(rt, text, due_text(alloc, "", due, SHUTDOWN))
}

/// What subscriber 1 got, if it alone is left of a relay, and didn't fail.
fn octets_of<R: Drop>(relay: Relay<Keeper, R>) -> Option<Vec<u8>> {
    match relay.finish() {
        Ok(subscribers) => octets_of_one(subscribers),
        Err(relay) => {
            drop(relay);
            None
        }
    }
}

/// What subscriber 1 got, if it is the only one, and didn't fail.
fn octets_of_one(mut subscribers: Vec<(u64, Keeper, bool)>) -> Option<Vec<u8>> {
    let last = subscribers.pop();
    let is_alone = subscribers.is_empty();
    drop(subscribers);
    let (id, keeper, has_failed) = last?;
    let octets = keeper.into_octets();
    if is_alone && id == 1 && !has_failed {
        return Some(octets);
    }
    drop(octets);
    None
}

/// Looks at what the subscriber got, who alone was there.
fn look<R: Drop>(rt: &impl Abort, relay: Relay<Keeper, R>, has_shutdown: bool) {
    let octets = octets_of(relay).expect(rt, "subscriber 1 alone, who didn't fail");
    if has_shutdown {
        expect_order(rt, octets.as_slice());
    } else {
        expect_cell_alone(rt, octets.as_slice());
    }
    drop(octets);
}

#[test]
fn a_kernel_that_is_shut_down_serves_the_cell_before_the_shutdown(
    rt: HostRuntime,
) -> Result<(), Fail> {
    let end = end_of(rt, rt.alloc(), ENOUGH).expect(&rt, "memory and a thread");
    let ShutdownEnd {
        relay,
        reply,
        restart,
        complete,
        fault,
    } = end;
    look(&rt, relay, true);
    let is_refused = fault.is_some();
    drop(fault);
    let replied = expect_shutdown_reply(&rt, rt.alloc(), reply);
    assert_eq!(rt; (complete, restart, is_refused), (true, true, false));
    Ok(replied?)
}

#[test]
fn a_shutdown_for_which_there_is_no_memory_ends_the_kernel(rt: HostRuntime) -> Result<(), Fail> {
    let end = end_of(rt, rt.alloc(), 0).expect(&rt, "memory and a thread");
    let ShutdownEnd {
        relay,
        reply,
        restart,
        complete,
        fault,
    } = end;
    look(&rt, relay, false);
    let number = fault.as_ref().map(EngineFault::number);
    drop(fault);
    let is_replied = reply.is_some();
    drop(reply);
    assert_eq!(rt; (complete, restart, is_replied), (true, false, false));
    assert_eq!(rt; number, Some(71));
    Ok(())
}
