//! Serving a connection file: the ports, the kernel that answers on them, and their end.

ghost use Rattle.std.specs.Prelude.{◌≡◌, ◌∷◌, ◌++◌, Err, IfErr, IfOk, IfSome, true, string_bytes};
ghost use Rattle.kernel_serve.specs.Stamps.{AreApart};

use crate::ending::{Acceptor, end_all, start};
use crate::fault::{Port, ServeFault};
use crate::parent::{Until, start_watch};
use crate::ports::{Bound, Ports, bind_ports};
use conn_file::Connection;
use crossbeam_channel::Sender;
use interp_core::Interpreter;
use iopub_event::Event;
use jmsg_envelope::Signer;
use kernel_jobs::{Inbox, Job, Note};
use kernel_limits::limits::QUEUE;
use kernel_peers::{Channel, Service, SubscriptionsInbox, Writer};
use kernel_sockets::Server;
use kernel_stamp::KernelStamp;
use kernel_workers::{Flags, KernelEnd, Parts, run_kernel};
use std::alloc::{AllocError, Global};
use std::net::{Net, TcpListener, TcpStream};
use std::random::RandomSource;
use std::snapshot::Snapshot;
use std::sync::{Arc, Wait};
use std::thread::Threads;
use std::time::Clock;
use uuid::Uuid;

/// How many octets the text of a session's id has.
const ID_LENGTH: usize = 36;

/// How a kernel that served ended.
#[derive(Drop)]
pub struct Served {
    /// Whether all that was published was taken.
    pub complete: bool,
    /// The key that it ran with, which contracts alone see, as they do what follows.
    pub key: Snapshot<Vec<u8>>,
    /// The connection whose ports it served.
    pub connection: Snapshot<Connection>,
    /// Until when it ran.
    pub until: Snapshot<Until>,
}

/// The interpreters that a kernel runs on, each with cells and a state of its own.
#[derive(Drop)]
pub struct Interpreters<I> {
    /// That of shell, which runs the cells.
    pub shell: I,
    /// That of control.
    pub control: I,
}

/// What a kernel is made of.
#[derive(Drop)]
struct Core<I> {
    /// The key that its messages are signed with; empty if they aren't.
    key: Vec<u8>,
    /// What runs the cells of shell and of control.
    interpreters: Interpreters<I>,
}

/// The subscribers of a kernel that ended: each with what it is written by, and whether it has failed.
pub(crate) type Subscribers<R> = Vec<(u64, Writer<R>, bool)>;

/// How a kernel ended, and the subscribers that were there then.
type Ended<R> = (Served, Subscribers<R>);

/// What a kernel of a language runs on.
type KernelParts<I, R> = Parts<I, KernelStamp<R>, Writer<R>>;

/// Runs a kernel on the ports of a connection file until its end: binds them, accepts whoever connects, and ends every
/// connection and every thread before it returns. A parent that changed ends it as a note in control's inbox
/// does.
///
/// # Errors
///
/// `Refused` with the first port that can't be bound, in the order shell, iopub, control, heartbeat;
/// `CannotBind` if the system doesn't say where one listens; `NoThread`, `NoRandomness` or `OutOfMemory`
/// if it gives none.
pub fn serve<I, R>(
    rt: R,
    alloc: Global,
    connection: Connection,
    interpreters: Interpreters<I>,
    until: Until,
) -> Result<Served, ServeFault>
where
    I: Interpreter + Drop + Send + 'static,
    I::Cell: Drop + Send + 'static,
    R: Net<Listener = TcpListener, Stream = TcpStream>
        + Threads
        + Wait
        + Clock
        + RandomSource
        + Copy
        + Send
        + Sync
        + Drop
        + 'static,
    // A kernel that ended has taken all that was published.
    ensures complete { IfOk result (λ served. served.complete ≡ true) }

    // It ran with the file's key.
    ensures key { IfOk result (λ served. served.key.value.items ≡ connection.key) }

    // Its ports are the file's.
    ensures connection { IfOk result (λ served. served.connection.value ≡ connection) }

    // What it was to end with was looked after.
    ensures until { IfOk result (λ served. served.until.value ≡ until) }
{
    let bound = bind_ports(&rt, &connection);
    let key = key_of(connection);
    match bound {
        Ok(ports) => {
            let core = Core { key, interpreters };
            serve_on(rt, alloc, ports, core, until)
        }
        Err(fault) => {
            drop(key);
            drop(interpreters);
            Err(fault)
        }
    }
}

/// The key of a connection file.
fn key_of(connection: Connection) -> Vec<u8>
    ensures { result.items ≡ connection.key }
{
    let Connection {
        ip,
        shell_port: _,
        iopub_port: _,
        control_port: _,
        hb_port: _,
        key,
    } = connection;
    drop(ip);
    key.into_vec()
}

/// Runs a kernel on ports that are bound, until its end.
///
/// # Errors
///
/// `CannotBind` if the system doesn't say where a port listens; `NoThread`, `NoRandomness` or `OutOfMemory`.
fn serve_on<I, R>(
    rt: R,
    alloc: Global,
    ports: Ports,
    core: Core<I>,
    until: Until,
) -> Result<Served, ServeFault>
where
    I: Interpreter + Drop + Send + 'static,
    I::Cell: Drop + Send + 'static,
    R: Net<Listener = TcpListener, Stream = TcpStream>
        + Threads
        + Wait
        + Clock
        + RandomSource
        + Copy
        + Send
        + Sync
        + Drop
        + 'static,
    ensures complete { IfOk result (λ served. served.complete ≡ true) }
    ensures key { IfOk result (λ served. served.key.value.items ≡ core.key.items) }
    ensures connection { IfOk result (λ served. served.connection.value ≡ ports.connection.value) }
    ensures until { IfOk result (λ served. served.until.value ≡ until) }
{
    match stage_of(rt, alloc, core) {
        Ok(stage) => serve_stage(rt, alloc, ports, stage, until),
        Err(fault) => {
            drop(ports);
            Err(fault)
        }
    }
}

/// Runs a kernel that is ready on ports that are bound, until its end.
///
/// # Errors
///
/// As `serve_on`, but for `NoRandomness`.
fn serve_stage<I, R>(
    rt: R,
    alloc: Global,
    ports: Ports,
    stage: Stage<I, R>,
    until: Until,
) -> Result<Served, ServeFault>
where
    I: Interpreter + Drop + Send + 'static,
    I::Cell: Drop + Send + 'static,
    R: Net<Listener = TcpListener, Stream = TcpStream>
        + Threads
        + Wait
        + Clock
        + Copy
        + Send
        + Sync
        + Drop
        + 'static,
    ensures complete { IfOk result (λ served. served.complete ≡ true) }
    ensures key { IfOk result (λ served. served.key.value.items ≡ stage.parts.key.items) }
    ensures connection { IfOk result (λ served. served.connection.value ≡ ports.connection.value) }
    ensures until { IfOk result (λ served. served.until.value ≡ until) }
{
    let mut acceptors = Vec::new(alloc);
    let accepts = stage.round().accept_on(rt, alloc, ports, &mut acceptors);
    let Stage {
        parts,
        signer,
        server,
    } = stage;
    drop(signer);
    run_to_end(rt, alloc, parts, until, accepts, acceptors, server)
}

/// Runs the kernel if the ports of a connection accept peers, and ends all that serves them.
///
/// # Errors
///
/// Why they don't; `NoThread` and `OutOfMemory`.
fn run_to_end<I, R>(
    rt: R,
    alloc: Global,
    parts: KernelParts<I, R>,
    until: Until,
    accepts: Result<Snapshot<Connection>, ServeFault>,
    acceptors: Vec<Acceptor>,
    server: Arc<Server, Global>,
) -> Result<Served, ServeFault>
where
    I: Interpreter + Drop + Send + 'static,
    I::Cell: Drop + Send + 'static,
    R: Threads + Wait + Clock + Copy + Send + Sync + Drop + 'static,
    ensures complete { IfOk result (λ served. served.complete ≡ true) }
    ensures key { IfOk result (λ served. served.key.value.items ≡ parts.key.items) }
    ensures connection { IfOk result (λ served. IfOk accepts (λ connection.
        served.connection.value ≡ connection.value)) }
    ensures until { IfOk result (λ served. served.until.value ≡ until) }
    ensures refused { IfErr accepts (λ fault. result ≡ Err fault) }
{
    match run_accepted(rt, alloc, parts, until, accepts) {
        Ok((served, subscribers)) => {
            end_all(&rt, acceptors, &server, subscribers);
            drop(server);
            Ok(served)
        }
        Err(fault) => {
            end_all(&rt, acceptors, &server, Subscribers::new(alloc));
            drop(server);
            Err(fault)
        }
    }
}

/// Runs the kernel if the ports of a connection accept peers.
///
/// # Errors
///
/// Why they don't; `NoThread` and `OutOfMemory`.
fn run_accepted<I, R>(
    rt: R,
    alloc: Global,
    parts: KernelParts<I, R>,
    until: Until,
    accepts: Result<Snapshot<Connection>, ServeFault>,
) -> Result<Ended<R>, ServeFault>
where
    I: Interpreter + Drop + Send + 'static,
    I::Cell: Drop + Send + 'static,
    R: Threads + Wait + Clock + Copy + Send + Sync + Drop + 'static,
    ensures complete { IfOk result (λ ended. ended.0.complete ≡ true) }
    ensures key { IfOk result (λ ended. ended.0.key.value.items ≡ parts.key.items) }
    ensures connection { IfOk result (λ ended. IfOk accepts (λ connection.
        ended.0.connection.value ≡ connection.value)) }
    ensures until { IfOk result (λ ended. ended.0.until.value ≡ until) }
    ensures refused { IfErr accepts (λ fault. result ≡ Err fault) }
{
    match accepts {
        Ok(connection) => run_until(rt, alloc, parts, connection, until),
        Err(fault) => {
            drop(parts);
            Err(fault)
        }
    }
}

/// Runs the kernel, and looks after the parent meanwhile, if that is asked for.
///
/// # Errors
///
/// `NoThread` and `OutOfMemory`.
fn run_until<I, R>(
    rt: R,
    alloc: Global,
    parts: KernelParts<I, R>,
    connection: Snapshot<Connection>,
    until: Until,
) -> Result<Ended<R>, ServeFault>
where
    I: Interpreter + Drop + Send + 'static,
    I::Cell: Drop + Send + 'static,
    R: Threads + Wait + Clock + Copy + Send + Sync + Drop + 'static,
    ensures complete { IfOk result (λ ended. ended.0.complete ≡ true) }
    ensures key { IfOk result (λ ended. ended.0.key.value.items ≡ parts.key.items) }
    ensures connection { IfOk result (λ ended. ended.0.connection.value ≡ connection.value) }
    ensures until { IfOk result (λ ended. ended.0.until.value ≡ until) }
{
    let (watch, until) = match start_watch(rt, alloc, until, &parts.control_in.to) {
        Ok(started) => started,
        Err(fault) => {
            drop(parts);
            return Err(fault);
        }
    };
    let ended = run(rt, alloc, parts);
    if let Some(watch) = watch {
        watch.end(&rt);
    }
    let (complete, key, subscribers) = ended?;
    let served = Served {
        complete,
        key,
        connection,
        until,
    };
    Ok((served, subscribers))
}

/// Runs the kernel itself: whether all that was published was taken, the key that it ran with, and the
/// subscribers that were there in the end.
///
/// # Errors
///
/// `NoThread` and `OutOfMemory`.
fn run<I, R>(
    rt: R,
    alloc: Global,
    parts: KernelParts<I, R>,
) -> Result<(bool, Snapshot<Vec<u8>>, Subscribers<R>), ServeFault>
where
    I: Interpreter + Drop + Send + 'static,
    I::Cell: Drop + Send + 'static,
    R: Threads + Wait + Clock + Copy + Send + Sync + Drop + 'static,
    ensures complete { IfOk result (λ ended. ended.0 ≡ true) }
    ensures key { IfOk result (λ ended. ended.1.value.items ≡ parts.key.items) }
{
    let key = Snapshot::of(&parts.key);
    let KernelEnd {
        complete,
        restart: _,
        subscribers,
        no_room: _,
        relay,
        subscriptions_in,
        work,
    } = run_kernel(rt, alloc, parts)?;
    drop(relay);
    drop(subscriptions_in);
    drop(work);
    Ok((complete, key, subscribers))
}

/// What a kernel runs on, and what the threads round it share.
#[derive(Drop)]
struct Stage<I, R: Wait + Clock + Drop> {
    /// What the kernel runs on.
    parts: KernelParts<I, R>,
    /// What requests are signed with.
    signer: Arc<Signer, Global>,
    /// What all share.
    server: Arc<Server, Global>,
}

impl<I, R: Wait + Clock + Drop> Stage<I, R> {
    /// What the ports are served with.
    fn round(&self) -> Round<'_, R> {
        Round {
            shell: &self.parts.shell_in.to,
            control: &self.parts.control_in.to,
            subscriptions: &self.parts.subscriptions_in.to,
            signer: &self.signer,
            server: &self.server,
        }
    }
}

/// What a kernel of this core runs on, and what the threads round it share, each with the core's key.
///
/// # Errors
///
/// `NoRandomness` if the system gives no random octets, `OutOfMemory`.
fn stage_of<I, R>(rt: R, alloc: Global, core: Core<I>) -> Result<Stage<I, R>, ServeFault>
where
    I: Drop,
    R: RandomSource + Wait + Clock + Copy + Drop,
    ensures key { IfOk result (λ stage. stage.parts.key.items ≡ core.key.items) }
    ensures signer { IfOk result (λ stage. stage.signer.value ≡ core.key.items) }
{
    let Some((flags, signer, server)) = shares_of(&rt, alloc, &core.key) else {
        drop(core);
        return Err(ServeFault::OutOfMemory);
    };
    match parts_of(rt, alloc, core, flags) {
        Ok(parts) => Ok(Stage {
            parts,
            signer,
            server,
        }),
        Err(fault) => {
            drop(signer);
            drop(server);
            Err(fault)
        }
    }
}

/// Flags, what requests are signed with, and what all threads share. None if no memory is left.
fn shares_of<R: Clock>(
    rt: &R,
    alloc: Global,
    key: &[u8],
) -> Option<(Flags, Arc<Signer, Global>, Arc<Server, Global>)>
    ensures signer { IfSome result (λ shares. shares.1.value ≡ key.now) }
{
    let copy = key.to_vec(alloc).ok()?;
    let signer = Arc::new(alloc, Signer::new(copy)).ok()?;
    let Some((flags, server)) = server_of(rt, alloc) else {
        drop(signer);
        return None;
    };
    Some((flags, signer, server))
}

/// Flags, and a server that sees the one of the end. None if no memory is left.
fn server_of<R: Clock>(rt: &R, alloc: Global) -> Option<(Flags, Arc<Server, Global>)> {
    let flags = Flags::new(alloc).ok()?;
    let Ok(ending) = flags.ending() else {
        drop(flags);
        return None;
    };
    match Arc::new(alloc, Server::new(rt, alloc, ending)) {
        Ok(server) => Some((flags, server)),
        Err(refused) => {
            drop(refused);
            drop(flags);
            None
        }
    }
}

/// What the kernel runs on, in a session of its own.
///
/// # Errors
///
/// `NoRandomness` if the system gives no random octets, `OutOfMemory`.
fn parts_of<I, R>(
    rt: R,
    alloc: Global,
    core: Core<I>,
    flags: Flags,
) -> Result<KernelParts<I, R>, ServeFault>
where
    I: Drop,
    R: RandomSource + Wait + Clock + Copy + Drop,
    ensures key { IfOk result (λ parts. parts.key.items ≡ core.key.items) }
{
    let (shell, control) = match new_stamps(rt, alloc) {
        Ok(stamps) => stamps,
        Err(fault) => {
            drop(core);
            drop(flags);
            return Err(fault);
        }
    };
    match inboxes(alloc) {
        Ok((shell_in, control_in, subscriptions_in)) => {
            let Core { key, interpreters } = core;
            Ok(Parts {
                shell: (interpreters.shell, shell),
                control: (interpreters.control, control),
                key,
                capacity: QUEUE,
                shell_in,
                control_in,
                flags,
                subscriptions_in,
            })
        }
        Err(AllocError) => {
            drop(shell);
            drop(control);
            drop(core);
            drop(flags);
            Err(ServeFault::OutOfMemory)
        }
    }
}

/// The inboxes of shell, of control and of subscriptions.
fn inboxes<R: Wait + Clock + Drop>(
    alloc: Global,
) -> Result<(Inbox<Job>, Inbox<Job>, Inbox<Event<Writer<R>>>), AllocError> {
    let shell_in = Inbox::new(alloc)?;
    let Ok(control_in) = Inbox::new(alloc) else {
        drop(shell_in);
        return Err(AllocError);
    };
    match Inbox::new(alloc) {
        Ok(subscriptions_in) => Ok((shell_in, control_in, subscriptions_in)),
        Err(AllocError) => {
            drop(shell_in);
            drop(control_in);
            Err(AllocError)
        }
    }
}

/// The stamps of shell and control in a session of its own.
///
/// # Errors
///
/// `NoRandomness` if the system gives no random octets, `OutOfMemory`.
fn new_stamps<R>(rt: R, alloc: Global) -> Result<(KernelStamp<R>, KernelStamp<R>), ServeFault>
where
    R: RandomSource + Copy + Drop,
{
    let Ok(session) = Uuid::try_new_v4(&rt) else {
        return Err(ServeFault::NoRandomness);
    };
    let mut buffer = [0; ID_LENGTH];
    let session = session.hyphenated();
    Ok(stamps_of(rt, alloc, session.encode_lower(&mut buffer))?)
}

/// The stamps of shell and control, which have no id in common.
fn stamps_of<R>(
    rt: R,
    alloc: Global,
    session: &str,
) -> Result<(KernelStamp<R>, KernelStamp<R>), AllocError>
where
    R: Copy + Drop,
    ensures { IfOk result (λ stamps. AreApart (string_bytes stamps.0.label) (string_bytes stamps.1.label)) }
{
    let shell = stamp_of(rt, alloc, session, "s")?;
    match stamp_of(rt, alloc, session, "c") {
        Ok(control) => Ok((shell, control)),
        Err(AllocError) => {
            drop(shell);
            Err(AllocError)
        }
    }
}

/// The stamp of a channel, whose ids are told apart from the other's by a letter.
fn stamp_of<R>(
    rt: R,
    alloc: Global,
    session: &str,
    letter: &str,
) -> Result<KernelStamp<R>, AllocError>
where
    R: Drop,
    ensures { IfOk result (λ stamp. string_bytes stamp.label ≡ session.now ++ 95 ∷ letter.now) }
{
    let label = format!(in alloc; "{session}_{letter}")?;
    match String::from_str(alloc, session) {
        Ok(session) => Ok(KernelStamp::new(rt, session, label)),
        Err(AllocError) => {
            drop(label);
            Err(AllocError)
        }
    }
}

/// What the ports of a kernel are served with.
#[derive(Drop)]
struct Round<'s, R: Wait + Clock + Drop> {
    /// The requests on shell.
    shell: &'s Sender<Note<Job>>,
    /// The requests on control.
    control: &'s Sender<Note<Job>>,
    /// What subscribers come, ask for and leave by.
    subscriptions: &'s SubscriptionsInbox<R>,
    /// What requests are signed with.
    signer: &'s Arc<Signer, Global>,
    /// What all share.
    server: &'s Arc<Server, Global>,
}

impl<R> Round<'_, R>
where
    R: Threads + Wait + Clock + Copy + Send + Sync + Drop + 'static,
{
    /// Starts to accept on each port, and answers of which connection they are. Those that were started
    /// before a fault are among the acceptors.
    ///
    /// # Errors
    ///
    /// `NoThread` or `OutOfMemory`, and `CannotBind` if the system doesn't say where a port listens.
    fn accept_on(
        &self,
        rt: R,
        alloc: Global,
        ports: Ports,
        acceptors: &mut Vec<Acceptor>,
    ) -> Result<Snapshot<Connection>, ServeFault>
        ensures { IfOk result (λ connection. connection.value ≡ ports.connection.value) }
    {
        let Ok(()) = acceptors.reserve(4) else {
            drop(ports);
            return Err(ServeFault::OutOfMemory);
        };
        let Ports {
            shell,
            iopub,
            control,
            heartbeat,
            connection,
        } = ports;
        let mut begun = Ok(());
        for bound in [shell, iopub, control, heartbeat] {
            if begun.is_ok() {
                begun = self.accept(rt, alloc, bound, acceptors);
            } else {
                drop(bound);
            }
        }
        begun?;
        Ok(connection)
    }

    /// Starts to accept on a port.
    ///
    /// # Errors
    ///
    /// `NoThread` or `OutOfMemory`, and `CannotBind` if the system doesn't say where it listens.
    fn accept(
        &self,
        rt: R,
        alloc: Global,
        bound: Bound,
        acceptors: &mut Vec<Acceptor>,
    ) -> Result<(), ServeFault> {
        let Some((service, server)) = self.shares(alloc, bound.0) else {
            drop(bound);
            return Err(ServeFault::OutOfMemory);
        };
        let acceptor = start(rt, alloc, bound, service, server)?;
        acceptors.push(acceptor)?;
        Ok(())
    }

    /// What the peers of a port are served with, and what all share. None if something has too many owners.
    fn shares(&self, alloc: Global, port: Port) -> Option<(Service<R>, Arc<Server, Global>)> {
        let service = self.service_of(alloc, port).ok()?;
        match Arc::try_clone(self.server) {
            Ok(server) => Some((service, server)),
            Err(AllocError) => {
                drop(service);
                None
            }
        }
    }

    /// What the peers of a port are served with.
    ///
    /// # Errors
    ///
    /// If memory is refused, or something has too many owners.
    fn service_of(&self, alloc: Global, port: Port) -> Result<Service<R>, AllocError> {
        match port {
            Port::Shell => Ok(Service::Requests(Channel::new(alloc, self.shell, self.signer)?)),
            Port::Iopub => Ok(Service::Subscriptions(self.subscriptions.clone()?)),
            Port::Control => Ok(Service::Requests(Channel::new(alloc, self.control, self.signer)?)),
            Port::Heartbeat => Ok(Service::Heartbeat),
        }
    }
}
