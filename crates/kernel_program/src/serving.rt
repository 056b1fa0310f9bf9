//! Serving a connection file with the interpreters of a language.

ghost use Rattle.std.specs.Prelude.{◌≡◌, ◌⊎◌, Ok, IfOk, IfErr};
ghost use Rattle.conn_file.specs.Connection.{connection_of};
ghost use Rattle.kernel_program.specs.declared.reason.Reason.{Reason};
ghost use Rattle.kernel_program.specs.Profile.{IsRefusal};
ghost use Rattle.kernel_program.specs.Program.{EndsServe, EndsServing, IfEnded, JudgesFile};

use crate::language::{BeginFault, Language};
use crate::program::not_begun;
use crate::reason::Reason;
use crate::status::{Status, tell_line};
use conn_file::{ConnFault, Connection, read_connection};
use interp_core::Interpreter;
use kernel_serve::{Interpreters, ServeFault, Until};
use kernel_stamp::can_be_read;
use listed::Text;
use std::alloc::Global;
use std::fs::{self, Files};
use std::io::{ErrorKind, Write};
use std::net::{Net, TcpListener, TcpStream};
use std::random::RandomSource;
use std::str;
use std::sync::Wait;
use std::thread::Threads;
use std::time::Clock;

/// Reads a connection file, judges it, and serves it until the kernel's end: how the program ends.
pub(crate) fn serve<L, E, F: Write>(
    rt: &E,
    alloc: Global,
    language: &L,
    file: Text,
    until: Until,
    faults: &mut F,
) -> Status
where
    L: Language,
    <L::Interp as Interpreter>::Cell: Drop + Send + 'static,
    E: Files
        + Alloc
        + Net<Listener = TcpListener, Stream = TcpStream>
        + Threads
        + Wait
        + Clock
        + RandomSource
        + Copy
        + Send
        + Sync
        + Drop
        + 'static,
    ensures ends { EndsServe (L.profile language.now).Refuses result }
    ensures until { IfEnded result (λ served. served.until.value ≡ until) }
{
    let status = serve_file(rt, alloc, language, file.as_str(), until, faults);
    drop(file);
    status
}

/// Reads the connection file of this path, judges it, and serves it until the kernel's end: how the program ends.
fn serve_file<L, E, F: Write>(
    rt: &E,
    alloc: Global,
    language: &L,
    path: &str,
    until: Until,
    faults: &mut F,
) -> Status
where
    L: Language,
    <L::Interp as Interpreter>::Cell: Drop + Send + 'static,
    E: Files
        + Alloc
        + Net<Listener = TcpListener, Stream = TcpStream>
        + Threads
        + Wait
        + Clock
        + RandomSource
        + Copy
        + Send
        + Sync
        + Drop
        + 'static,
    ensures ends { EndsServe (L.profile language.now).Refuses result }
    ensures until { IfEnded result (λ served. served.until.value ≡ until) }
{
    match read_file(rt, path) {
        Ok(octets) => {
            let status = serve_octets(rt, alloc, language, &octets, until, faults);
            drop(octets);
            status
        }
        Err(kind) => unread(kind),
    }
}

/// Judges the octets of a connection file, and serves it until the kernel's end: how the program ends.
fn serve_octets<L, E, F: Write>(
    rt: &E,
    alloc: Global,
    language: &L,
    octets: &[u8],
    until: Until,
    faults: &mut F,
) -> Status
where
    L: Language,
    <L::Interp as Interpreter>::Cell: Drop + Send + 'static,
    E: Net<Listener = TcpListener, Stream = TcpStream>
        + Threads
        + Wait
        + Clock
        + RandomSource
        + Copy
        + Send
        + Sync
        + Drop
        + 'static,
    ensures ends { EndsServing (L.profile language.now).Refuses result ⊎ JudgesFile octets.now result }

    // The ports were those of the file, and so was the key.
    ensures connection { IfEnded result (λ served. connection_of octets.now ≡ Ok served.connection.value) }
    ensures key { IfEnded result (λ served. served.key.value.items ≡ served.connection.value.key) }

    ensures until { IfEnded result (λ served. served.until.value ≡ until) }
{
    match judge(alloc, octets) {
        Ok(connection) => {
            tell_of_clock(rt, language.name(), faults);
            serve_begun(*rt, alloc, language, connection, until)
        }
        Err(status) => status,
    }
}

/// The octets of a connection file.
///
/// # Errors
///
/// The kind of the error that the system gives.
fn read_file<E: Files + Alloc>(rt: &E, path: &str) -> Result<Vec<u8, E::A>, ErrorKind> {
    match fs::read(rt, path) {
        Ok(octets) => Ok(octets),
        Err(error) => {
            let kind = error.kind();
            drop(error);
            Err(kind)
        }
    }
}

/// How the program ends if a connection file can't be read.
fn unread(kind: ErrorKind) -> Status
    ensures { (result ≡ Status.Failed) ⊎ ((why : Reason) × (result ≡ Status.FileUnreadable why)) }
{
    match kind {
        ErrorKind::OutOfMemory => Status::Failed,
        kind => Status::FileUnreadable(Reason::of_kind(kind)),
    }
}

/// Judges the octets of a connection file: what it connects, or how the program ends.
///
/// # Errors
///
/// `FileUnreadable` if they are no UTF-8, `FileRefused` with what is wrong, `Failed` without memory.
pub(crate) fn judge(alloc: Global, octets: &[u8]) -> Result<Connection, Status>
    ensures connection { IfOk result (λ connection. connection_of octets.now ≡ Ok connection) }
    ensures refused { IfErr result (JudgesFile octets.now) }
{
    let Ok(text) = str::from_utf8(octets) else {
        return Err(Status::FileUnreadable(Reason::NotUtf8));
    };
    match read_connection(alloc, text) {
        Ok(connection) => Ok(connection),
        Err(ConnFault::OutOfMemory) => Err(Status::Failed),
        Err(fault) => Err(Status::FileRefused(fault)),
    }
}

/// Serves a connection with interpreters as the language begins them, until the kernel's end: how the program ends.
fn serve_begun<L, E>(
    rt: E,
    alloc: Global,
    language: &L,
    connection: Connection,
    until: Until,
) -> Status
where
    L: Language,
    <L::Interp as Interpreter>::Cell: Drop + Send + 'static,
    E: Net<Listener = TcpListener, Stream = TcpStream>
        + Threads
        + Wait
        + Clock
        + RandomSource
        + Copy
        + Send
        + Sync
        + Drop
        + 'static,
    ensures ends { EndsServing (L.profile language.now).Refuses result }
    ensures connection { IfEnded result (λ served. served.connection.value ≡ connection) }
    ensures key { IfEnded result (λ served. served.key.value.items ≡ connection.key) }
    ensures until { IfEnded result (λ served. served.until.value ≡ until) }
{
    match begin(alloc, language) {
        Ok(interpreters) => serve_on(rt, alloc, connection, interpreters, until),
        Err(fault) => {
            drop(connection);
            not_begun(fault)
        }
    }
}

/// The interpreters of a kernel, as the language begins them.
///
/// # Errors
///
/// That of the first one that there isn't: shell, control.
fn begin<L: Language>(alloc: Global, language: &L) -> Result<Interpreters<L::Interp>, BeginFault>
    ensures begun { IfOk result (λ interpreters. (L.profile language.now).Begins interpreters.shell) }
    ensures refused { IfErr result (IsRefusal (L.profile language.now)) }
{
    match language.shell(alloc) {
        Ok(shell) => match language.control(alloc) {
            Ok(control) => Ok(Interpreters { shell, control }),
            Err(fault) => {
                drop(shell);
                Err(fault)
            }
        },
        Err(fault) => Err(fault),
    }
}

/// Serves a connection with these interpreters until the kernel's end: how the program ends.
fn serve_on<I, E>(
    rt: E,
    alloc: Global,
    connection: Connection,
    interpreters: Interpreters<I>,
    until: Until,
) -> Status
where
    I: Interpreter + Drop + Send + 'static,
    I::Cell: Drop + Send + 'static,
    E: Net<Listener = TcpListener, Stream = TcpStream>
        + Threads
        + Wait
        + Clock
        + RandomSource
        + Copy
        + Send
        + Sync
        + Drop
        + 'static,
    ensures ends { EndsServing (λ _. ⊥) result }
    ensures connection { IfEnded result (λ served. served.connection.value ≡ connection) }
    ensures key { IfEnded result (λ served. served.key.value.items ≡ connection.key) }
    ensures until { IfEnded result (λ served. served.until.value ≡ until) }
{
    match kernel_serve::serve(rt, alloc, connection, interpreters, until) {
        Ok(served) => Status::of_end(served),
        Err(ServeFault::Refused(port, kind)) => Status::CannotBind(port, Reason::of_kind(kind)),
        Err(ServeFault::CannotBind(port)) => Status::CannotBind(port, Reason::Another),
        Err(ServeFault::NoThread | ServeFault::NoRandomness | ServeFault::OutOfMemory) => {
            Status::Failed
        }
    }
}

/// Tells a person, by the program's name, if the clock can't be read.
pub fn tell_of_clock<C: Clock, F: Write>(clock: &C, name: &str, faults: &mut F) {
    if !can_be_read(clock) {
        // If even this fails there is nobody left to tell.
        let _ = tell_line(
            faults,
            name,
            "the clock can't be read: ",
            "dates of messages are wrong, and no limit of time holds",
        );
    }
}
