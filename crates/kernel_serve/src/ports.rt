//! The ports of a kernel, bound.

ghost use Rattle.std.specs.Prelude.{◌≡◌, IfOk};
ghost use Rattle.kernel_serve.specs.declared.fault.Port.TheVariants.{Control, Heartbeat, Iopub, Shell};
ghost use Rattle.kernel_serve.specs.Serving.{listens_at};

use crate::fault::{Port, ServeFault};
use conn_file::Connection;
use std::net::{Net, TcpListener, TcpStream};
use std::snapshot::Snapshot;

/// A port that is bound: which one it is, and where it listens.
pub(crate) type Bound = (Port, TcpListener);

/// The ports of a kernel, bound.
#[derive(Drop)]
pub(crate) struct Ports {
    /// Where cells and other requests come in.
    pub(crate) shell: Bound,
    /// Where subscribers come in.
    pub(crate) iopub: Bound,
    /// Where requests come in that mustn't wait for cells.
    pub(crate) control: Bound,
    /// Where a client asks whether the kernel lives.
    pub(crate) heartbeat: Bound,
    /// The connection of which they are, which contracts alone see.
    pub(crate) connection: Snapshot<Connection>,
}

/// Binds the ports of a connection, in the order shell, iopub, control, heartbeat.
///
/// # Errors
///
/// `Refused` with the first port that can't be bound.
pub(crate) fn bind_ports<R>(rt: &R, connection: &Connection) -> Result<Ports, ServeFault>
where
    R: Net<Listener = TcpListener, Stream = TcpStream>,
    ensures shell { IfOk result (λ ports. ports.shell.0 ≡ Shell) }
    ensures iopub { IfOk result (λ ports. ports.iopub.0 ≡ Iopub) }
    ensures control { IfOk result (λ ports. ports.control.0 ≡ Control) }
    ensures heartbeat { IfOk result (λ ports. ports.heartbeat.0 ≡ Heartbeat) }
    ensures connection { IfOk result (λ ports. ports.connection.value ≡ connection.now) }
{
    let (shell, iopub) = bind_two(rt, connection, Port::Shell, Port::Iopub)?;
    match bind_two(rt, connection, Port::Control, Port::Heartbeat) {
        Ok((control, heartbeat)) => Ok(Ports {
            shell,
            iopub,
            control,
            heartbeat,
            connection: Snapshot::of(connection),
        }),
        Err(fault) => {
            drop(shell);
            drop(iopub);
            Err(fault)
        }
    }
}

/// Binds two ports of a connection, one after the other.
///
/// # Errors
///
/// `Refused` with the first port that can't be bound.
fn bind_two<R>(
    rt: &R,
    connection: &Connection,
    one: Port,
    other: Port,
) -> Result<(Bound, Bound), ServeFault>
where
    R: Net<Listener = TcpListener, Stream = TcpStream>,
    ensures one { IfOk result (λ bound. bound.0.0 ≡ one) }
    ensures other { IfOk result (λ bound. bound.1.0 ≡ other) }
{
    let first = bind(rt, connection, one)?;
    match bind(rt, connection, other) {
        Ok(second) => Ok((first, second)),
        Err(fault) => {
            drop(first);
            Err(fault)
        }
    }
}

/// Binds a port of a connection.
///
/// # Errors
///
/// `Refused` with the port.
fn bind<R>(rt: &R, connection: &Connection, port: Port) -> Result<Bound, ServeFault>
where
    R: Net<Listener = TcpListener, Stream = TcpStream>,
    ensures { IfOk result (λ bound. bound.0 ≡ port) }
{
    match TcpListener::bind(rt, (connection.ip.as_str(), number_of(connection, port))) {
        Ok(listener) => Ok((port, listener)),
        Err(error) => {
            let kind = error.kind();
            drop(error);
            Err(ServeFault::Refused(port, kind))
        }
    }
}

/// The number at which a port of a connection listens.
fn number_of(connection: &Connection, port: Port) -> u16
    ensures { result ≡ listens_at connection.now port }
{
    match port {
        Port::Shell => connection.shell_port,
        Port::Iopub => connection.iopub_port,
        Port::Control => connection.control_port,
        Port::Heartbeat => connection.hb_port,
    }
}
