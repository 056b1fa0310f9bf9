//! Connection files read.

ghost use Rattle.std.specs.Prelude.{◌≡◌, ◌⊎◌, Ok, Err, IfOk, IfErr, MatchResult};
ghost use Rattle.serde_json.specs.View.{view};
ghost use Rattle.conn_file.specs.Connection.{connection_of, expected, fields_in, object_of, port_in, text_in};
ghost use Rattle.conn_file.specs.Connection.{then_judged};
ghost use Rattle.conn_file.specs.declared.field.Field.TheVariants.{ControlPort, HbPort, IopubPort, ShellPort};
ghost use Rattle.conn_file.specs.declared.fault.ConnFault.TheVariants.{OutOfMemory};

use crate::fault::ConnFault;
use crate::field::{Field, SCHEME, TRANSPORT};
use listed::{Octets, Text};
use serde_json::Value;
use std::alloc::Global;

/// Where a kernel is to listen, and the key of its messages.
#[derive(Debug, Drop)]
pub struct Connection {
    /// The address, as text.
    pub ip: Text,
    /// The port of the shell channel.
    pub shell_port: u16,
    /// The port of the IOPub channel.
    pub iopub_port: u16,
    /// The port of the control channel.
    pub control_port: u16,
    /// The port of the heartbeat.
    pub hb_port: u16,
    /// The key, empty if nothing is signed.
    pub key: Octets,
}

/// Reads a connection file: a JSON object with the fields of `Field`, whose transport is `tcp` and whose signature
/// scheme is `hmac-sha256`. Other keys are ignored; of a key that comes twice the last counts.
///
/// # Errors
///
/// The first fault by the order of fields; `OutOfMemory` at any point.
pub fn read_connection(alloc: Global, text: &str) -> Result<Connection, ConnFault>
    ensures accepted { IfOk result (λ connection. connection_of text.now ≡ Ok connection) }
    ensures refused { IfErr result (λ fault. (fault ≡ OutOfMemory) ⊎ (connection_of text.now ≡ Err fault)) }
{
    let file = read_object(alloc, text)?;
    read_fields(alloc, &file)
}

/// Reads an object in JSON.
fn read_object(alloc: Global, text: &str) -> Result<Value, ConnFault>
    ensures { MatchResult result (λ file. object_of text.now ≡ Ok (view file))
        (λ fault. (fault ≡ OutOfMemory) ⊎ (object_of text.now ≡ Err fault)) }
{
    match Value::from_str(alloc, text) {
        Ok(file) => {
            if file.is_object() {
                Ok(file)
            } else {
                Err(ConnFault::NotJson)
            }
        }
        Err(error) => {
            if error.is_memory() {
                Err(ConnFault::OutOfMemory)
            } else {
                Err(ConnFault::NotJson)
            }
        }
    }
}

/// Reads the fields of a connection file.
fn read_fields(alloc: Global, file: &Value) -> Result<Connection, ConnFault>
    ensures { MatchResult result (λ connection. fields_in (view file.now) ≡ Ok connection)
        (λ fault. (fault ≡ OutOfMemory) ⊎ (fields_in (view file.now) ≡ Err fault)) }
{
    let transport = text_field(file, Field::Transport)?;
    expect(transport, TRANSPORT, ConnFault::Transport)?;
    let ip = text_field(file, Field::Ip)?;
    let ports = read_ports(file)?;
    let scheme = text_field(file, Field::SignatureScheme)?;
    expect(scheme, SCHEME, ConnFault::Scheme)?;
    let key = text_field(file, Field::Key)?;
    owned(alloc, ip, ports, key)
}

/// The ports of a connection file.
#[derive(Clone, Copy)]
struct Ports {
    /// The port of the shell channel.
    shell: u16,
    /// The port of the IOPub channel.
    iopub: u16,
    /// The port of the control channel.
    control: u16,
    /// The port of the heartbeat.
    hb: u16,
}

/// Reads the ports of a connection file.
fn read_ports(file: &Value) -> Result<Ports, ConnFault>
    ensures shell { IfOk result (λ ports. port_in ShellPort (view file.now) ≡ Ok ports.shell) }
    ensures iopub { IfOk result (λ ports. port_in IopubPort (view file.now) ≡ Ok ports.iopub) }
    ensures control { IfOk result (λ ports. port_in ControlPort (view file.now) ≡ Ok ports.control) }
    ensures hb { IfOk result (λ ports. port_in HbPort (view file.now) ≡ Ok ports.hb) }
    ensures refused { IfErr result (λ fault.
        then_judged (port_in ShellPort (view file.now)) (λ _.
        then_judged (port_in IopubPort (view file.now)) (λ _.
        then_judged (port_in ControlPort (view file.now)) (λ _. port_in HbPort (view file.now)))) ≡ Err fault) }
{
    let shell = port_field(file, Field::ShellPort)?;
    let iopub = port_field(file, Field::IopubPort)?;
    let control = port_field(file, Field::ControlPort)?;
    let hb = port_field(file, Field::HbPort)?;
    Ok(Ports {
        shell,
        iopub,
        control,
        hb,
    })
}

/// A connection that owns what it says.
fn owned(alloc: Global, ip: &str, ports: Ports, key: &str) -> Result<Connection, ConnFault>
    ensures said { IfOk result (λ connection. connection ≡ record {
      ip = ip.now;
      shell_port = ports.shell;
      iopub_port = ports.iopub;
      control_port = ports.control;
      hb_port = ports.hb;
      key = key.now;
    }) }
    ensures memory { IfErr result (λ fault. fault ≡ OutOfMemory) }
{
    let ip = Text::new(String::from_str(alloc, ip)?);
    let key = Octets::new(Vec::from_slice(alloc, key.as_bytes())?);
    Ok(Connection {
        ip,
        shell_port: ports.shell,
        iopub_port: ports.iopub,
        control_port: ports.control,
        hb_port: ports.hb,
        key,
    })
}

/// The text of a field.
fn text_field(file: &Value, field: Field) -> Result<&str, ConnFault>
    ensures { MatchResult result (λ text. text_in field (view file.now) ≡ Ok text.now)
        (λ fault. text_in field (view file.now) ≡ Err fault) }
{
    match file.get(field.name()).and_then(Value::as_str) {
        Some(text) => Ok(text),
        None => Err(ConnFault::Missing(field)),
    }
}

/// The port of a field.
fn port_field(file: &Value, field: Field) -> Result<u16, ConnFault>
    ensures { result ≡ port_in field (view file.now) }
{
    match file.get(field.name()) {
        Some(value) => match value.as_u64() {
            Some(port) if 1 <= port && port <= 65_535 => Ok(port as u16),
            Some(_) | None => Err(ConnFault::Port(field)),
        },
        None => Err(ConnFault::Missing(field)),
    }
}

/// Whether a text is the one that is expected, or else the fault.
fn expect(text: &str, wanted: &str, fault: ConnFault) -> Result<(), ConnFault>
    ensures { result ≡ expected wanted.now fault text.now }
{
    if text == wanted { Ok(()) } else { Err(fault) }
}
