//! The fields of a connection file that are read.

ghost use Rattle.std.specs.Prelude.{◌≡◌};

use std::fmt::{self, Display, Formatter, Write};

/// The transport that a kernel speaks.
pub(crate) const TRANSPORT: &str = "tcp";

/// The scheme by which it signs.
pub(crate) const SCHEME: &str = "hmac-sha256";

/// A field of a connection file, in the order in which fields are judged. All others are ignored.
#[derive(Clone, Copy, Debug, PartialEq, Eq)]
pub enum Field {
    /// How octets travel.
    Transport,
    /// The address to listen at.
    Ip,
    /// The port of the shell channel.
    ShellPort,
    /// The port of the IOPub channel.
    IopubPort,
    /// The port of the control channel.
    ControlPort,
    /// The port of the heartbeat.
    HbPort,
    /// How messages are signed.
    SignatureScheme,
    /// The key that they are signed with.
    Key,
}

impl Field {
    ghost use Rattle.conn_file.specs.Connection.{expected_words, field_name};

    /// The field's key in the file.
    pub fn name(self) -> &'static str
        ensures { result.now ≡ field_name self }
    {
        match self {
            Field::Transport => "transport",
            Field::Ip => "ip",
            Field::ShellPort => "shell_port",
            Field::IopubPort => "iopub_port",
            Field::ControlPort => "control_port",
            Field::HbPort => "hb_port",
            Field::SignatureScheme => "signature_scheme",
            Field::Key => "key",
        }
    }

    /// What the field has to be, in words.
    pub fn expected(self) -> &'static str
        ensures { result.now ≡ expected_words self }
    {
        match self {
            Field::Transport => TRANSPORT,
            Field::SignatureScheme => SCHEME,
            Field::Ip | Field::Key => "a text",
            Field::ShellPort | Field::IopubPort | Field::ControlPort | Field::HbPort =>
                "a whole number from 1 to 65535",
        }
    }
}

impl Display for Field {
    ghost use Rattle.std.specs.Prelude.{Some};
    ghost use Rattle.conn_file.specs.Connection.{field_name};

    ghost output = { λ field. Some (field_name field) };

    fn fmt<W: Write>(&self, f: &mut Formatter<W>) -> fmt::Result {
        f.write_str(self.name())
    }
}
