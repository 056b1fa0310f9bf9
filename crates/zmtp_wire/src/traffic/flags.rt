//! The flags of a frame (RFC 23, "Framing").

ghost use Rattle.std.specs.Prelude.{◌≡◌, ◌≤◌, IfSome, IfNone};
ghost use Rattle.zmtp_wire.specs.Frame.{flags_octet};

/// What the flags octet of a frame says.
#[derive(Clone, Copy, Debug)]
pub(crate) struct Flags {
    /// Another frame of the message follows.
    pub(crate) more: bool,
    /// The size has eight octets.
    pub(crate) long: bool,
    /// The frame is a command.
    pub(crate) command: bool,
}

/// Another frame of the message follows.
const MORE: u8 = 1;

/// The size has eight octets.
const LONG: u8 = 2;

/// The frame is a command.
const COMMAND: u8 = 4;

/// No frame has one of these.
const RESERVED: u8 = !(MORE | LONG | COMMAND);

impl Flags {
    /// What the octet says, or nothing if a reserved bit is set.
    pub(crate) fn read(octet: u8) -> Option<Flags>
        ensures known { IfSome result (λ flags. octet ≡ flags_octet flags.more flags.long flags.command) }
        ensures reserved { IfNone result (8 ≤ octet) }
    {
        if octet & RESERVED != 0 {
            return None;
        }
        Some(Flags {
            more: octet & MORE != 0,
            long: octet & LONG != 0,
            command: octet & COMMAND != 0,
        })
    }

    /// The octet that says so.
    pub(crate) fn octet(self) -> u8
        ensures { result ≡ flags_octet self.more self.long self.command }
    {
        (if self.more { MORE } else { 0 })
            | (if self.long { LONG } else { 0 })
            | (if self.command { COMMAND } else { 0 })
    }
}
