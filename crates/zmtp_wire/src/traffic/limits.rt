//! How much a peer may send.

ghost use Rattle.std.specs.Prelude.{◌≡◌};
ghost use Rattle.zmtp_wire.specs.Limits.{usual_limits};

/// How much a peer may send in one frame and in one message.
#[derive(Clone, Copy, Debug, PartialEq, Eq)]
pub struct Limits {
    /// The octets of one frame's body.
    pub frame: usize,
    /// The frames of one message.
    pub frames: usize,
    /// The octets of the bodies of one message together.
    pub message: usize,
}

impl Limits {
    /// The limits of the kernel: 16 MiB a frame, 64 frames a message, 32 MiB a message.
    pub fn usual() -> Limits
        ensures { result ≡ usual_limits }
    {
        Limits {
            frame: 16_777_216,
            frames: 64,
            message: 33_554_432,
        }
    }
}
