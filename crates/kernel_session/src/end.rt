//! How an engine ends a session.

use kernel_engine::EngineFault;

/// How an engine ends a session with a peer.
#[derive(Debug, Drop)]
pub enum SessionEnd {
    /// The peer asked the kernel to shut down, and whether to restart it.
    Shutdown(bool),
    /// The engine couldn't go on.
    Failed(EngineFault),
}
