//! The channels that requests come in on.

/// The channel of an engine ('Messaging in Jupyter' 5.3, "Introduction").
#[derive(Clone, Copy, Debug, PartialEq, Eq)]
pub enum Side {
    /// Requests to run and to look at code.
    Shell,
    /// Requests that don't wait for the shell's.
    Control,
}
