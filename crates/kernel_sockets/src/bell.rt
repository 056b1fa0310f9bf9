//! A bell, which ends the waits of other threads for a socket.

use libc::net::{self, EFD_CLOEXEC, EFD_NONBLOCK, POLLIN};
use libc::types::pollfd;
use std::os::fd::{AsRawFd, RawFd};
use std::sync::Wait;

/// A bell (Linux's `eventfd`). Once it rang, no wait for it lasts, until somebody silences it.
pub(crate) struct Bell {
    /// Its file descriptor.
    fd: RawFd,
}

/// What ended a wait.
#[derive(Clone, Copy, Debug, PartialEq, Eq)]
pub(crate) enum Woken {
    /// The bell has rung.
    Bell,
    /// Something is to be read of the socket, or to be accepted there.
    Socket,
    /// The time passed, or the system couldn't wait.
    Time,
}

impl Bell {
    /// A bell that hasn't rung. None if the system has no file descriptor left.
    pub(crate) fn new() -> Option<Bell> {
        let fd = net::eventfd(0, EFD_CLOEXEC | EFD_NONBLOCK);
        if fd < 0 {
            return None;
        }
        Some(Bell { fd })
    }

    /// Rings.
    pub(crate) fn ring(&self) {
        let _ = libc::write(self.fd, &1u64.to_ne_bytes());
    }

    /// Silences the bell.
    pub(crate) fn silence(&self) {
        let _ = libc::read(self.fd, &mut [0; 8]);
    }

    /// Waits until the bell rings or a socket has something, for so many milliseconds or any time.
    pub(crate) fn wait<R: Wait, S: AsRawFd>(
        &self,
        _rt: &R,
        socket: &S,
        millis: Option<u64>,
    ) -> Woken {
        let mut looked = [looked_at(self.fd), looked_at(socket.as_raw_fd())];
        let timeout = match millis {
            Some(millis) => i32::try_from(millis).unwrap_or(i32::MAX),
            None => -1,
        };
        if net::poll(&mut looked, timeout) <= 0 {
            return Woken::Time;
        }
        let [bell, _] = looked;
        if bell.revents == 0 {
            Woken::Socket
        } else {
            Woken::Bell
        }
    }
}

impl Drop for Bell {
    fn drop(self) {
        let Bell { fd } = self;
        let _ = libc::close(fd);
    }
}

/// What is looked at of a file descriptor.
fn looked_at(fd: RawFd) -> pollfd {
    pollfd {
        fd,
        events: POLLIN,
        revents: 0,
    }
}
