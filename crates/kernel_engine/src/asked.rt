//! Messages that an engine reads, and what comes of them.

ghost use Rattle.std.specs.Prelude.{◌≡◌, is_some};
ghost use Rattle.kernel_engine.specs.Orders.{ends, is_interrupt, order_of_request};

use crate::does::{Does, Order};
use crate::fault::EngineFault;
use crate::pending::Pending;
use crate::response::Response;
use jmsg_envelope::Envelope;
use listed::Octets;

/// A message that was opened as a request, and what it comes to.
#[derive(Drop)]
pub struct Asked {
    /// The request.
    pub request: Envelope,
    /// What it comes to.
    pub does: Does,
}

impl Asked {
    /// Whether it ends the kernel.
    pub fn ends(&self) -> bool
        ensures { result ≡ is_some (ends (order_of_request self.now.does)) }
    {
        matches!(
            &self.does,
            Does::Says {
                order: Order::End { .. },
                ..
            }
        )
    }

    /// Whether it asks for the cell that runs to be interrupted.
    pub fn interrupts(&self) -> bool
        ensures { result ≡ is_interrupt (order_of_request self.now.does) }
    {
        matches!(
            &self.does,
            Does::Says {
                order: Order::Interrupt,
                ..
            }
        )
    }

    /// The request alone.
    pub fn into_request(self) -> Envelope
        ensures { result ≡ self.request }
    {
        let Asked { request, does } = self;
        drop(does);
        request
    }

    /// The header, and what an answer is made by.
    pub(crate) fn into_pending(self) -> (Octets, Pending)
        ensures { (result.0 ≡ self.request.header) × (result.1 ≡ record {
          identities = self.request.identities;
          msg_type = self.request.msg_type;
          does = self.does;
        }) }
    {
        let Asked { request, does } = self;
        let Envelope {
            identities,
            header,
            msg_id,
            msg_type,
            parent,
            metadata,
            content,
            buffers,
        } = request;
        drop(msg_id);
        drop(parent);
        drop(metadata);
        drop(content);
        drop(buffers);
        let pending = Pending {
            identities,
            msg_type,
            does,
        };
        (header, pending)
    }
}

/// Why a message isn't read.
#[derive(Debug, Drop)]
pub enum Unread {
    /// It is no request under the engine's key.
    NoRequest,
    /// No memory was left.
    NoMemory,
}

/// What came of a message.
#[derive(Drop)]
pub enum Done {
    /// It is no request under the engine's key.
    Ignored,
    /// No memory was left to read it.
    Lost,
    /// It was handled.
    Handled(Response),
    /// It was refused; or no memory was left to read it, and all ids were given.
    Refused(EngineFault),
}
