//! What the peers of a port are served with.

use crate::connection::{Channel, serve_requests};
use crate::heartbeat::serve_heartbeat;
use crate::subscriber::{SubscriptionsInbox, serve_subscriber};
use kernel_sockets::Guest;
use std::alloc::{AllocError, Global};
use std::sync::Wait;
use std::thread::Threads;
use std::time::Clock;

/// What the peers of a port are served with.
#[derive(Drop)]
pub enum Service<R: Wait + Clock + Drop> {
    /// Shell or control: each message that is signed is a job for this worker.
    Requests(Channel),
    /// IOPub: who comes, what it asks for and who leaves goes into the inbox of subscriptions.
    Subscriptions(SubscriptionsInbox<R>),
    /// The heartbeat: each message is written back, and each PING answered.
    Heartbeat,
}

impl<R: Wait + Clock + Drop> Service<R> {
    /// The same service, for one more connection.
    ///
    /// # Errors
    ///
    /// If an inbox has too many owners.
    pub(crate) fn try_clone(&self) -> Result<Service<R>, AllocError> {
        match self {
            Service::Requests(channel) => Ok(Service::Requests(channel.try_clone()?)),
            Service::Subscriptions(inbox) => Ok(Service::Subscriptions(inbox.clone()?)),
            Service::Heartbeat => Ok(Service::Heartbeat),
        }
    }
}

impl<R: Wait + Clock + Drop> Service<R> {
    /// The port ends: nobody's replies wait any more.
    pub(crate) fn close(&self, rt: &R) {
        match self {
            Service::Requests(channel) => channel.mailboxes.close(rt),
            Service::Subscriptions(_) | Service::Heartbeat => {}
        }
    }
}

impl<R: Threads + Wait + Clock + Copy + Send + Sync + Drop + 'static> Service<R> {
    /// Serves the peer of a connection until that ends.
    pub(crate) fn serve(self, rt: R, alloc: Global, guest: &Guest) {
        match self {
            Service::Requests(channel) => serve_requests(rt, alloc, guest, channel),
            Service::Subscriptions(inbox) => serve_subscriber(rt, alloc, guest, inbox),
            Service::Heartbeat => serve_heartbeat(rt, alloc, guest),
        }
    }
}
