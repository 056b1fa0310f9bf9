//! What a subscriber's traffic is to a relay.

ghost use Rattle.std.specs.Prelude.{◌≡◌, ◌≢◌, None, IfOk, OnErr};
ghost use Rattle.iopub_relay.specs.Door.{event_of_traffic};

use iopub_event::Event;
use listed::Octets;
use std::alloc::{AllocError, Global};
use zmtp_wire::{Traffic, read_ping};

/// The event that traffic of this subscriber is. A message of one frame that begins with 1 subscribes to the rest as a
/// topic, and one that begins with 0 gives that topic up (ZMTP 3.0). The commands SUBSCRIBE and CANCEL do the same, and
/// PING asks for a PONG (ZMTP 3.1). All other traffic is no event.
///
/// # Errors
///
/// If there is an event, and memory was refused for its topic or context.
pub fn door_event<W>(
    alloc: Global,
    id: u64,
    traffic: &Traffic,
) -> Result<Option<Event<W>>, AllocError>
    ensures event { IfOk result (λ event. event ≡ event_of_traffic id traffic.now) }
    ensures err { OnErr result (event_of_traffic {Writer = W} id traffic.now ≢ None) }
{
    if let Some(topic) = traffic.subscribed_topic() {
        return Ok(Some(Event::Subscribe(id, Octets::new(topic.to_vec(alloc)?))));
    }
    if let Some(topic) = traffic.cancelled_topic() {
        return Ok(Some(Event::Cancel(id, Octets::new(topic.to_vec(alloc)?))));
    }
    if let Some(context) = read_ping(traffic) {
        return Ok(Some(Event::Pong(id, Octets::new(context.to_vec(alloc)?))));
    }
    Ok(None)
}
