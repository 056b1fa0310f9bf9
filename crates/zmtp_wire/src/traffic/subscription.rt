//! What a subscriber asks for, by messages or by commands.

ghost use Rattle.std.specs.Prelude.{◌≡◌, option_map};
ghost use Rattle.zmtp_wire.specs.Subscription.{sole_body, subscribed_topic, cancelled_topic};

use crate::traffic::Traffic;
use crate::traffic::message::Message;

/// The first octet of a message that subscribes to the topic after it.
const SUBSCRIBE: u8 = 1;

/// The first octet of a message that gives up the topic after it.
const CANCEL: u8 = 0;

impl Traffic {
    /// The topic that a subscriber subscribes to by it, if it does. That is what follows the 1 with which its one frame
    /// begins (ZMTP 3.0, "The SUB Socket Type"), or what the command SUBSCRIBE says (ZMTP 3.1).
    pub fn subscribed_topic(&self) -> Option<&[u8]>
        ensures { option_map (λ topic. topic.now) result ≡ subscribed_topic self.now }
    {
        match self {
            Traffic::Message(message) => {
                let (kind, topic) = sole_frame(message)?.split_first()?;
                if *kind == SUBSCRIBE {
                    Some(topic)
                } else {
                    None
                }
            }
            Traffic::Command(name, rest) => {
                if name.as_slice() == b"SUBSCRIBE".as_slice() {
                    Some(rest.as_slice())
                } else {
                    None
                }
            }
        }
    }

    /// The topic that a subscriber gives up by it, if it does. That is what follows the 0 with which its one frame
    /// begins, or what the command CANCEL says.
    pub fn cancelled_topic(&self) -> Option<&[u8]>
        ensures { option_map (λ topic. topic.now) result ≡ cancelled_topic self.now }
    {
        match self {
            Traffic::Message(message) => {
                let (kind, topic) = sole_frame(message)?.split_first()?;
                if *kind == CANCEL { Some(topic) } else { None }
            }
            Traffic::Command(name, rest) => {
                if name.as_slice() == b"CANCEL".as_slice() {
                    Some(rest.as_slice())
                } else {
                    None
                }
            }
        }
    }
}

/// The body of its frame, if a message has one.
fn sole_frame(message: &Message) -> Option<&[u8]>
    ensures { option_map (λ frame. frame.now) result ≡ sole_body message.now }
{
    let frames = message.as_slice();
    if frames.len() == 1 {
        Some(frames[0].as_slice())
    } else {
        None
    }
}
