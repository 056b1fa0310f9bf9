//! Calls of the wire: octets read and written, and what a subscriber's traffic is to a relay.

use crate::marks::{begin, end, say, say_frames, say_number, say_octets, text_at};
use iopub_relay::{Event, door_event};
use listed::Octets;
use std::alloc::AllocError;
use zmtp_wire::{Decoder, Fed, Limits, Message, SocketType, Traffic, ready_text, write_message};

/// Feeds a decoder with pieces, and tells what it makes of each.
pub(crate) fn decode<R: Print + AllocGlobal>(rt: &R, pieces: &[Vec<u8>]) {
    let mut decoder = Decoder::new(rt.alloc(), Limits::usual());
    for piece in pieces {
        begin(rt);
        let fed = decoder.feed(piece);
        end(rt);
        tell_fed(rt, &fed);
        drop(fed);
    }
}

/// Tells what became whole in a piece, and the fault behind it.
fn tell_fed<R: Print + AllocGlobal>(rt: &R, fed: &Fed) {
    for traffic in fed.traffic.as_slice() {
        match traffic {
            Traffic::Message(message) => {
                say(rt, "message");
                say_frames(rt, message.as_slice());
            }
            Traffic::Command(name, rest) => {
                say(rt, "command");
                say_octets(rt, name.as_slice());
                say_octets(rt, rest.as_slice());
            }
        }
    }
    if let Some(fault) = fed.fault {
        say_number(rt, fault.number());
    }
}

/// Tells the READY of a socket.
pub(crate) fn ready<R: Print + AllocGlobal>(rt: &R, words: &[Vec<u8>]) {
    if let Some(socket) = SocketType::from_name(text_at(words, 0).as_bytes()) {
        begin(rt);
        let text = ready_text(rt.alloc(), socket);
        end(rt);
        match &text {
            Ok(octets) => say_octets(rt, octets),
            Err(fault) => say_number(rt, fault.number()),
        }
    }
}

/// Tells the text of a message.
pub(crate) fn write<R: Print + AllocGlobal>(rt: &R, frames: &[Vec<u8>]) {
    if frames.is_empty() {
        return;
    }
    let mut out = Vec::new(rt.alloc());
    begin(rt);
    let written = write_message(rt.alloc(), frames, &mut out);
    end(rt);
    say_octets(rt, &out);
    if let Err(fault) = written {
        say_number(rt, fault.number());
    }
}

/// Tells what traffic of subscriber 7 is to a relay: a message of a frame, or a command.
pub(crate) fn door<R: Print + AllocGlobal>(rt: &R, words: &[Vec<u8>]) -> Result<(), AllocError> {
    let alloc = rt.alloc();
    let traffic = match words {
        [name, rest] => Traffic::Command(
            Octets::new(name.as_slice().to_vec(alloc)?),
            Octets::new(rest.as_slice().to_vec(alloc)?),
        ),
        [frame, ..] => Traffic::Message(Message::new(Vec::from_array(
            alloc,
            [frame.as_slice().to_vec(alloc)?],
        )?)),
        [] => return Ok(()),
    };
    tell_door(rt, &traffic);
    Ok(())
}

/// Tells an event of a subscriber.
fn tell_event<R: Print>(rt: &R, event: &Event<u8>) {
    match event {
        Event::Subscribe(_, topic) => tell_topic(rt, "asks for", topic),
        Event::Cancel(_, topic) => tell_topic(rt, "gives up", topic),
        Event::Pong(_, context) => tell_topic(rt, "pings", context),
        Event::Message(_) | Event::Attach(..) | Event::Detach(_) => say(rt, "another"),
    }
}

/// Tells what a subscriber does, and the topic or the context of that.
fn tell_topic<R: Print>(rt: &R, what: &str, topic: &Octets) {
    say(rt, what);
    say_octets(rt, topic.as_slice());
}

/// Tells what traffic is to a relay.
fn tell_door<R: Print + AllocGlobal>(rt: &R, traffic: &Traffic) {
    begin(rt);
    let event: Result<Option<Event<u8>>, AllocError> = door_event(rt.alloc(), 7, traffic);
    end(rt);
    match &event {
        Ok(Some(event)) => tell_event(rt, event),
        Ok(None) => say(rt, "nothing"),
        Err(_) => say(rt, "wanting"),
    }
    drop(event);
}
