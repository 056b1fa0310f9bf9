//! Calls that need no memory, so none of what they ask for can be refused.

use crate::clock::clock;
use crate::marks::{begin, end, say, say_frames, say_number, say_octets, text_at};
use crate::steps::Shelf;
use arith_shell::ShellArith;
use conn_file::ConnFault;
use interp_core::{InterpFault, Interpreter};
use iopub_queue::{CoreFault, ListSink, OpenFault, Publish, open_queue};
use iopub_relay::{Event, Pumped, Relay};
use jmsg_envelope::{EnvelopeFault, Signer, hmac_sha256};
use jmsg_types::{ContentFault, Publication, State, buffers_of, reply_type, topic_of, type_of};
use kernel_engine::{Engine, EngineFault, Side};
use kernel_program::end_status;
use kernel_workers::KernelFault;
use listed::{Frames, Octets, Row, Text};
use std::alloc::{AllocError, Global};
use std::sync::Wait;
use test_examples::Scarce;
use zmtp_connection::ConnectionFault;
use zmtp_wire::{
    Decoder, Limits, Message, SocketType, Traffic, WireFault, frame_head, greeting, pong_text,
    read_greeting, read_ping, read_ready, text_len,
};

/// Makes the calls of this name.
pub(crate) fn spared<R: Print + AllocGlobal + Wait + Copy + Drop>(
    rt: &R,
    words: &[Vec<u8>],
) -> Result<(), AllocError> {
    match text_at(words, 0) {
        "ready" => tell_ready(rt, &command_of(rt.alloc(), words)?),
        "ping" => tell_pong(rt, &command_of(rt.alloc(), words)?),
        "types" => types(rt)?,
        "sink" => sink(rt)?,
        "relay" => relay(rt)?,
        "learn" => learn(rt)?,
        "complete" => complete(rt)?,
        "settle" => settle(rt)?,
        "new" => made(rt)?,
        "engine" => engine(rt)?,
        "values" => values(rt)?,
        name => plain(rt, name, words),
    }
    Ok(())
}

/// Makes the calls of this name, which nothing is made for.
fn plain<R: Print + AllocGlobal>(rt: &R, name: &str, words: &[Vec<u8>]) {
    match name {
        "greeting" => greet(rt),
        "heads" => heads(rt),
        "length" => length(rt, words),
        "hmac" => hmac(rt),
        "numbers" => numbers(rt),
        "arithmetic" => arithmetic(rt),
        "statuses" => statuses(rt),
        "clock" => clock(rt),
        _ => {}
    }
}

/// The command of the second word's name, with the third word as its rest.
fn command_of(alloc: Global, words: &[Vec<u8>]) -> Result<Traffic, AllocError> {
    let [_, name, rest, ..] = words else {
        return Err(AllocError);
    };
    Ok(Traffic::Command(
        Octets::new(name.as_slice().to_vec(alloc)?),
        Octets::new(rest.as_slice().to_vec(alloc)?),
    ))
}

/// Reads a READY.
fn tell_ready<R: Print>(rt: &R, first: &Traffic) {
    begin(rt);
    let read = read_ready(first, SocketType::Router);
    end(rt);
    match read {
        Ok(_) => say(rt, "accepted"),
        Err(fault) => say_number(rt, fault.number()),
    }
}

/// Reads a PING, and tells its PONG.
fn tell_pong<R: Print>(rt: &R, traffic: &Traffic) {
    begin(rt);
    let context = read_ping(traffic);
    let pong = pong_text(context.unwrap_or(b""));
    let octets = pong.octets();
    end(rt);
    say_octets(rt, octets);
}

/// Tells the greeting's first octets, and reads it.
fn greet<R: Print>(rt: &R) {
    begin(rt);
    let ours = greeting();
    let read = read_greeting(&ours);
    end(rt);
    say_octets(rt, ours.get(..12).unwrap_or(&[]));
    match read {
        Ok(_) => say(rt, "accepted"),
        Err(fault) => say_number(rt, fault.number()),
    }
}

/// Tells the heads of a short frame and of a long one, after which more come.
fn heads<R: Print>(rt: &R) {
    begin(rt);
    let short = frame_head(false, 3);
    let long = frame_head(true, 256);
    let octets = (short.octets(), long.octets());
    end(rt);
    say_octets(rt, octets.0);
    say_octets(rt, octets.1);
}

/// Tells how long the text of a message is.
fn length<R: Print>(rt: &R, frames: &[Vec<u8>]) {
    begin(rt);
    let len = text_len(frames);
    end(rt);
    say_number(rt, u8::try_from(len.unwrap_or(0)).unwrap_or(u8::MAX));
}

/// Tells the second code of RFC 4231.
fn hmac<R: Print>(rt: &R) {
    begin(rt);
    let code = hmac_sha256(b"Jefe", &[b"what do ya want", b" for nothing?"]);
    end(rt);
    say_octets(rt, &code);
}

/// What is displayed, with a buffer.
fn displayed(alloc: Global) -> Result<Publication, AllocError> {
    let buffer = Vec::from_slice(alloc, b"buffer")?;
    let buffers = Frames::new(Vec::from_array(alloc, [buffer])?);
    let text = Text::new(String::new(alloc));
    Ok(Publication::Display { text, buffers })
}

/// Tells types and topics, and how many buffers go with what is displayed.
fn types<R: Print + AllocGlobal>(rt: &R) -> Result<(), AllocError> {
    let display = displayed(rt.alloc())?;
    let busy = Publication::Status(State::Busy);
    begin(rt);
    let reply = reply_type("execute_request").unwrap_or("none");
    let its = (type_of(&busy), topic_of(&busy));
    let buffers = buffers_of(&display).len();
    end(rt);
    drop(busy);
    drop(display);
    say(rt, reply);
    say(rt, its.0);
    say(rt, its.1);
    say_number(rt, u8::try_from(buffers).unwrap_or(u8::MAX));
    Ok(())
}

/// The numbers of faults of kernels, of which the first is of the interface of languages.
fn numbers_of_kernels() -> [u8; 4] {
    [
        InterpFault::TooDeep.number(),
        KernelFault::NoThread.number(),
        ConnectionFault::Turns.number(),
        EngineFault::Worn.number(),
    ]
}

/// Tells the number of a fault of each crate.
fn numbers<R: Print>(rt: &R) {
    begin(rt);
    let numbers = [
        WireFault::Signature.number(),
        EnvelopeFault::NoDelimiter.number(),
        ContentFault::NotJson.number(),
        ConnFault::NotJson.number(),
        OpenFault::Count.number(),
        CoreFault::OutOfMemory.number(),
    ];
    let others = numbers_of_kernels();
    end(rt);
    for number in numbers {
        say_number(rt, number);
    }
    for number in others {
        say_number(rt, number);
    }
}

/// Makes a sink, looks at what another has, and takes that out.
fn sink<R: Print + AllocGlobal>(rt: &R) -> Result<(), AllocError> {
    let mut full: ListSink<u8> = ListSink::new(rt.alloc());
    let Ok(()) = full.publish(b'a') else {
        return Err(AllocError);
    };
    begin(rt);
    let empty: ListSink<u8> = ListSink::new(rt.alloc());
    let counts = (empty.items().len(), full.items().len());
    let items = full.into_items();
    end(rt);
    say_number(rt, u8::try_from(counts.0).unwrap_or(u8::MAX));
    say_number(rt, u8::try_from(counts.1).unwrap_or(u8::MAX));
    say_octets(rt, &items);
    drop(empty);
    Ok(())
}

/// Makes a decoder and a signer.
fn made<R: Print + AllocGlobal>(rt: &R) -> Result<(), AllocError> {
    let key = Vec::from_slice(rt.alloc(), b"Jefe")?;
    begin(rt);
    let decoder = Decoder::new(rt.alloc(), Limits::usual());
    let signer = Signer::new(key);
    end(rt);
    drop(decoder);
    drop(signer);
    say(rt, "made");
    Ok(())
}

/// Makes an engine.
fn engine<R: Print + AllocGlobal>(rt: &R) -> Result<(), AllocError> {
    let alloc = rt.alloc();
    let key = Vec::from_slice(alloc, b"Jefe")?;
    begin(rt);
    let sink: ListSink<Event<Shelf>> = ListSink::new(alloc);
    let interp = ShellArith::new(alloc);
    let engine = Engine::new(Side::Shell, interp, sink, Scarce::new(0), Signer::new(key));
    end(rt);
    drop(engine);
    say(rt, "made");
    Ok(())
}

/// Tells how many steps are left of a cell, at arithmetic that is made for that.
fn arithmetic<R: Print + AllocGlobal>(rt: &R) {
    let alloc = rt.alloc();
    let mut other = ShellArith::new(alloc);
    let Ok(cell) = other.begin(alloc, "1; 2; 3") else {
        return;
    };
    begin(rt);
    let interp = ShellArith::new(alloc);
    let left = interp.steps_left(&cell);
    end(rt);
    say_number(rt, u8::try_from(left).unwrap_or(u8::MAX));
}

/// Tells the statuses with which a kernel ends.
fn statuses<R: Print>(rt: &R) {
    begin(rt);
    let statuses = [end_status(true), end_status(false)];
    end(rt);
    for status in statuses {
        say_number(rt, status);
    }
}

/// Makes values of `Vec` and `String`, and takes these out again.
fn values<R: Print + AllocGlobal>(rt: &R) -> Result<(), AllocError> {
    let alloc = rt.alloc();
    let (octets, items) = (
        Vec::from_slice(alloc, b"ab")?,
        Vec::from_slice(alloc, &[1, 2, 3])?,
    );
    let text = String::from_str(alloc, "text")?;
    let mut frames = Vec::with_capacity(alloc, 1)?;
    frames.push_reserved(Vec::from_slice(alloc, b"frame")?);
    let mut message = Vec::with_capacity(alloc, 1)?;
    message.push_reserved(Vec::from_slice(alloc, b"message")?);
    begin(rt);
    let octets = Octets::new(octets).into_vec();
    let items = Row::new(items).into_vec();
    let text = Text::new(text).into_string();
    let frames = Frames::new(frames).into_vec();
    let message = Message::new(message).into_vec();
    end(rt);
    say_octets(rt, &octets);
    say_octets(rt, &items);
    say(rt, text.as_str());
    say_frames(rt, &frames);
    say_frames(rt, &message);
    Ok(())
}

/// Pumps a close and nothing, looks at a relay with a subscriber, and gives up a publisher.
fn relay<R: Print + AllocGlobal + Wait + Copy + Drop>(rt: &R) -> Result<(), AllocError> {
    let alloc = rt.alloc();
    let Ok((publishers, taker)) = open_queue(rt, alloc, 2, 8) else {
        return Err(AllocError);
    };
    let mut publishers = publishers.into_iter();
    let (Some(mut zero), Some(one)) = (publishers.next(), publishers.next()) else {
        drop(taker);
        drop(publishers);
        return Err(AllocError);
    };
    let _ = zero.publish(Event::Attach(1, Shelf::new()));
    let mut relay: Relay<Shelf, R> = Relay::new(alloc, taker);
    let came = relay.pump();
    begin(rt);
    let closed = zero.close();
    let pumped = [relay.pump(), relay.pump()];
    let abandoned = one.abandon();
    let state = (relay.failed(1), relay.no_room());
    end(rt);
    tell_pumped(rt, [came, pumped[0], pumped[1]]);
    tell_state(rt, state);
    drop(closed);
    drop(abandoned);
    drop(relay);
    Ok(())
}

/// Makes a relay, and has it learn what a publisher tells.
fn learn<R: Print + AllocGlobal + Wait + Copy + Drop>(rt: &R) -> Result<(), AllocError> {
    let alloc = rt.alloc();
    let Ok((publishers, taker)) = open_queue(rt, alloc, 1, 8) else {
        return Err(AllocError);
    };
    let Some(mut zero) = publishers.into_iter().next() else {
        drop(taker);
        return Err(AllocError);
    };
    begin(rt);
    let mut relay: Relay<Shelf, R> = Relay::new(alloc, taker);
    relay.learn(zero.tell());
    end(rt);
    say(rt, "learnt");
    drop(zero);
    drop(relay);
    Ok(())
}

/// Pumps until all is complete, and settles then.
fn complete<R: Print + AllocGlobal + Wait + Copy + Drop>(rt: &R) -> Result<(), AllocError> {
    let alloc = rt.alloc();
    let mut tokens = Vec::with_capacity(alloc, 1)?;
    let Ok((publishers, taker)) = open_queue(rt, alloc, 1, 8) else {
        drop(tokens);
        return Err(AllocError);
    };
    let Some(zero) = publishers.into_iter().next() else {
        drop(tokens);
        drop(taker);
        return Err(AllocError);
    };
    begin(rt);
    let mut relay: Relay<Shelf, R> = Relay::new(alloc, taker);
    let Ok(closed) = zero.close() else {
        unreachable!();
    };
    let pumped = [relay.pump(), relay.pump()];
    tokens.push_reserved(closed);
    let is_whole = relay.settle_all(tokens);
    end(rt);
    tell_pumped(rt, pumped);
    say(rt, if is_whole { "whole" } else { "beginning" });
    drop(relay);
    Ok(())
}

/// Settles with a publisher whose close wasn't taken, after it told its number.
fn settle<R: Print + AllocGlobal + Wait + Copy + Drop>(rt: &R) -> Result<(), AllocError> {
    let alloc = rt.alloc();
    let Ok((publishers, taker)) = open_queue(rt, alloc, 1, 8) else {
        return Err(AllocError);
    };
    let Some(zero) = publishers.into_iter().next() else {
        drop(taker);
        return Err(AllocError);
    };
    begin(rt);
    let number = zero.number();
    let Ok(closed) = zero.close() else {
        unreachable!();
    };
    let numbers = (number, closed.number());
    end(rt);
    say_number(rt, u8::try_from(numbers.0).unwrap_or(u8::MAX));
    say_number(rt, u8::try_from(numbers.1).unwrap_or(u8::MAX));
    let tokens = Vec::from_array(alloc, [closed])?;
    let mut relay: Relay<Shelf, R> = Relay::new(alloc, taker);
    begin(rt);
    let is_whole = relay.settle_all(tokens);
    end(rt);
    say(rt, if is_whole { "whole" } else { "beginning" });
    drop(relay);
    Ok(())
}

/// Tells whether a subscriber has failed, and how many found no room.
fn tell_state<R: Print>(rt: &R, state: (bool, u64)) {
    say(rt, if state.0 { "failed" } else { "well" });
    say_number(rt, u8::try_from(state.1).unwrap_or(u8::MAX));
}

/// Tells what pumps did.
fn tell_pumped<R: Print, const COUNT: usize>(rt: &R, pumped: [Pumped; COUNT]) {
    for one in pumped {
        say(
            rt,
            match one {
                Pumped::Did => "did",
                Pumped::Closed(_) => "closed",
                Pumped::Empty => "empty",
                Pumped::Complete => "complete",
                Pumped::NoTopic(_) | Pumped::NoRoom(_) => "wanting",
            },
        );
    }
}
