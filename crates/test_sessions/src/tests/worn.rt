//! The last request for which an engine has ids, and the first for which it has none; the last number of a message.

use jmsg_envelope::Signer;
use jmsg_types::{Publication, Reply, State};
use kernel_engine::{Asked, EngineFault, Heading, Parts, Publishing, Response, Side};
use listed::{Frames, Octets, Text};
use std::alloc::{AllocError, Global};
use std::io;
use std::test::Fail;
use test_examples::{After, DATE, Letters, Refusing, Scarce, request};

/// What messages are made with, from this number on.
fn from_number(alloc: Global, next: u64) -> Publishing<Refusing, Scarce> {
    Publishing {
        sink: Refusing::new(alloc, 0, 0),
        signer: Signer::new(Vec::new(alloc)),
        stamp: Scarce::new(0),
        next,
    }
}

/// The next number, and how many messages were published.
fn left(publishing: Publishing<Refusing, Scarce>) -> (u64, usize) {
    let found = (publishing.next, publishing.sink.items.len());
    drop(publishing);
    found
}

/// The number of the fault by which a request was refused, or 0.
fn number_of(handled: Result<Response, EngineFault>) -> u8 {
    match handled {
        Ok(response) => {
            drop(response);
            0
        }
        Err(fault) => {
            let number = fault.number();
            drop(fault);
            number
        }
    }
}

/// What an engine that gives this number next answers a request that has a reply: a fault's number, or 0; and the next
/// number then, with how many messages it published.
fn handled_at(alloc: Global, next: u64) -> io::Result<(u8, (u64, usize))> {
    let request = request(alloc, "q", "interrupt_request", "{}")?;
    let stop = After::new(u64::MAX);
    let mut parts = Parts {
        side: Side::Shell,
        interp: Letters { is_wanting: false },
        count: 0,
        publishing: from_number(alloc, next),
        owed: None,
    };
    let does = parts.read(alloc, &request);
    let handled = parts.finish(alloc, Asked { request, does }, &stop);
    drop(stop);
    let Parts {
        side: _,
        interp: _,
        count: _,
        publishing,
        owed,
    } = parts;
    drop(owed);
    Ok((number_of(handled), left(publishing)))
}

#[test]
fn ids_end_behind_the_two_to_the_62nd(rt: HostRuntime) -> Result<(), Fail> {
    let last = 1 << 62;
    for (next, due) in [(last, (0, (last + 3, 2))), (last + 1, (75, (last + 1, 0)))] {
        assert!(rt; handled_at(rt.alloc(), next)? == due, "from {next}");
    }
    Ok(())
}

/// What the messages of a block share.
fn heading(alloc: Global) -> Result<Heading, AllocError> {
    let date = String::from_str(alloc, DATE)?;
    let parent = Vec::from_slice(alloc, b"{}")?;
    Ok(Heading {
        date: Text::new(date),
        parent: Octets::new(parent),
    })
}

/// Whether a publication with this number is published; and the next number then, with how many messages it adds.
fn put_at(alloc: Global, next: u64) -> Result<(bool, (u64, usize)), AllocError> {
    let heading = heading(alloc)?;
    let mut publishing = from_number(alloc, next);
    let idle = Publication::Status(State::Idle);
    let is_put = publishing.publish(alloc, &heading, idle).is_ok();
    drop(heading);
    Ok((is_put, left(publishing)))
}

/// Whether there is a reply with this number, and the next number then.
fn reply_at(alloc: Global, next: u64) -> Result<(bool, u64), AllocError> {
    let heading = heading(alloc)?;
    let mut publishing = from_number(alloc, next);
    let identities = Frames::new(Vec::new(alloc));
    let reply = Some(Reply::Interrupt);
    let made = publishing.reply(alloc, &heading, identities, "interrupt_request", reply);
    drop(heading);
    let is_made = match made {
        Ok(Some(frames)) => {
            drop(frames);
            true
        }
        Ok(None) | Err(AllocError) => false,
    };
    let (next, _) = left(publishing);
    Ok((is_made, next))
}

/// Whether there are a publication and a reply with this number, or neither, and this is the next one then.
fn are_made(alloc: Global, next: u64, is_made: bool, due: u64) -> Result<bool, AllocError> {
    let put = put_at(alloc, next)?;
    let reply = reply_at(alloc, next)?;
    let count: usize = if is_made { 1 } else { 0 };
    Ok(put == (is_made, (due, count)) && reply == (is_made, due))
}

#[test]
fn numbers_end_behind_the_two_to_the_63rd(rt: HostRuntime) -> Result<(), Fail> {
    let last = 1 << 63;
    let worn = last + 1;
    for (next, is_made, due) in [
        (last - 1, true, last),
        (last, true, worn),
        (worn, false, worn),
    ] {
        assert!(rt; are_made(rt.alloc(), next, is_made, due)?, "from {next}");
    }
    Ok(())
}
