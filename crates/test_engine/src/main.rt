//! `test_engine`: what engines publish and reply, of requests that are told beforehand, over `Scarce` stamps and
//! `Refusing` sinks. What they have to is told by 'Messaging in Jupyter' 5.3.
//!
//! Each line of standard input is printed. One that begins with `#` says nothing. The others stand in blocks with empty
//! lines between, and what a block comes to is printed behind it. Its first line says what engine there is: `shell` or
//! `control`, its language, as `arith`, `letters`, or `wanting`, which are letters that find no memory, and then maybe
//!
//! - `noes=N`: how often a stop says no at first; without, it always does;
//! - `first=N`, `last=N`: the first and the last push that the sink refuses, from 1 on;
//! - `call=N`: the call of the stamp that is refused;
//! - `each`: there is a fresh engine for each request, and what it comes to is printed behind it;
//! - `counted`: of what is published is printed how many messages they are;
//! - `wire`: each other line is octets that a peer sends, from its greeting on, in place of a request. Of the session
//!   is told how it ends and what was written to the peer. In octets `%` and two digits are one, and each other sign is
//!   its own. Then there may be, too,
//! - `width=N`, `fails=N`, `turns=N`: how many octets a read gives at most, which one fails, and how many there may be;
//! - `takes=N`, `jams=N`: how many octets a write takes at most, and which write fails;
//! - `N..M` in place of the N of `fails`, `turns` or `jams`: there is a session with each of these in turn. Of each is
//!   told how it ends, and whether it wrote all that a session without it writes, or a beginning; `counted`, also how
//!   many octets, and how many messages were published. Places in a row that come to the same share a line.
//!
//! Each other line is a request: the id of its message, its type and its content; or `start`, which has the engine say
//! that it starts. Of each is told what it comes to, in a line; then come the messages that were published, each in a
//! line, until the engine was closed. A request that comes back is asked once more.
//!
//! A message is told by its topic, where it has one, its type and its id, the id and the type of what it answers, and
//! its content. All else of it is the same in each, and a message in which it isn't is printed whole.
#![tactic(auto)]

mod device;
mod engine;
mod message;
mod setup;
mod wire;

use engine::answers;
use setup::Setup;
use std::io;

/// Prints each block with what it comes to.
fn main(rt: HostRuntime) -> io::Result<()> {
    let mut requests = Vec::new(rt.alloc());
    let printed = print_blocks(&rt, &mut requests);
    drop(requests);
    printed
}

/// Prints each block with what it comes to. The requests of a block are gathered here.
fn print_blocks<R: Input + Print + AllocGlobal>(
    rt: &R,
    requests: &mut Vec<String>,
) -> io::Result<()> {
    let mut setup = None;
    for line in rt.lines(rt.alloc()) {
        take_line(rt, &mut setup, requests, line?)?;
    }
    print_block(rt, setup, requests)
}

/// Prints a line, behind what the block comes to that it ends, and gathers it where it is a request.
fn take_line<R: Print + AllocGlobal>(
    rt: &R,
    setup: &mut Option<Setup>,
    requests: &mut Vec<String>,
    line: String,
) -> io::Result<()> {
    if line.is_empty() {
        drop(line);
        end_block(rt, setup, requests)?;
        return println!(rt; "");
    }
    if let Err(error) = println!(rt; "{line}") {
        drop(line);
        return Err(error);
    }
    if line.starts_with('#') {
        drop(line);
        return Ok(());
    }
    let Some(known) = *setup else {
        let read = Setup::read(line.as_str());
        drop(line);
        *setup = Some(read?);
        return Ok(());
    };
    requests.push(line)?;
    if known.is_each {
        return print_block(rt, *setup, requests);
    }
    Ok(())
}

/// Prints what a block comes to, and forgets what engine it has.
fn end_block<R: Print + AllocGlobal>(
    rt: &R,
    setup: &mut Option<Setup>,
    requests: &mut Vec<String>,
) -> io::Result<()> {
    print_block(rt, *setup, requests)?;
    *setup = None;
    Ok(())
}

/// Prints what the requests of a block come to, if there are any, and forgets them.
fn print_block<R: Print + AllocGlobal>(
    rt: &R,
    setup: Option<Setup>,
    requests: &mut Vec<String>,
) -> io::Result<()> {
    if let Some(setup) = setup
        && !requests.is_empty()
    {
        let answers = answers(rt.alloc(), setup, requests.as_slice())?;
        print!(rt; "{answers}")?;
        requests.clear();
    }
    Ok(())
}
