//! Cases of the wire and of connections as data: each line of standard input is a case, and is printed with its answer
//! behind it. Empty lines, and those that begin with `#`, are printed as they are.
//!
//! `name NAME WORD..` gives octets a name, and `exchange WORD..` has a peer and us exchange octets: what their words
//! are stands at the head of `connection.rt`. Each other case is a call of `zmtp_wire`. The first lines of `stdin` say
//! which there are.
#![tactic(auto)]

mod connection;
mod spelling;
mod wire;

use connection::names::Names;
use std::alloc::Global;
use std::io;
use zmtp_connection::law_open_or_turned_away;

/// Answers the cases of standard input.
fn main(rt: HostRuntime) -> io::Result<()> {
    let alloc = rt.alloc();
    // What the answers rest on: no peer is both open and turned away.
    law_open_or_turned_away();
    let mut names = Names::new(alloc);
    for line in rt.lines(alloc) {
        let line = line?;
        let mut said = String::new(alloc);
        answer(alloc, &mut names, line.as_str(), &mut said)?;
        println!(rt; "{line}{said}")?;
    }
    Ok(())
}

/// Says what a line asks for: nothing where it is empty or a comment, or gives octets a name.
fn answer(alloc: Global, names: &mut Names, line: &str, said: &mut String) -> io::Result<()> {
    let Some((command, words)) = line.split_once(' ') else {
        return Ok(());
    };
    match command {
        "#" => Ok(()),
        "name" => names.give(words),
        "exchange" => connection::answer(alloc, names, words, said),
        _ => Ok(wire::answer(alloc, command, words, said)?),
    }
}
