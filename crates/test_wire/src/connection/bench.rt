//! What a case is done on.

use crate::connection::clerk::{Clerk, Leave, Want};
use crate::connection::names::Names;
use crate::connection::peer::Peer;
use crate::connection::shelf::Shelf;
use crate::connection::sink::Sink;
use crate::spelling::Spelled;
use std::alloc::Global;
use std::{io, mem};
use zmtp_connection::{ConnectionEnd, ConnectionFault, Ending, OpenPeer, echo, hear, serve, shake};
use zmtp_wire::{Counted, SocketType};

/// A peer, and what meets it.
#[derive(Drop)]
pub(crate) struct Bench<'n> {
    /// The names of some octets.
    names: &'n Names,
    /// What memory is taken from.
    alloc: Global,
    /// What `$` stands for.
    place: u64,
    /// How many reads an exchange may make.
    turns: u64,
    /// What is read from.
    peer: Peer,
    /// What is written to.
    sink: Sink,
    /// What traffic is put into.
    shelf: Shelf,
    /// What answers messages.
    clerk: Clerk,
    /// The peer, once hands were shaken.
    met: Option<OpenPeer>,
    /// Why a connection couldn't go on, once one couldn't.
    fault: Option<ConnectionFault>,
    /// What was told.
    pub(crate) text: String,
}

impl<'n> Bench<'n> {
    /// A bench for a case at this place.
    pub(crate) fn new(alloc: Global, names: &'n Names, place: u64) -> Bench<'n> {
        Bench {
            names,
            alloc,
            place,
            turns: 1000,
            peer: Peer::new(alloc),
            sink: Sink::new(alloc),
            shelf: Shelf::new(alloc),
            clerk: Clerk {
                answered: 0,
                last: u8::MAX,
                leave: Leave::Failed(Want::Worn),
            },
            met: None,
            fault: None,
            text: String::new(alloc),
        }
    }

    /// Does what a word of a case says.
    ///
    /// # Errors
    ///
    /// Where it says nothing, or memory was refused.
    pub(crate) fn read_word(&mut self, word: &str) -> io::Result<()> {
        if let Some((key, value)) = word.split_once('=') {
            if key == "shake" {
                return self.open(value);
            }
            return self.set(key, self.number(value)?);
        }
        if self.exchange(word)? || self.tell(word)? || self.choose(word) {
            return Ok(());
        }
        self.names.add(&mut self.peer.octets, word)
    }

    /// The number that a word says: digits, or the place of the case, or so many places behind it.
    fn number(&self, word: &str) -> io::Result<u64> {
        let (base, digits) = match word.strip_prefix('$') {
            Some("") => (self.place, "0"),
            Some(behind) => (self.place, behind),
            None => (0, word),
        };
        match digits.parse::<u64>() {
            Ok(number) => Ok(base.saturating_add(number)),
            Err(_) => Err(io::Error::other("no number")),
        }
    }

    /// Sets what a key names, or tells whether it was so often.
    fn set(&mut self, key: &str, number: u64) -> io::Result<()> {
        let count = number as usize;
        match key {
            "cut" => self.peer.cut = count,
            "from" => self.peer.place = count,
            "length" => self.peer.octets.truncate(count),
            "width" => self.peer.width = count,
            "pace" => self.peer.pace = count,
            "fails" => self.peer.fails_at = number,
            "room" => self.sink.room = count,
            "takes" => self.sink.width = count,
            "places" => self.shelf.places = number,
            "last" => self.clerk.last = u8::try_from(number).unwrap_or(u8::MAX),
            "turns" => self.turns = number,
            _ => return self.compare(key, number),
        }
        Ok(())
    }

    /// Tells whether something was so often, and else how often it was.
    fn compare(&mut self, key: &str, number: u64) -> io::Result<()> {
        let count = match key {
            "reads" => self.peer.reads,
            "asked" => self.shelf.asked,
            "unfinished" => self.shelf.unfinished.get(),
            "answered" => u64::from(self.clerk.answered),
            _ => return Err(io::Error::other("no key")),
        };
        if count == number {
            write!(self.text, " {key} so often.")?;
        } else {
            write!(self.text, " {key} {count} times.")?;
        }
        Ok(())
    }

    /// Chooses what a word names, or has something fresh, and answers whether the word says so.
    fn choose(&mut self, word: &str) -> bool {
        match word {
            "/" => self.peer.cut = self.peer.octets.len(),
            "endless" => self.peer.is_endless = true,
            "broken" => self.sink.is_broken = true,
            "wanting" => self.shelf.is_wanting = true,
            "worn" => self.clerk.leave = Leave::Failed(Want::Worn),
            "memory" => self.clerk.leave = Leave::Failed(Want::Memory),
            "restart" => self.clerk.leave = Leave::Shutdown(true),
            "shutdown" => self.clerk.leave = Leave::Shutdown(false),
            "peer" => self.peer = Peer::new(self.alloc),
            "anew" => {
                self.peer = Peer::new(self.alloc);
                self.shelf = Shelf::new(self.alloc);
            }
            _ => return false,
        }
        true
    }

    /// Tells what a word names, and answers whether the word says so.
    fn tell(&mut self, word: &str) -> io::Result<bool> {
        match word {
            "written" => {
                self.text.push_str(" wrote")?;
                self.names
                    .spell(&mut self.text, self.sink.octets.as_slice())?;
                self.text.push('.')?;
            }
            "put" => {
                let put = Spelled(self.shelf.text.as_slice());
                write!(self.text, " put {put}.")?;
            }
            "met" => {
                if let Some(peer) = &self.met {
                    let socket = peer.socket();
                    write!(self.text, " met {socket:?}.")?;
                }
            }
            "identity" => {
                if let Some(peer) = &self.met {
                    let identity = Spelled(peer.identity());
                    write!(self.text, " identity {identity}.")?;
                }
            }
            "why" => {
                if let Some(fault) = self.fault {
                    write!(self.text, " {fault}.")?;
                }
            }
            _ => return Ok(false),
        }
        Ok(true)
    }

    /// Shakes hands as a socket of this name, and tells how that ended.
    fn open(&mut self, name: &str) -> io::Result<()> {
        let ours = socket_of(name)?;
        match self.shake(ours) {
            Ok(socket) => write!(self.text, " met {socket:?}.")?,
            Err(end) => self.tell_end(end)?,
        }
        Ok(())
    }

    /// Tells how a connection ended.
    fn tell_end(&mut self, end: ConnectionEnd) -> io::Result<()> {
        write!(self.text, " {end:?}.")?;
        if let ConnectionEnd::Failed(fault) = end {
            self.fault = Some(fault);
        }
        Ok(())
    }

    /// Tells how serving ended.
    fn tell_ending(&mut self, ending: Ending<Leave>) -> io::Result<()> {
        match ending {
            Ending::Connection(end) => self.tell_end(end),
            Ending::Host(leave) => Ok(write!(self.text, " {leave:?}.")?),
        }
    }

    /// Shakes hands as a socket of this type: of which type the peer's is, or how that ended.
    fn shake(&mut self, ours: SocketType) -> Result<SocketType, ConnectionEnd> {
        let alloc = self.alloc;
        let mut reader = Counted::new(mem::replace(&mut self.peer, Peer::new(alloc)));
        let mut writer = Counted::new(mem::replace(&mut self.sink, Sink::new(alloc)));
        let met = shake(alloc, &mut reader, &mut writer, ours, self.turns);
        self.peer = reader.into_inner();
        self.sink = writer.into_inner();
        let peer = met?;
        let socket = peer.socket();
        self.met = Some(peer);
        Ok(socket)
    }

    /// Has the exchange that a word names and tells how it ended, or answers that the word names none.
    fn exchange(&mut self, word: &str) -> io::Result<bool> {
        match word {
            "echo" => {
                let end = self.echo();
                self.tell_end(end)?;
            }
            "serve" => {
                let ending = self.serve();
                self.tell_ending(ending)?;
            }
            "hear" => {
                let end = self.hear()?;
                self.tell_end(end)?;
            }
            _ => return Ok(false),
        }
        Ok(true)
    }

    /// How echoing what the peer sends ends.
    fn echo(&mut self) -> ConnectionEnd {
        let alloc = self.alloc;
        let mut reader = Counted::new(mem::replace(&mut self.peer, Peer::new(alloc)));
        let mut writer = Counted::new(mem::replace(&mut self.sink, Sink::new(alloc)));
        let end = echo(alloc, &mut reader, &mut writer, self.turns);
        self.peer = reader.into_inner();
        self.sink = writer.into_inner();
        end
    }

    /// How answering what the peer sends ends.
    fn serve(&mut self) -> Ending<Leave> {
        let alloc = self.alloc;
        let mut reader = Counted::new(mem::replace(&mut self.peer, Peer::new(alloc)));
        let mut writer = Counted::new(mem::replace(&mut self.sink, Sink::new(alloc)));
        let router = SocketType::Router;
        let ending = serve(
            alloc,
            &mut reader,
            &mut writer,
            &mut self.clerk,
            router,
            self.turns,
        );
        self.peer = reader.into_inner();
        self.sink = writer.into_inner();
        ending
    }

    /// How hearing a peer that was met ends.
    ///
    /// # Errors
    ///
    /// Where none was met.
    fn hear(&mut self) -> io::Result<ConnectionEnd> {
        let alloc = self.alloc;
        let Some(mut met) = self.met.take() else {
            return Err(io::Error::other("no peer"));
        };
        let mut reader = Counted::new(mem::replace(&mut self.peer, Peer::new(alloc)));
        let end = hear(alloc, &mut reader, &mut met, &mut self.shelf, self.turns);
        self.peer = reader.into_inner();
        self.met = Some(met);
        Ok(end)
    }
}

/// The type of a socket that has this name.
fn socket_of(name: &str) -> io::Result<SocketType> {
    match name {
        "REP" => Ok(SocketType::Rep),
        "ROUTER" => Ok(SocketType::Router),
        "PUB" => Ok(SocketType::Pub),
        _ => Err(io::Error::other("no socket")),
    }
}
