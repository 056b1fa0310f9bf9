//! What engine a block has.

use crate::device::Devices;
use kernel_engine::Side;
use std::io;

/// The language of an engine.
#[derive(Clone, Copy, Debug, PartialEq, Eq)]
pub(crate) enum Language {
    /// Shell arithmetic.
    Arith,
    /// Letters.
    Letters,
    /// Letters that find no memory.
    Wanting,
}

/// Sessions that are told one after another: those of each place from the first to the last.
#[derive(Clone, Copy, Debug)]
pub(crate) struct Places {
    /// What the place is of.
    pub(crate) of: Swept,
    /// The first place.
    pub(crate) first: u64,
    /// The last place.
    pub(crate) last: u64,
}

/// What a place is of.
#[derive(Clone, Copy, Debug, PartialEq, Eq)]
pub(crate) enum Swept {
    /// The read that fails.
    Fails,
    /// The write that fails.
    Jams,
    /// How many reads there may be.
    Turns,
}

impl Swept {
    /// Its key.
    pub(crate) fn key(self) -> &'static str {
        match self {
            Swept::Fails => "fails",
            Swept::Jams => "jams",
            Swept::Turns => "turns",
        }
    }
}

/// What engine a block has.
#[derive(Clone, Copy, Debug)]
pub(crate) struct Setup {
    /// Its channel.
    pub(crate) side: Side,
    /// Its language.
    pub(crate) language: Language,
    /// How often its stop says no at first.
    pub(crate) noes: u64,
    /// The first push that its sink refuses, or 0.
    pub(crate) first: u64,
    /// The last push that its sink refuses, or 0.
    pub(crate) last: u64,
    /// The call of its stamp that is refused, or 0.
    pub(crate) call: u64,
    /// Whether there is a fresh one for each request.
    pub(crate) is_each: bool,
    /// Whether only the number of messages is told.
    pub(crate) is_counted: bool,
    /// Whether the lines are what a peer sends from its greeting on.
    pub(crate) is_wire: bool,
    /// How the devices of a session behave.
    pub(crate) devices: Devices,
    /// The places at which sessions are told, if it is not one alone.
    pub(crate) places: Option<Places>,
}

impl Setup {
    /// Reads the first line of a block.
    ///
    /// # Errors
    ///
    /// Where it has a word that says nothing.
    pub(crate) fn read(line: &str) -> io::Result<Setup> {
        let mut setup = Setup {
            side: Side::Shell,
            language: Language::Arith,
            noes: u64::MAX,
            first: 0,
            last: 0,
            call: 0,
            is_each: false,
            is_counted: false,
            is_wire: false,
            devices: Devices::sound(),
            places: None,
        };
        for word in line.split(' ') {
            match word.split_once('=') {
                Some((key, number)) => setup.say(key, number)?,
                None => setup.choose(word)?,
            }
        }
        Ok(setup)
    }

    /// Sets what a key names to a number, or to each number from one to another.
    fn say(&mut self, key: &str, numbers: &str) -> io::Result<()> {
        let Some((first, last)) = numbers.split_once("..") else {
            return self.set(key, number_of(numbers)?);
        };
        let of = match key {
            "fails" => Swept::Fails,
            "jams" => Swept::Jams,
            "turns" => Swept::Turns,
            _ => return Err(io::Error::other("no key of places")),
        };
        let (first, last) = (number_of(first)?, number_of(last)?);
        self.places = Some(Places { of, first, last });
        Ok(())
    }

    /// Sets what a key names.
    fn set(&mut self, key: &str, number: u64) -> io::Result<()> {
        match key {
            "noes" => self.noes = number,
            "first" => self.first = number,
            "last" => self.last = number,
            "call" => self.call = number,
            _ if self.devices.set(key, number) => {}
            _ => return Err(io::Error::other("no key")),
        }
        Ok(())
    }

    /// Chooses what a word names.
    fn choose(&mut self, word: &str) -> io::Result<()> {
        match word {
            "shell" => self.side = Side::Shell,
            "control" => self.side = Side::Control,
            "arith" => self.language = Language::Arith,
            "letters" => self.language = Language::Letters,
            "wanting" => self.language = Language::Wanting,
            "each" => self.is_each = true,
            "counted" => self.is_counted = true,
            "wire" => self.is_wire = true,
            _ => return Err(io::Error::other("a word that says nothing")),
        }
        Ok(())
    }
}

/// The number that a text is.
fn number_of(text: &str) -> io::Result<u64> {
    match text.parse::<u64>() {
        Ok(number) => Ok(number),
        Err(_) => Err(io::Error::other("no number")),
    }
}
