//! How the program ends: its exit status, and what a person is told.

ghost use Rattle.std.specs.Prelude.{◌≡◌, ◌++◌, [], IfSome, OnOk, codes, decimal, if◌then◌else◌};
ghost use Rattle.std.specs.Io.KnownBytes.{Appends};
ghost use Rattle.kernel_program.specs.Status.{ended_status, status_code};
ghost use Rattle.kernel_program.specs.Told.{input_lines, line, output_lines, port_lines, told_of_status};
ghost use Rattle.kernel_program.specs.Told.{unreadable_lines};

use crate::reason::Reason;
use conn_file::ConnFault;
use kernel_replay::write_out;
use kernel_serve::{Port, Served};
use listed::Text;
use std::io::{self, Write};

/// How the program ends.
#[derive(Drop)]
pub(crate) enum Status {
    /// What was ordered is done, and that wasn't to serve.
    Done,
    /// A kernel served so, and ended with all taken that was published.
    Ended(Served),
    /// No memory was left, or standard input failed; or, of a kernel that was to serve, no thread could be
    /// made, or the system gave no random octets.
    Failed,
    /// Standard output failed, for this reason; for none if nobody reads what is written.
    OutputFailed(Option<Reason>),
    /// The command words are refused, for what this text tells a person.
    WordsRefused(Text),
    /// The command words are no texts.
    WordsUnreadable,
    /// The connection file can't be read, or isn't UTF-8.
    FileUnreadable(Reason),
    /// The connection file is refused.
    FileRefused(ConnFault),
    /// This port of the connection file can't be bound.
    CannotBind(Port, Reason),
    /// The kernel ended, and not all that was published was taken.
    Incomplete,
    /// The input of a replay is no even number of hexadecimal digits, and nothing was printed. At this place
    /// stands the first octet that is neither a digit nor white space. If there is none a digit is missing at
    /// the end.
    InputRefused(Option<usize>),
    /// The language has no interpreter to begin with, for what this text tells a person.
    BeginRefused(Text),
}

impl Status {
    /// How the program ends when its kernel did, by how that served.
    pub(crate) fn of_end(served: Served) -> Status
        ensures { result ≡ ended_status served }
    {
        if served.complete {
            Status::Ended(served)
        } else {
            drop(served);
            Status::Incomplete
        }
    }

    /// The exit status of the program.
    pub(crate) fn code(&self) -> u8
        ensures { result ≡ status_code self.now }
    {
        match self {
            Status::Done => 0,
            Status::Ended(_) => end_status(true),
            Status::Failed | Status::OutputFailed(_) => 1,
            Status::WordsRefused(_) | Status::WordsUnreadable => 2,
            Status::FileUnreadable(_) | Status::FileRefused(_) => 3,
            Status::CannotBind(..) => 4,
            Status::Incomplete => end_status(false),
            Status::InputRefused(_) => 6,
            Status::BeginRefused(_) => 7,
        }
    }
}

/// The exit status of a program whose kernel ended: 0 if all that was published was taken, and else 5.
pub fn end_status(complete: bool) -> u8
    ensures { result ≡ (if complete then 0 else 5) }
{
    if complete { 0 } else { 5 }
}

/// Tells a person how the program of this name ended, if more is to be said than its exit status says.
pub(crate) fn tell_status<F: Write>(faults: &mut F, name: &str, status: &Status) -> io::Result<()>
    ensures { OnOk result (IfSome (told_of_status name.now status.now)
        (Appends (F.contents faults.old) (F.contents faults.new))) }
{
    match status {
        Status::Done | Status::Ended(_) => Ok(()),
        Status::Failed => tell_failed(faults, name),
        Status::OutputFailed(why) => tell_output(faults, name, *why),
        Status::WordsRefused(said) => tell_text(faults, said),
        Status::WordsUnreadable => tell_unreadable_words(faults),
        Status::FileUnreadable(why) => tell_unreadable(faults, name, *why),
        Status::FileRefused(fault) => tell_fault(faults, name, *fault),
        Status::CannotBind(port, why) => tell_port(faults, name, *port, *why),
        Status::Incomplete => tell_incomplete(faults, name),
        Status::InputRefused(place) => tell_input(faults, name, *place),
        Status::BeginRefused(said) => tell_refusal(faults, name, said),
    }
}

/// Tells that what was ordered failed.
fn tell_failed<F: Write>(faults: &mut F, name: &str) -> io::Result<()>
    ensures { OnOk result (Appends (F.contents faults.old) (F.contents faults.new)
        (line name.now (codes "failed") [])) }
{
    tell_line(faults, name, "failed", "")
}

/// Tells that a kernel ended, and not all that was published was taken.
fn tell_incomplete<F: Write>(faults: &mut F, name: &str) -> io::Result<()>
    ensures { OnOk result (Appends (F.contents faults.old) (F.contents faults.new)
        (line name.now (codes "ended without complete") [])) }
{
    tell_line(faults, name, "ended without complete", "")
}

/// Tells that the command words are no texts.
fn tell_unreadable_words<F: Write>(faults: &mut F) -> io::Result<()>
    ensures { OnOk result (Appends (F.contents faults.old) (F.contents faults.new)
        (codes "error: the command words are not UTF-8\n")) }
{
    write_out(faults, b"error: the command words are not UTF-8\n")
}

/// Tells a line of the program of this name, in two parts.
pub(crate) fn tell_line<F: Write>(
    faults: &mut F,
    name: &str,
    words: &str,
    more: &str,
) -> io::Result<()>
    ensures { OnOk result (Appends (F.contents faults.old) (F.contents faults.new)
        (line name.now words.now more.now)) }
{
    write!(faults, "{name}: {words}{more}\n")?;
    faults.flush()
}

/// Tells a text as it is.
fn tell_text<F: Write>(faults: &mut F, text: &Text) -> io::Result<()>
    ensures { OnOk result (Appends (F.contents faults.old) (F.contents faults.new) text.now) }
{
    write_out(faults, text.as_str().as_bytes())
}

/// Tells why the language of the program of this name has no interpreter.
fn tell_refusal<F: Write>(faults: &mut F, name: &str, said: &Text) -> io::Result<()>
    ensures { OnOk result (Appends (F.contents faults.old) (F.contents faults.new) (line name.now said.now [])) }
{
    tell_line(faults, name, said.as_str(), "")
}

/// Tells why standard output failed; nothing if nobody reads what is written.
fn tell_output<F: Write>(faults: &mut F, name: &str, why: Option<Reason>) -> io::Result<()>
    ensures { OnOk result (Appends (F.contents faults.old) (F.contents faults.new)
        (output_lines name.now why)) }
{
    match why {
        Some(why) => tell_two(faults, name, "failed", "", "standard output: ", why.words()),
        None => Ok(()),
    }
}

/// Tells why the connection file can't be read.
fn tell_unreadable<F: Write>(faults: &mut F, name: &str, why: Reason) -> io::Result<()>
    ensures { OnOk result (Appends (F.contents faults.old) (F.contents faults.new)
        (unreadable_lines name.now why)) }
{
    tell_two(
        faults,
        name,
        "connection file unreadable",
        "",
        why.words(),
        "",
    )
}

/// Tells which port can't be bound, and why.
fn tell_port<F: Write>(faults: &mut F, name: &str, port: Port, why: Reason) -> io::Result<()>
    ensures { OnOk result (Appends (F.contents faults.old) (F.contents faults.new)
        (port_lines name.now port why)) }
{
    tell_two(faults, name, "cannot bind ", port.name(), why.words(), "")
}

/// Tells where the input of a replay breaks off.
fn tell_input<F: Write>(faults: &mut F, name: &str, place: Option<usize>) -> io::Result<()>
    ensures { OnOk result (Appends (F.contents faults.old) (F.contents faults.new)
        (input_lines name.now place)) }
{
    match place {
        Some(place) => tell_stray(faults, name, place),
        None => tell_two(
            faults,
            name,
            "replay input refused",
            "",
            "a hexadecimal digit is missing at the end",
            "",
        ),
    }
}

/// Tells that the input of a replay has something else than a digit at this place.
fn tell_stray<F: Write>(faults: &mut F, name: &str, place: usize) -> io::Result<()>
    ensures { OnOk result (Appends (F.contents faults.old) (F.contents faults.new)
        (line name.now (codes "replay input refused") []
        ++ line name.now (codes "no hexadecimal digit at offset ") (decimal place))) }
{
    tell_line(faults, name, "replay input refused", "")?;
    tell_place(faults, name, place)
}

/// Tells at which place there is no digit.
fn tell_place<F: Write>(faults: &mut F, name: &str, place: usize) -> io::Result<()>
    ensures { OnOk result (Appends (F.contents faults.old) (F.contents faults.new)
        (line name.now (codes "no hexadecimal digit at offset ") (decimal place))) }
{
    write!(faults, "{name}: no hexadecimal digit at offset {place}\n")?;
    faults.flush()
}

/// Tells two lines of the program of this name, each in two parts.
fn tell_two<F: Write>(
    faults: &mut F,
    name: &str,
    words: &str,
    more: &str,
    next: &str,
    rest: &str,
) -> io::Result<()>
    ensures { OnOk result (Appends (F.contents faults.old) (F.contents faults.new)
        (line name.now words.now more.now ++ line name.now next.now rest.now)) }
{
    tell_line(faults, name, words, more)?;
    tell_line(faults, name, next, rest)
}

/// Tells why a connection file is refused: the number of the fault, and on a line of its own what is wrong.
fn tell_fault<F: Write>(faults: &mut F, name: &str, fault: ConnFault) -> io::Result<()> {
    let number = fault.number();
    write!(
        faults,
        "{name}: connection file refused: {number}\n{name}: {fault}\n"
    )?;
    faults.flush()
}
