//! The three lines that a session prints, and writing them out.

ghost use Rattle.std.specs.Prelude.{◌≡◌, ◌++◌, [], IfOk, OnOk};
ghost use Rattle.std.specs.Io.KnownBytes.{Appends};
ghost use Rattle.hex.specs.Hex.{encode_lower};
ghost use Rattle.kernel_replay.specs.Lines.{ending_words, printed_lines};

use std::alloc::{AllocError, Global};
use std::io::{self, Write};
use zmtp_wire::WireFault;

/// Room for the words of the three lines: `shell `, `iopub `, `end fault 255` and three ends.
const WORDS: usize = 28;

/// How a session ended whose lines are printed.
#[derive(Clone, Copy, Debug)]
pub(crate) enum PrintedEnd {
    /// The peer sent its last octet.
    Eof,
    /// The peer asked for a shutdown.
    Shutdown,
    /// The peer broke the protocol, or sent the command ERROR.
    Fault(WireFault),
}

/// Adds octets to a text, as lower-case digits.
fn append_hex(text: &mut Vec<u8>, octets: &[u8]) -> Result<(), AllocError>
    ensures { OnOk result (text.new.items ≡ text.old.items ++ encode_lower octets.now) }
{
    let start = text.len();
    text.resize(start.saturating_add(octets.len().saturating_mul(2)), 0)?;
    match hex::encode_to_slice(octets, &mut text[start..]) {
        Ok(()) => Ok(()),
        Err(_) => Err(AllocError),
    }
}

/// Adds how a session ended to a text.
fn append_ending(alloc: Global, text: &mut Vec<u8>, ending: PrintedEnd) -> Result<(), AllocError>
    ensures { OnOk result (text.new.items ≡ text.old.items ++ ending_words ending) }
{
    match ending {
        PrintedEnd::Eof => text.extend_from_slice(b"eof"),
        PrintedEnd::Shutdown => text.extend_from_slice(b"shutdown"),
        PrintedEnd::Fault(fault) => {
            text.extend_from_slice(b"fault ")?;
            text.extend_from_slice(fault.number().to_string(alloc)?.as_bytes())
        }
    }
}

/// The lines of a session: what it wrote to the shell, what it published, and how it ended.
pub(crate) fn lines_text(
    alloc: Global,
    shell: &[u8],
    iopub: &[u8],
    ending: PrintedEnd,
) -> Result<Vec<u8>, AllocError>
    ensures { IfOk result (λ text. text.items ≡ printed_lines shell.now iopub.now
        (ending_words ending)) }
{
    let octets = shell.len().saturating_add(iopub.len());
    let room = octets.saturating_mul(2).saturating_add(WORDS);
    let mut text = Vec::with_capacity(alloc, room)?;
    match write_lines(alloc, &mut text, shell, iopub, ending) {
        Ok(()) => Ok(text),
        Err(AllocError) => {
            drop(text);
            Err(AllocError)
        }
    }
}

/// Writes the lines of a session to a text that is empty.
fn write_lines(
    alloc: Global,
    text: &mut Vec<u8>,
    shell: &[u8],
    iopub: &[u8],
    ending: PrintedEnd,
) -> Result<(), AllocError>
    requires { text.old.items ≡ [] }
    ensures { OnOk result (text.new.items ≡ printed_lines shell.now iopub.now (ending_words ending)) }
{
    text.extend_from_slice(b"shell ")?;
    append_hex(text, shell)?;
    text.extend_from_slice(b"\niopub ")?;
    append_hex(text, iopub)?;
    text.extend_from_slice(b"\nend ")?;
    append_ending(alloc, text, ending)?;
    text.extend_from_slice(b"\n")
}

/// Writes a text, all of it and nothing else, and flushes. If that fails, a part may be written.
pub fn write_out<W: Write>(writer: &mut W, text: &[u8]) -> io::Result<()>
    ensures { OnOk result (Appends (W.contents writer.old) (W.contents writer.new) text.now) }
{
    writer.write_all(text)?;
    writer.flush()
}
