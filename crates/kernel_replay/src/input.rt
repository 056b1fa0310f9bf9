//! Reading what a peer sends: all of an input, and the octets that its hexadecimal text spells.

ghost use Rattle.std.specs.Prelude.{◌≡◌, ◌↔◌, ◌%◌, ◌++◌, [], length, IsTrue, IfOk, IfSome, IsErrOf, OnOk};
ghost use Rattle.std.specs.List.{AllPass, position};
ghost use Rattle.hex.specs.Hex.{is_hex_digit};
ghost use Rattle.kernel_replay.specs.Lines.{hex_octets, is_stray, is_white_space, without_white_space};

use std::alloc::Global;
use std::io::{self, ErrorKind, Read};

/// The most reads of one input, the last of which finds its end.
const READS: u32 = 1_000_000_000;

/// How many octets one read asks for.
const PIECE: usize = 65_536;

/// The most octets of one input.
const MOST_OCTETS: usize = 268_435_456;

/// Why a text gave no octets.
#[derive(Clone, Copy, Debug, PartialEq, Eq)]
pub enum HexFault {
    /// The text is no even number of hexadecimal digits, its white space aside.
    NotHex,
    /// It couldn't be read, or there was no memory for the octets.
    Failed,
}

/// Why an input gave no octets, and where.
#[derive(Clone, Copy, Debug, PartialEq, Eq)]
pub struct HexRefusal {
    /// Why.
    pub fault: HexFault,
    /// If the text is no even number of digits: at which place, from 0 on, the first octet stands that is
    /// neither a digit nor white space. If there is none, a digit is missing at the end.
    pub place: Option<usize>,
}

/// All that the reader has left. A read that is interrupted is made again. It fails if a read fails, or if the end
/// isn't found in 256 MiB, or in a billion reads; what it had read is lost then.
pub(crate) fn read_all<R: Read>(alloc: Global, reader: &mut R) -> io::Result<Vec<u8>>
    ensures all { IfOk result (λ octets. IfSome (R.remaining reader.old)
        (λ text. octets.items ≡ text)) }
    ensures at_end { OnOk result (IfSome (R.remaining reader.old)
        (λ _. R.remaining reader.new ≡ Some [])) }
{
    let mut piece = vec![in alloc; 0u8; PIECE]?;
    let mut octets = Vec::new(alloc);
    'reads: for _ in 0..READS {
        match reader.read(&mut piece) {
            Ok(0) => return Ok(octets),
            Ok(count) => append(&mut octets, &piece[..count])?,
            Err(error) => {
                if error.kind() != ErrorKind::Interrupted {
                    return Err(error);
                }
            }
        }
    }
    Err(io::Error::other("input has no end"))
}

/// Adds a piece to what was read.
///
/// # Errors
///
/// If memory is refused, or an input has more octets than may be.
fn append(octets: &mut Vec<u8>, piece: &[u8]) -> io::Result<()>
    ensures { OnOk result (octets.new.items ≡ octets.old.items ++ piece.now) }
{
    if octets.len() > MOST_OCTETS {
        return Err(io::Error::other("input is too long"));
    }
    octets.extend_from_slice(piece)?;
    Ok(())
}

/// Whether an octet is ASCII white space.
fn is_white_space(octet: u8) -> bool
    ensures { result ≡ is_white_space octet }
{
    matches!(octet, b'\t' | b'\n' | 0x0C | b'\r' | b' ')
}

/// Whether an octet is neither a hexadecimal digit nor white space.
fn is_stray(octet: u8) -> bool
    ensures { result ≡ is_stray octet }
{
    !is_white_space(octet) && !octet.is_ascii_hexdigit()
}

/// The place of the first octet of a text that is neither a hexadecimal digit nor white space.
pub(crate) fn stray_at(text: &[u8]) -> Option<usize>
    ensures { result ≡ position is_stray text.now }
{
    text.iter().position(|octet| is_stray(*octet))
}

/// Whether a text is an even number of hexadecimal digits.
fn is_hex_text(text: &[u8]) -> bool
    ensures { IsTrue result ↔ ((length text.now % 2 ≡ 0) × AllPass is_hex_digit text.now) }
{
    text.len() % 2 == 0 && text.iter().all(u8::is_ascii_hexdigit)
}

/// Takes the white space out of a text, in place.
fn remove_white_space(text: &mut Vec<u8>)
    ensures { text.new.items ≡ without_white_space text.old.items }
{
    text.retain(|octet| !is_white_space(*octet));
}

/// The octets that a hexadecimal text spells. White space may stand anywhere, also between the
/// two digits of an octet.
pub(crate) fn octets_of(alloc: Global, text: Vec<u8>) -> Result<Vec<u8>, HexFault>
    ensures spelled { IfOk result (λ octets. hex_octets text.items ≡ Some octets.items) }
    ensures not_hex { IsErrOf result HexFault.NotHex ↔ (hex_octets text.items ≡ None) }
{
    let mut digits = text;
    remove_white_space(&mut digits);
    match hex::decode(alloc, digits.as_slice()) {
        Ok(octets) => Ok(octets),
        Err(_) if is_hex_text(&digits) => Err(HexFault::Failed),
        Err(_) => Err(HexFault::NotHex),
    }
}
