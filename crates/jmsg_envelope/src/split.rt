//! Frames cut into identities, signature, parts and buffers.

ghost use Rattle.std.specs.Prelude.{◌≡◌, ◌⊎◌, ◌+◌, ◌≤◌, IfOk, IfErr, length, position};
ghost use Rattle.listed.specs.Bodies.{bodies};
ghost use Rattle.jmsg_envelope.specs.Envelope.{IsSplit, IsUncut, Parts};
ghost use Rattle.jmsg_envelope.specs.Split.{is_delimiter, parts_of, signed_parts, signed_parts_of};

use crate::EnvelopeFault;

/// The frame between the identities and the signature.
pub(crate) const DELIMITER: &[u8] = b"<IDS|MSG>";

/// The delimiter, the signature and the four parts that it is over.
const FIXED_FRAMES: usize = 6;

/// The frames of a message by their parts, cut at the first delimiter.
#[derive(Drop)]
pub(crate) struct Split {
    /// The frames before the delimiter.
    pub(crate) identities: Vec<Vec<u8>>,
    /// The signature, in hex digits.
    pub(crate) signature: Vec<u8>,
    /// The header.
    pub(crate) header: Vec<u8>,
    /// The parent header.
    pub(crate) parent: Vec<u8>,
    /// The metadata.
    pub(crate) metadata: Vec<u8>,
    /// The content.
    pub(crate) content: Vec<u8>,
    /// The frames after the content.
    pub(crate) buffers: Vec<Vec<u8>>,
}

impl Split {
    /// What its signature is over, and the signature.
    pub(crate) fn signed(&self) -> Signed<'_>
        ensures { signed_parts_of result ≡ signed_parts (parts_of self.now) }
    {
        Signed {
            signature: &self.signature,
            header: &self.header,
            parent: &self.parent,
            metadata: &self.metadata,
            content: &self.content,
        }
    }
}

/// What the signature of a message is over, and the signature, as they lie among its frames.
#[derive(Clone, Copy)]
pub(crate) struct Signed<'f> {
    /// The signature, in hex digits.
    pub(crate) signature: &'f [u8],
    /// The header.
    pub(crate) header: &'f [u8],
    /// The parent header.
    pub(crate) parent: &'f [u8],
    /// The metadata.
    pub(crate) metadata: &'f [u8],
    /// The content.
    pub(crate) content: &'f [u8],
}

/// Cuts frames into the parts of a message. The frames are moved, and only the list of the buffers takes memory.
pub(crate) fn cut_frames(mut frames: Vec<Vec<u8>>) -> Result<Split, EnvelopeFault>
    ensures ok { IfOk result (λ split. IsSplit (bodies frames.items) (parts_of split)) }
    ensures err { IfErr result (λ fault. (fault ≡ EnvelopeFault.OutOfMemory)
        ⊎ IsUncut (bodies frames.items) fault) }
{
    let at = place_of(&frames)?;
    let buffers = frames.split_off(at + FIXED_FRAMES)?;
    let content = frames.take_last();
    let metadata = frames.take_last();
    let parent = frames.take_last();
    let header = frames.take_last();
    let signature = frames.take_last();
    let _delimiter = frames.take_last();
    Ok(Split {
        identities: frames,
        signature,
        header,
        parent,
        metadata,
        content,
        buffers,
    })
}

/// What the signature of a message is over, and the signature, among frames that aren't cut.
pub(crate) fn signed_of(frames: &[Vec<u8>]) -> Result<Signed<'_>, EnvelopeFault>
    ensures ok { IfOk result (λ signed. (parts : Parts) × IsSplit (bodies frames.now) parts
        × (signed_parts_of signed ≡ signed_parts parts)) }
    ensures err { IfErr result (IsUncut (bodies frames.now)) }
{
    let at = place_of(frames)?;
    Ok(Signed {
        signature: &frames[at + 1],
        header: &frames[at + 2],
        parent: &frames[at + 3],
        metadata: &frames[at + 4],
        content: &frames[at + 5],
    })
}

/// Where the first delimiter stands among the frames of a message that has all its parts.
///
/// # Errors
///
/// `NoDelimiter` if there is none, `TooFewParts` if fewer than five frames stand after it.
fn place_of(frames: &[Vec<u8>]) -> Result<usize, EnvelopeFault>
    ensures found { IfOk result (λ at. position (λ frame. is_delimiter frame.items) frames.now ≡ Some at) }
    ensures whole { IfOk result (λ at. at + 6 ≤ length frames.now) }
    ensures err { IfErr result (IsUncut (bodies frames.now)) }
{
    let Some(at) = delimiter_at(frames) else {
        return Err(EnvelopeFault::NoDelimiter);
    };
    if frames.len() - at < FIXED_FRAMES {
        return Err(EnvelopeFault::TooFewParts);
    }
    Ok(at)
}

/// Where the first delimiter stands.
fn delimiter_at(frames: &[Vec<u8>]) -> Option<usize>
    ensures { result ≡ position (λ frame. is_delimiter frame.items) frames.now }
{
    frames
        .iter()
        .position(|frame| frame.as_slice() == DELIMITER)
}
