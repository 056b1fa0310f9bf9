//! Messages opened: the parts of an envelope, or why frames are none.

ghost use Rattle.std.specs.Prelude.{◌≡◌, ◌⊎◌, ◌↔◌, IfOk, IfErr, IsTrue, IsFalse};
ghost use Rattle.listed.specs.Bodies.{bodies};
ghost use Rattle.jmsg_envelope.specs.Envelope.{IsMissigned, IsNoEnvelope, IsSigned, IsSignedMessage, IsUnsigned};
ghost use Rattle.jmsg_envelope.specs.Envelope.{Opened, lower_case};
ghost use Rattle.jmsg_envelope.specs.Split.{signed_parts_of};

use crate::envelope::Envelope;
use crate::header::read_names;
use crate::split::{Signed, cut_frames, signed_of};
use crate::{EnvelopeFault, Signer};
use listed::{Frames, Octets};
use std::alloc::Global;

/// Opens the frames of a message ('Messaging in Jupyter' 5.3, "The Wire Protocol"), which are moved and not copied.
///
/// # Errors
///
/// In this order: `NoDelimiter`, `TooFewParts`, `BadSignature`, `BadHeader`. `OutOfMemory` comes if an allocation is
/// refused.
pub fn open_envelope(
    alloc: Global,
    signer: &Signer,
    frames: Vec<Vec<u8>>,
) -> Result<Envelope, EnvelopeFault>
    ensures opened { IfOk result (Opened signer.now (bodies frames.items)) }
    ensures refused { IfErr result (λ fault. (fault ≡ EnvelopeFault.OutOfMemory)
        ⊎ IsNoEnvelope signer.now (bodies frames.items) fault) }
{
    let split = cut_frames(frames)?;
    if !is_signed(signer, split.signed()) {
        return Err(EnvelopeFault::BadSignature);
    }
    let (msg_id, msg_type) = read_names(alloc, &split.header)?;
    Ok(Envelope {
        identities: Frames::new(split.identities),
        header: Octets::new(split.header),
        msg_id,
        msg_type,
        parent: Octets::new(split.parent),
        metadata: Octets::new(split.metadata),
        content: Octets::new(split.content),
        buffers: Frames::new(split.buffers),
    })
}

/// Looks whether frames are a message that is rightly signed under the key, as `open_envelope` does, and nothing else
/// of them. They stay as they are, and no memory is taken.
///
/// # Errors
///
/// In this order: `NoDelimiter`, `TooFewParts`, `BadSignature`, exactly if `open_envelope` refuses the frames so.
pub fn check_signature(signer: &Signer, frames: &[Vec<u8>]) -> Result<(), EnvelopeFault>
    ensures signed { IfOk result (λ _. IsSignedMessage signer.now (bodies frames.now)) }
    ensures refused { IfErr result (IsUnsigned signer.now (bodies frames.now)) }
{
    let signed = signed_of(frames)?;
    if is_signed(signer, signed) {
        Ok(())
    } else {
        Err(EnvelopeFault::BadSignature)
    }
}

/// Whether the signature is that of the parts; under an empty key every one is.
fn is_signed(signer: &Signer, signed: Signed<'_>) -> bool
    ensures right { IsTrue result → IsSigned signer.now (signed_parts_of signed.entry) }
    ensures wrong { IsFalse result → IsMissigned signer.now (signed_parts_of signed.entry) }
{
    if signer.is_keyless() {
        return true;
    }
    let digits = signer.digits_of(
        signed.header,
        signed.parent,
        signed.metadata,
        signed.content,
    );
    are_same_digits(signed.signature, &digits)
}

/// Whether two rows of hex digits are the same, in upper case or lower.
fn are_same_digits(left: &[u8], right: &[u8]) -> bool
    ensures { IsTrue result ↔ (lower_case left.now ≡ lower_case right.now) }
{
    left.eq_ignore_ascii_case(right)
}
