//! Messages sealed: frames made of parts.

ghost use Rattle.std.specs.Prelude.{◌≡◌, ◌++◌, ◌∷◌, [], IfOk, IfErr, OnOk};
ghost use Rattle.listed.specs.Bodies.{bodies};
ghost use Rattle.jmsg_envelope.specs.Envelope.{delimiter, sealed, signature};

use crate::split::DELIMITER;
use crate::{EnvelopeFault, MessageParts, Signer};
use listed::Frames;
use std::alloc::Global;

/// The frames of a message, signed ('Messaging in Jupyter' 5.3, "The Wire Protocol"). They are the prefix, the
/// delimiter, the signature, the four parts and the buffers, which are moved and not copied.
///
/// # Errors
///
/// `OutOfMemory` alone.
pub fn seal(
    alloc: Global,
    signer: &Signer,
    prefix: Frames,
    parts: MessageParts,
) -> Result<Frames, EnvelopeFault>
    ensures sealed { IfOk result (λ frames. frames ≡ sealed signer.now prefix parts) }
    ensures memory { IfErr result (λ fault. fault ≡ EnvelopeFault.OutOfMemory) }
{
    match signed(alloc, signer, prefix, &parts) {
        Ok(frames) => with_parts(frames, parts),
        Err(fault) => {
            drop(parts);
            Err(fault)
        }
    }
}

/// A prefix, and after it the delimiter and the signature of a message of these parts.
fn signed(
    alloc: Global,
    signer: &Signer,
    prefix: Frames,
    parts: &MessageParts,
) -> Result<Vec<Vec<u8>>, EnvelopeFault>
    ensures signed { IfOk result (λ all. bodies all.items ≡ prefix ++ delimiter
        ∷ signature signer.now (parts.now.header ++ parts.now.parent ++ parts.now.metadata ++ parts.now.content)
        ∷ []) }
    ensures memory { IfErr result (λ fault. fault ≡ EnvelopeFault.OutOfMemory) }
{
    match signature_text(alloc, signer, parts) {
        Ok(signature) => with_signature(alloc, prefix.into_vec(), signature),
        Err(fault) => {
            drop(prefix);
            Err(fault)
        }
    }
}

/// Frames, and after them the delimiter and a signature.
fn with_signature(
    alloc: Global,
    mut frames: Vec<Vec<u8>>,
    signature: Vec<u8>,
) -> Result<Vec<Vec<u8>>, EnvelopeFault>
    ensures signed { IfOk result (λ all. bodies all.items
        ≡ bodies frames.items ++ delimiter ∷ signature.items ∷ []) }
    ensures memory { IfErr result (λ fault. fault ≡ EnvelopeFault.OutOfMemory) }
{
    frames.push(DELIMITER.to_vec(alloc)?)?;
    frames.push(signature)?;
    Ok(frames)
}

/// Frames, and after them the parts of a message.
fn with_parts(mut frames: Vec<Vec<u8>>, parts: MessageParts) -> Result<Frames, EnvelopeFault>
    ensures parts { IfOk result (λ all. all
        ≡ bodies frames.items ++ parts.header ∷ parts.parent ∷ parts.metadata ∷ parts.content ∷ parts.buffers) }
    ensures memory { IfErr result (λ fault. fault ≡ EnvelopeFault.OutOfMemory) }
{
    let MessageParts {
        header,
        parent,
        metadata,
        content,
        buffers,
    } = parts;
    let mut buffers = buffers.into_vec();
    push_parts(
        &mut frames,
        header.into_vec(),
        parent.into_vec(),
        metadata.into_vec(),
        content.into_vec(),
    )?;
    frames.append(&mut buffers)?;
    Ok(Frames::new(frames))
}

/// Puts the four parts of a message after the frames.
fn push_parts(
    frames: &mut Vec<Vec<u8>>,
    header: Vec<u8>,
    parent: Vec<u8>,
    metadata: Vec<u8>,
    content: Vec<u8>,
) -> Result<(), EnvelopeFault>
    ensures parts { OnOk result (bodies frames.new.items ≡ bodies frames.old.items
        ++ header.items ∷ parent.items ∷ metadata.items ∷ content.items ∷ []) }
    ensures memory { IfErr result (λ fault. fault ≡ EnvelopeFault.OutOfMemory) }
{
    frames.push(header)?;
    frames.push(parent)?;
    frames.push(metadata)?;
    frames.push(content)?;
    Ok(())
}

/// The signature of a message of these parts, in hex digits; under an empty key it is empty.
fn signature_text(
    alloc: Global,
    signer: &Signer,
    parts: &MessageParts,
) -> Result<Vec<u8>, EnvelopeFault>
    ensures signed { IfOk result (λ digits. digits.items
        ≡ signature signer.now (parts.now.header ++ parts.now.parent ++ parts.now.metadata ++ parts.now.content)) }
    ensures memory { IfErr result (λ fault. fault ≡ EnvelopeFault.OutOfMemory) }
{
    if signer.is_keyless() {
        return Ok(Vec::new(alloc));
    }
    let digits = signer.digits_of(
        parts.header.as_slice(),
        parts.parent.as_slice(),
        parts.metadata.as_slice(),
        parts.content.as_slice(),
    );
    Ok(digits.to_vec(alloc)?)
}
