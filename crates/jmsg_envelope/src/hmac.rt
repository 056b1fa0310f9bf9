//! HMAC-SHA256 (RFC 2104).

ghost use Rattle.std.specs.Prelude.{◌≡◌, ◌≤◌, ◌++◌, ℕ, List, length, flat_map};
ghost use Rattle.sha2.specs.Sha256.{sha256};
ghost use Rattle.sha2.specs.Hashers.{Holds256};
ghost use Rattle.jmsg_envelope.specs.Hmac.{hmac, key_block, zero_padded, xored, block_length, IsKeyed};

use sha2::{Digest, Sha256};

/// How many octets SHA-256 takes in at a time.
const BLOCK_LENGTH: usize = 64;

/// What masks each octet of the key for the inner hash.
const INNER_PAD: u8 = 0x36;

/// What masks each octet of the key for the outer hash.
const OUTER_PAD: u8 = 0x5C;

/// The HMAC-SHA256 of the parts, joined in their order, under `key` (RFC 2104, section 2).
///
/// It takes no memory.
pub fn hmac_sha256(key: &[u8], parts: &[&[u8]]) -> [u8; 32]
    ensures { result ≡ hmac key.now (flat_map (λ part. part.now) parts.now) }
{
    Keyed::new(key).code_of(parts)
}

/// Both hashes of a key after its own block, which is the same for each text (RFC 2104, section 4).
#[derive(Drop)]
pub(crate) struct Keyed {
    /// The hash of a text.
    inner: Sha256,
    /// The hash of that hash.
    outer: Sha256,
}

impl Keyed {
    /// The hashes of this key.
    pub(crate) fn new(key: &[u8]) -> Keyed
        ensures { IsKeyed key.now result }
    {
        let block = block_of_key(key);
        let mut inner = Sha256::new();
        inner.update(masked(&block, INNER_PAD));
        let mut outer = Sha256::new();
        outer.update(masked(&block, OUTER_PAD));
        Keyed { inner, outer }
    }

    /// The code of the parts, joined in their order, under the key.
    pub(crate) fn code_of(&self, parts: &[&[u8]]) -> [u8; 32]
        ensures { (key : List ℕ) → IsKeyed key self.now
            → result ≡ hmac key (flat_map (λ part. part.now) parts.now) }
    {
        let inner = hash_on(&self.inner, parts);
        hash_on(&self.outer, &[&inner])
    }
}

/// The hash of what a hasher holds, and then of the parts.
fn hash_on(hasher: &Sha256, parts: &[&[u8]]) -> [u8; 32]
    ensures { (held : List ℕ) → Holds256 hasher.now held
        → result ≡ sha256 (held ++ flat_map (λ part. part.now) parts.now) }
{
    let mut all = hasher.clone().unwrap();
    for part in parts {
        all.update(*part);
    }
    all.finalize()
}

/// The key as one block, hashed first if it is longer.
fn block_of_key(key: &[u8]) -> [u8; BLOCK_LENGTH]
    ensures { result ≡ key_block key.now }
{
    if key.len() > BLOCK_LENGTH {
        padded(&Sha256::digest(key))
    } else {
        padded(key)
    }
}

/// A key that fits a block, with zeros after it.
fn padded(key: &[u8]) -> [u8; BLOCK_LENGTH]
    requires { length key.now ≤ block_length }
    ensures { result ≡ zero_padded key.now }
{
    let mut block = [0; BLOCK_LENGTH];
    block[..key.len()].copy_from_slice(key);
    block
}

/// A block with each octet masked by `pad`.
fn masked(block: &[u8; BLOCK_LENGTH], pad: u8) -> [u8; BLOCK_LENGTH]
    ensures { result ≡ xored pad block.now }
{
    let mut keyed = *block;
    for octet in keyed.iter_mut() {
        *octet ^= pad;
    }
    keyed
}
