//! The key, and the digits that sign under it.

ghost use Rattle.std.specs.Prelude.{◌≡◌, ◌++◌, ◌↔◌, [], IsTrue};
ghost use Rattle.hex.specs.Hex.{encode_lower};
ghost use Rattle.jmsg_envelope.specs.Hmac.{hmac};

use crate::hmac::Keyed;
use std::marker::Model;

/// What messages are signed with and signatures are tested with: a contract sees the octets of its key.
///
/// Under an empty key nothing is signed and no signature is looked at.
#[derive(Drop)]
pub struct Signer {
    /// The key; empty if nothing is signed.
    key: Vec<u8>,
    /// Its hashes.
    keyed: Keyed,
}

impl Model for Signer {
    ghost use Rattle.std.specs.Prelude.{ℕ, List};
    ghost use Rattle.jmsg_envelope.specs.Hmac.{IsKeyed};

    ghost Value = { List ℕ };

    ghost view = { λ signer. signer.key.items };

    ghost invariant = { λ signer. IsKeyed signer.key.items signer.keyed };
}

impl Signer {
    /// A signer with this key, without a copy.
    pub fn new(key: Vec<u8>) -> Signer
        ensures { result ≡ key.items }
    {
        let keyed = Keyed::new(&key);
        Signer { key, keyed }
    }

    /// Whether the key is empty, so that nothing is signed.
    pub(crate) fn is_keyless(&self) -> bool
        ensures { IsTrue result ↔ (self.now ≡ []) }
    {
        self.key.is_empty()
    }

    /// The hex digits of the authentication code of the four parts, joined.
    pub(crate) fn digits_of(
        &self,
        header: &[u8],
        parent: &[u8],
        metadata: &[u8],
        content: &[u8],
    ) -> [u8; 64]
        ensures { result ≡ encode_lower (hmac self.now (header.now ++ parent.now ++ metadata.now ++ content.now)) }
    {
        let code = self.keyed.code_of(&[header, parent, metadata, content]);
        let mut digits = [0; 64];
        hex::encode_to_slice(code, &mut digits).unwrap();
        digits
    }
}
