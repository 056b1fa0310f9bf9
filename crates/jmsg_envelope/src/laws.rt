//! Laws of envelopes: what is opened or refused is so in one way, and what is sealed is opened.

ghost use Rattle.jmsg_envelope.specs.Laws.{OpenedOnce, RefusedIsNotOpened, RefusedOnce, SealedIsOpened};

/// A law with no code: no frames are both refused and opened under one key.
pub fn law_refused_is_not_opened()
    ensures refused_is_not_opened { RefusedIsNotOpened }
{}

/// A law with no code: frames are refused for one reason alone.
pub fn law_refused_once()
    ensures refused_once { RefusedOnce }
{}

/// A law with no code: frames are opened as one envelope alone.
pub fn law_opened_once()
    ensures opened_once { OpenedOnce }
{}

/// A law with no code: what is sealed after identities, with a header that names an id and a type, is opened again
/// under the same key.
pub fn law_sealed_is_opened()
    ensures sealed_is_opened { SealedIsOpened }
{}
