//! Where ids and dates of messages come from.

ghost use Rattle.std.specs.Prelude.{◌≡◌, true, IfOk, string_bytes};
ghost use Rattle.jmsg_envelope.specs.Stamp.{IdsDiffer, Stamping};

use std::alloc::{AllocError, Global};

/// A source of message ids and dates for one session.
pub trait Stamp {
    /// The data of this stamp that no call changes, the text of a number's id, and whether a text may be a date.
    ghost stamp: { Stamping Self };

    /// The text of the session.
    fn session(&self) -> &str
        ensures { result.now ≡ (stamp.meaning self.now).session };

    /// The id of the message with this number.
    ///
    /// # Errors
    ///
    /// If an allocation is refused.
    fn id(&self, alloc: Global, n: u64) -> Result<String, AllocError>
        ensures { IfOk result (λ text. string_bytes text ≡ stamp.id_text (stamp.meaning self.now) n) };

    /// The date of a message that is made now. The stamp's meaning stays, also on an error.
    ///
    /// # Errors
    ///
    /// If an allocation is refused.
    fn date(&mut self, alloc: Global) -> Result<String, AllocError>
        ensures date { IfOk result
            (λ text. stamp.is_date (stamp.meaning self.old) (string_bytes text) ≡ true) }
        ensures same { stamp.meaning self.new ≡ stamp.meaning self.old };

    /// Different numbers have different ids.
    ghost ids_differ: { IdsDiffer stamp.id_text };
}
