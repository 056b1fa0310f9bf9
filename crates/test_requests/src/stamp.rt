//! A stamp of one date.

use jmsg_envelope::Stamp;
use std::alloc::{AllocError, Global};

/// The date of each message.
pub const DATE: &str = "2026-11-23T00:00:00.000000Z";

/// Session `s`, ids `s1`, `s2` and so on, and one date.
#[derive(Clone, Copy, Debug)]
pub struct OneDate;

impl Stamp for OneDate {
    ghost use Rattle.std.specs.Prelude.{codes, true};
    ghost use Rattle.jmsg_envelope.specs.Stamp.{numbered, numbered-differ};

    ghost stamp = { record {
      meaning = λ _. record { session = codes "s"; label = codes "s" };
      id_text = numbered;
      is_date = λ _ _. true;
    } };

    ghost ids_differ = { numbered-differ };

    fn session(&self) -> &str {
        "s"
    }

    fn id(&self, alloc: Global, n: u64) -> Result<String, AllocError> {
        format!(in alloc; "s{n}")
    }

    fn date(&mut self, alloc: Global) -> Result<String, AllocError> {
        String::from_str(alloc, DATE)
    }
}
