//! A stamp to which memory is refused.

use jmsg_envelope::Stamp;
use std::alloc::{AllocError, Global};
use std::cell::Cell;

/// The date of each message.
pub const DATE: &str = "2026-11-23T00:00:00.000000Z";

/// Session `replay`, ids `replay_s1`, `replay_s2` and so on, and one date. One call is refused, as if no memory were
/// left for it.
#[derive(Drop)]
pub struct Scarce {
    /// The call that is refused, counted from 1 over ids and dates, or 0.
    refused: u64,
    /// How many calls there were.
    calls: Cell<u64>,
}

impl Scarce {
    /// A stamp of which no call was made.
    pub fn new(refused: u64) -> Scarce {
        Scarce {
            refused,
            calls: Cell::new(0),
        }
    }

    /// Counts a call: an error where it is the one that is refused.
    fn count(&self) -> Result<(), AllocError> {
        let calls = self.calls.get().saturating_add(1);
        self.calls.set(calls);
        if calls == self.refused {
            Err(AllocError)
        } else {
            Ok(())
        }
    }
}

impl Stamp for Scarce {
    ghost use Rattle.std.specs.Prelude.{codes, true};
    ghost use Rattle.jmsg_envelope.specs.Stamp.{numbered, numbered-differ};

    ghost stamp = { record {
      meaning = λ _. record { session = codes "replay"; label = codes "replay_s" };
      id_text = numbered;
      is_date = λ _ _. true;
    } };

    ghost ids_differ = { numbered-differ };

    fn session(&self) -> &str {
        "replay"
    }

    fn id(&self, alloc: Global, n: u64) -> Result<String, AllocError> {
        self.count()?;
        format!(in alloc; "replay_s{n}")
    }

    fn date(&mut self, alloc: Global) -> Result<String, AllocError> {
        self.count()?;
        String::from_str(alloc, DATE)
    }
}
