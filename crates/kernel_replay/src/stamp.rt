//! The ids and dates of a replay, which are the same in each run.

ghost use Rattle.std.specs.Prelude.{◌≡◌, codes, IfOk, string_bytes, bytes_eq};
ghost use Rattle.jmsg_envelope.specs.Stamp.{numbered, numbered-differ};
ghost use Rattle.kernel_replay.specs.Stamp.{replay_session, replay_id, replay_date};

use jmsg_envelope::Stamp;
use std::alloc::{AllocError, Global};

/// Session `replay`, ids `replay_s1`, `replay_s2` and so on, and one date.
#[derive(Clone, Copy, Debug)]
pub(crate) struct ReplayStamp;

impl Stamp for ReplayStamp {
    ghost stamp = { record {
      meaning = λ _. record {
        session = codes "replay";
        label = codes "replay_s";
      };
      id_text = numbered;
      is_date = λ _ text. bytes_eq text (codes "2000-01-01T00:00:00.000000Z");
    } };

    ghost ids_differ = { numbered-differ };

    fn session(&self) -> &str
        ensures { result.now ≡ replay_session }
    {
        "replay"
    }

    fn id(&self, alloc: Global, n: u64) -> Result<String, AllocError>
        ensures { IfOk result (λ text. string_bytes text ≡ replay_id n) }
    {
        format!(in alloc; "replay_s{n}")
    }

    fn date(&mut self, alloc: Global) -> Result<String, AllocError>
        ensures { IfOk result (λ text. string_bytes text ≡ replay_date) }
    {
        String::from_str(alloc, "2000-01-01T00:00:00.000000Z")
    }
}
