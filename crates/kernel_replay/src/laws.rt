//! A law of a replay, the contract of a function that does nothing of its own.

ghost use Rattle.kernel_replay.specs.Session.{LinesHaveOneValue};

use crate::replay::Unstopped;
use interp_core::Determined;
use kernel_session::law_one_session;

/// If each definition of a language has one value at most, the lines of an input are one text. That holds for one state
/// to begin in, and by the same courses and dates.
pub fn law_one_text<I: Determined>()
    ensures { LinesHaveOneValue I.meaning }
{
    law_one_session::<I, Unstopped>();
}
