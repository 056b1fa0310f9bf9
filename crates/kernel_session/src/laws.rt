//! Laws of a session, which rest on the definitions alone. Each is the contract of a function that does nothing of its
//! own.

ghost use Rattle.kernel_session.specs.Laws.{SessionOnce, SessionStays};

use interp_core::{Determined, Interpreter};
use jmsg_envelope::{law_opened_once, law_refused_is_not_opened};
use kernel_engine::{Stop, law_one_course};
use zmtp_wire::{law_one_fault, law_one_reading, law_ready_has_one_outcome};

/// By the same courses and dates a session has one value, if what the peer sent ended it, and if each definition of the
/// language has one value at most. That is what is written, what is published and how it ended. Unless the peer's
/// octets merely ended, it stays so, whatever the peer sends after that.
pub fn law_one_session<I: Determined, T: Stop>()
    ensures once { SessionOnce I.meaning T.may_ask }
    ensures stays { SessionStays I.meaning T.may_ask }
{
    law_one_reading();
    law_one_fault();
    law_ready_has_one_outcome();
    law_opened_once();
    law_refused_is_not_opened();
    law_one_course::<I>();
}

/// Unless its octets merely ended, a session stays as it is, whatever the peer sends then, in any language.
pub fn law_session_stays<I: Interpreter, T: Stop>()
    ensures { SessionStays I.meaning T.may_ask }
{
    law_one_reading();
    law_one_fault();
    law_ready_has_one_outcome();
}
