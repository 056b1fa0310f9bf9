//! Laws of how a peer is opened, and of what it comes to with a server, which rest on the definitions alone. Each is
//! the contract of a function that does nothing of its own.

ghost use Rattle.zmtp_connection.specs.Laws.{OpenOrTurnedAway, ServesOn, ServesOnce};

use crate::server::Server;
use zmtp_wire::{law_one_fault, law_one_reading, law_ready_has_one_outcome};

/// No peer is both open and turned away.
pub fn law_open_or_turned_away()
    ensures { OpenOrTurnedAway }
{
    law_one_reading();
    law_one_fault();
    law_ready_has_one_outcome();
}

/// What a peer comes to with a server that is a function has one value, if what the peer sent ended it. That is what is
/// written, what the server is then and how it ended. Unless the peer's octets merely ended, it stays so, whatever the
/// peer sends after that.
pub fn law_one_serving<S: Server>()
    ensures once { ServesOnce S.answers }
    ensures stays { ServesOn S.answers }
{
    law_one_reading();
    law_one_fault();
    law_ready_has_one_outcome();
}
