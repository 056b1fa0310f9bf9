//! Laws of the grammar of frames, which rest on its definitions alone. Each is the contract of a function
//! that does nothing.

ghost use Rattle.zmtp_wire.specs.Laws.{FrontHasOneReading, ReadingGoesOn, WholeHasOneReading, FeedsReadJoined};
ghost use Rattle.zmtp_wire.specs.Laws.{CuttingsAgree, HasOneFault, FaultyHasNoTraffic, FaultStays, TextIsReadFirst};

/// No octets are read in two ways. What stands at the front is one traffic and its rest. Of two readings one goes on
/// from the end of the other. If octets are read until no whole traffic is left, the traffic and the rest are these and
/// no others.
pub fn law_one_reading()
    ensures front { FrontHasOneReading }
    ensures goes_on { ReadingGoesOn }
    ensures whole { WholeHasOneReading }
{}

/// The cutting doesn't matter. What feeds in turn read of their pieces is what is read of the pieces joined. Two
/// cuttings of one stream give the same traffic and leave the same rest.
pub fn law_any_cutting()
    ensures joined { FeedsReadJoined }
    ensures same { CuttingsAgree }
{}

/// What is refused is refused for one fault, begins with no whole traffic, and stays refused however it goes on.
pub fn law_one_fault()
    ensures once { HasOneFault }
    ensures no_traffic { FaultyHasNoTraffic }
    ensures stays { FaultStays }
{}

/// A message within the limits is read from its text first, whatever follows.
pub fn law_text_is_read_first()
    ensures { TextIsReadFirst }
{}
