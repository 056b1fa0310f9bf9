//! Laws of lives and feeds, which rest on their definitions alone. Each is the contract of a function that does
//! nothing.

ghost use Rattle.iopub_relay.specs.Laws.{GetsEverything, LifeBegan, MatchBegins, NoMatchBeginsNot, WhoCameLives};
ghost use Rattle.iopub_relay.specs.Laws.{WhoLeftLivesNot};

/// A subscriber of everything gets the texts of all messages, joined: one that comes, subscribes to the empty topic
/// and then hears messages of at least one frame each.
pub fn law_subscriber_of_everything<W>()
    ensures { GetsEverything W }
{}

/// A message matches exactly if its first frame begins with a topic that is held.
pub fn law_matching_is_beginning()
    ensures matches { MatchBegins }
    ensures none { NoMatchBeginsNot }
{}

/// A subscriber is there exactly if the last of its comings and leavings is a coming. Its life began with the first
/// coming since it last left.
pub fn law_life_is_since_it_came<W>()
    ensures began { LifeBegan W }
    ensures came { WhoCameLives W }
    ensures left { WhoLeftLivesNot W }
{}
