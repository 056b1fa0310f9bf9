//! What an engine leaves.

ghost use Rattle.std.specs.Prelude.{◌≡◌, is_some};
ghost use Rattle.kernel_engine.specs.WellBlocked.{KeepsBlocks};
ghost use Rattle.kernel_engine.specs.World.{world_of};

use crate::parts::Parts;
use interp_core::Interpreter;
use iopub_event::Event;
use iopub_queue::Publish;
use jmsg_envelope::Stamp;
use std::marker::Model;

/// What an engine leaves that was closed: its parts. Its interpreter, its sink, its stamp and its signer come back of
/// these. What it published is well blocked. The last block is open exactly if its idle is owed.
#[derive(Drop)]
pub struct EngineEnd<I: Interpreter, P, S: Stamp, W>
where
    P: Publish<Item = Event<W>>,
{
    /// The parts of the engine.
    parts: Parts<I, P, S, W>,
}

impl<I: Interpreter, P, S: Stamp, W> Model for EngineEnd<I, P, S, W>
where
    P: Publish<Item = Event<W>>,
{
    ghost use Rattle.kernel_engine.specs.declared.parts.Parts.{Parts};

    ghost Value = { Parts I P S W };

    ghost use Rattle.kernel_engine.specs.Within.{parts_at_end, IsSoundAtEnd};
    ghost use Rattle.kernel_engine.specs.World.{world_of};

    ghost view = { parts_at_end };

    ghost invariant = { IsSoundAtEnd (world_of I.meaning P.sink S.stamp) };
}

impl<I: Interpreter, P, S: Stamp, W> EngineEnd<I, P, S, W>
where
    P: Publish<Item = Event<W>>,
{
    /// The end of an engine with these parts.
    pub(crate) fn new(parts: Parts<I, P, S, W>) -> EngineEnd<I, P, S, W>
        requires { KeepsBlocks (world_of I.meaning P.sink S.stamp) parts }
        ensures { result ≡ parts }
    {
        EngineEnd { parts }
    }

    /// Whether an idle is owed still.
    pub fn owed(&self) -> bool
        ensures { result ≡ is_some self.now.owed }
    {
        self.parts.owed.is_some()
    }

    /// The parts of the engine.
    pub fn into_parts(self) -> Parts<I, P, S, W>
        ensures parts { result ≡ self }
        ensures kept { KeepsBlocks (world_of I.meaning P.sink S.stamp) result }
    {
        self.parts
    }
}
