//! Requests to run a cell.

ghost use Rattle.std.specs.Prelude.{◌≡◌, IfOk, MatchResult};
ghost use Rattle.interp_core.specs.Fault.{fault_name, fault_value};
ghost use Rattle.jmsg_types.specs.declared.reply.Reply.TheVariants.{ExecuteError};
ghost use Rattle.kernel_engine.specs.Growth.{PutsUnder};
ghost use Rattle.kernel_engine.specs.Responds.{ExecutedCut, ExecutedWhole};

use crate::expressions::evaluate_all;
use crate::open_block::OpenBlock;
use crate::parts::Parts;
use crate::stop::Stop;
use crate::words::error_words;
use interp_core::{InterpFault, Interpreter};
use iopub_event::Event;
use iopub_queue::Publish;
use jmsg_envelope::Stamp;
use jmsg_types::Reply;
use listed::{Row, Text};
use std::alloc::{AllocError, Global};

impl<I: Interpreter, P, S: Stamp, W: Drop> Parts<I, P, S, W>
where
    P: Publish<Item = Event<W>>,
{
    /// Runs a cell, publishes it unless it is silent, and evaluates the user expressions if it didn't fail: the reply.
    /// The execution count is the one after the cell.
    pub(crate) fn execute<T: Stop>(
        &mut self,
        alloc: Global,
        block: &OpenBlock,
        stop: &T,
        code: Text,
        expressions: Row<(Text, Text)>,
    ) -> Result<Reply, AllocError>
        ensures ran { let grew = PutsUnder P.sink S.stamp block.now.heading self.old.publishing self.new.publishing in
            let may = T.may_ask stop.now in
            let silent = block.now.silent in
            let count = self.old.count in
            MatchResult result
            (λ reply. ExecutedWhole I.meaning may silent code expressions count self.old.interp reply self.new.interp
            grew)
            (λ _. ExecutedCut I.meaning may silent code expressions count self.old.interp self.new.interp grew) }
        ensures rest { self.new ≡ record self.old { interp = self.new.interp; publishing = self.new.publishing } }
    {
        let count = self.count;
        let failure = self.run_cell(alloc, block, stop, code.as_str());
        drop(code);
        let Ok(failure) = failure else {
            drop(expressions);
            return Err(AllocError);
        };
        match failure {
            None => {
                let values = evaluate_all(alloc, &mut self.interp, expressions)?;
                Ok(Reply::ExecuteOk { count, values })
            }
            Some(fault) => {
                drop(expressions);
                tell_failure(alloc, fault, count)
            }
        }
    }
}

/// Why a cell failed, as a reply.
fn tell_failure(alloc: Global, fault: InterpFault, count: u64) -> Result<Reply, AllocError>
    ensures { IfOk result (λ reply. reply ≡ ExecuteError (fault_name fault) (fault_value fault) count) }
{
    let words = error_words(alloc, &fault);
    drop(fault);
    let (ename, evalue) = words?;
    Ok(Reply::ExecuteError {
        ename,
        evalue,
        count,
    })
}
