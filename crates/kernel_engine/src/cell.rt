//! Cells that run step by step, and are published.

ghost use Rattle.std.specs.Prelude.{◌≡◌, ◌+◌, ◌<◌, [], ◌∷◌, Some, None, Ok, Err, IfOk, MatchOption, MatchResult};
ghost use Rattle.interp_core.specs.Fault.{fault_name, fault_value};
ghost use Rattle.interp_core.specs.declared.answer.Next.TheVariants.{More};
ghost use Rattle.jmsg_types.specs.declared.publication.Publication.TheVariants.{Error, ExecuteInput};
ghost use Rattle.kernel_engine.specs.Course.{CellRuns, IsOutcome, TextRuns};
ghost use Rattle.kernel_engine.specs.Growth.{PutsUnder, unless_silent};
ghost use Rattle.kernel_engine.specs.Publications.{last_of};
ghost use Rattle.kernel_engine.specs.Runs.{RunsCut, RunsWhole, TellsCut, TellsWhole, Underway, failure_of};

use crate::open_block::OpenBlock;
use crate::parts::Parts;
use crate::publishing::Publishing;
use crate::stop::Stop;
use crate::words::error_words;
use interp_core::{InterpFault, Interpreter, Next, Stepped};
use iopub_event::Event;
use iopub_queue::Publish;
use jmsg_envelope::Stamp;
use jmsg_types::Publication;
use listed::Text;
use std::alloc::{AllocError, Global};

/// What came of a cell: its last value or none, or why it failed.
type Outcome = Result<Option<Text>, InterpFault>;

/// What came of a cell by a step, if it was the last.
fn outcome_of(next: Next) -> Option<Outcome>
    ensures { MatchOption result (next ≡ More) (λ outcome. IsOutcome next outcome) }
{
    match next {
        Next::More => None,
        Next::Done(value) => Some(Ok(value)),
        Next::Failed(fault) => Some(Err(fault)),
    }
}

/// Runs one step of a cell, unless the cell is to be interrupted, and publishes what it wrote. Answers what came of the
/// cell, if this ended it.
fn run_one<I: Interpreter, P, S: Stamp, T: Stop, W: Drop>(
    alloc: Global,
    interp: &mut I,
    publishing: &mut Publishing<P, S>,
    block: &OpenBlock,
    stop: &T,
    cell: &mut I::Cell,
) -> Result<Option<Outcome>, AllocError>
where
    P: Publish<Item = Event<W>>,
    requires { 0 < I.meaning.steps cell.old }
    ensures ran { let grew = PutsUnder P.sink S.stamp block.now.heading publishing.old publishing.new in
        let runs = CellRuns I.meaning interp.old cell.old in
        MatchResult result
        (λ ended. MatchOption ended (Underway I.meaning interp.old cell.old interp.new cell.new grew block.now.silent)
        (λ outcome. RunsWhole runs (T.may_ask stop.now) outcome interp.new grew block.now.silent))
        (λ _. RunsCut runs interp.new grew block.now.silent) }
    ensures lessened { result ≡ Ok None → I.meaning.steps cell.new + 1 ≡ I.meaning.steps cell.old }
{
    if stop.asked() {
        return Ok(Some(Err(InterpFault::Interrupted)));
    }
    let Stepped { outputs, next } = interp.step(alloc, cell);
    publishing.put_outputs(alloc, block, outputs)?;
    Ok(outcome_of(next))
}

/// Runs the steps of a cell, and publishes what they wrote: what came of the cell.
fn run_steps<I: Interpreter, P, S: Stamp, T: Stop, W: Drop>(
    alloc: Global,
    interp: &mut I,
    publishing: &mut Publishing<P, S>,
    block: &OpenBlock,
    stop: &T,
    mut cell: I::Cell,
) -> Result<Outcome, AllocError>
where
    P: Publish<Item = Event<W>>,
    ensures { let grew = PutsUnder P.sink S.stamp block.now.heading publishing.old publishing.new in
        let runs = CellRuns I.meaning interp.old cell in
        MatchResult result (λ outcome. RunsWhole runs (T.may_ask stop.now) outcome interp.new grew block.now.silent)
        (λ _. RunsCut runs interp.new grew block.now.silent) }
{
    'steps: while interp.steps_left(&cell) > 0 {
        let ended = run_one(alloc, interp, publishing, block, stop, &mut cell)?;
        match ended {
            Some(outcome) => return Ok(outcome),
            None => {}
        }
    }
    Ok(Ok(None))
}

/// Runs the cell of a text, and publishes what it wrote: what came of it.
fn run_text<I: Interpreter, P, S: Stamp, T: Stop, W: Drop>(
    alloc: Global,
    interp: &mut I,
    publishing: &mut Publishing<P, S>,
    block: &OpenBlock,
    stop: &T,
    code: &str,
) -> Result<Outcome, AllocError>
where
    P: Publish<Item = Event<W>>,
    ensures { let grew = PutsUnder P.sink S.stamp block.now.heading publishing.old publishing.new in
        let runs = TextRuns I.meaning interp.old code.now in
        MatchResult result (λ outcome. RunsWhole runs (T.may_ask stop.now) outcome interp.new grew block.now.silent)
        (λ _. RunsCut runs interp.new grew block.now.silent) }
{
    match interp.begin(alloc, code) {
        Ok(cell) => run_steps(alloc, interp, publishing, block, stop, cell),
        Err(fault) => Ok(Err(fault)),
    }
}

/// Publishes why a cell failed.
fn put_failure<P, S: Stamp, W: Drop>(
    alloc: Global,
    publishing: &mut Publishing<P, S>,
    block: &OpenBlock,
    fault: &InterpFault,
) -> Result<(), AllocError>
where
    P: Publish<Item = Event<W>>,
    ensures { let grew = PutsUnder P.sink S.stamp block.now.heading publishing.old publishing.new in
        let error = Error (fault_name fault.now) (fault_value fault.now) in
        MatchResult result (λ _. grew (unless_silent block.now.silent (error ∷ []))) (λ _. grew []) }
{
    let (ename, evalue) = error_words(alloc, fault)?;
    let error = Publication::Error { ename, evalue };
    publishing.put(alloc, block, error)
}

/// Publishes what came of a cell: why it failed, if it did.
fn put_last<P, S: Stamp, W: Drop>(
    alloc: Global,
    publishing: &mut Publishing<P, S>,
    block: &OpenBlock,
    count: u64,
    outcome: Outcome,
) -> Result<Option<InterpFault>, AllocError>
where
    P: Publish<Item = Event<W>>,
    ensures { let grew = PutsUnder P.sink S.stamp block.now.heading publishing.old publishing.new in
        MatchResult result
        (λ failure. (failure ≡ failure_of outcome) × grew (unless_silent block.now.silent (last_of count outcome)))
        (λ _. grew []) }
{
    match outcome {
        Ok(None) => Ok(None),
        Ok(Some(text)) => {
            let result = Publication::ExecuteResult { text, count };
            publishing.put(alloc, block, result)?;
            Ok(None)
        }
        Err(fault) => match put_failure(alloc, publishing, block, &fault) {
            Ok(()) => Ok(Some(fault)),
            Err(AllocError) => {
                drop(fault);
                Err(AllocError)
            }
        },
    }
}

/// The cell itself, as it is published.
fn execute_input(alloc: Global, code: &str, count: u64) -> Result<Publication, AllocError>
    ensures { IfOk result (λ input. input ≡ ExecuteInput code.now count) }
{
    let code = Text::new(String::from_str(alloc, code)?);
    Ok(Publication::ExecuteInput { code, count })
}

/// Publishes the cell itself, unless it is silent.
#[tactic(auto, using(crate::proofs::GrowthLemmas::puts_none))]
fn put_input<P, S: Stamp, W: Drop>(
    alloc: Global,
    publishing: &mut Publishing<P, S>,
    block: &OpenBlock,
    code: &str,
    count: u64,
) -> Result<(), AllocError>
where
    P: Publish<Item = Event<W>>,
    ensures { let grew = PutsUnder P.sink S.stamp block.now.heading publishing.old publishing.new in
        MatchResult result (λ _. grew (unless_silent block.now.silent (ExecuteInput code.now count ∷ [])))
        (λ _. grew []) }
{
    if block.silent {
        return Ok(());
    }
    let input = execute_input(alloc, code, count)?;
    publishing.put(alloc, block, input)
}

impl<I: Interpreter, P, S: Stamp, W: Drop> Parts<I, P, S, W>
where
    P: Publish<Item = Event<W>>,
{
    /// Runs the cell of a text and publishes it: the cell, what it wrote, what came of it. Why it failed, if it did.
    pub(crate) fn run_cell<T: Stop>(
        &mut self,
        alloc: Global,
        block: &OpenBlock,
        stop: &T,
        code: &str,
    ) -> Result<Option<InterpFault>, AllocError>
        ensures ran { let grew = PutsUnder P.sink S.stamp block.now.heading self.old.publishing self.new.publishing in
            let runs = TextRuns I.meaning self.old.interp code.now in
            let may = T.may_ask stop.now in
            let count = self.old.count in
            MatchResult result
            (λ failure. TellsWhole runs may code.now count failure self.new.interp grew block.now.silent)
            (λ _. TellsCut runs may code.now count self.new.interp grew block.now.silent) }
        ensures rest { self.new ≡ record self.old { interp = self.new.interp; publishing = self.new.publishing } }
    {
        let publishing = &mut self.publishing;
        put_input(alloc, publishing, block, code, self.count)?;
        let outcome = run_text(alloc, &mut self.interp, publishing, block, stop, code)?;
        put_last(alloc, publishing, block, self.count, outcome)
    }
}
