//! A language of long cells.

ghost use Rattle.std.specs.Prelude.{◌≡◌, [], ◌∷◌, ◌==◌, ◌%◌, if◌then◌else◌, codes, IfOk};
ghost use Rattle.interp_core.specs.declared.answer.Output.TheVariants.{Stdout};

use interp_core::{
    Completeness, Completion, Info, InterpFault, Interpreter, Next, Output, Stepped,
};
use listed::{Row, Text};
use std::alloc::{AllocError, Global};
use std::thread;

/// The steps of each cell.
const STEPS: u64 = 1_000_000;

/// A language in which each text is a cell of a million steps, each of which lets other threads run
/// once. It writes a line if the steps that it has left are whole thousands. All else has a fault.
#[derive(Clone, Copy, Debug)]
pub(crate) struct Long;

/// A cell that runs.
#[derive(Clone, Copy, Debug)]
pub(crate) struct Running {
    /// How many steps it has left.
    steps: u64,
}

/// What a step writes before which a cell has so many left.
fn outputs(alloc: Global, steps: u64) -> Result<Vec<Output>, AllocError>
    ensures { IfOk result (λ outputs. outputs.items
        ≡ (if steps % 1000 == 0 then Stdout (codes "line\n") ∷ [] else [])) }
{
    let mut outputs = Vec::new(alloc);
    if steps % 1000 == 0 {
        let line = String::from_str(alloc, "line\n")?;
        outputs.push(Output::Stdout(Text::new(line)))?;
    }
    Ok(outputs)
}

impl Interpreter for Long {
    type Cell = Running;

    ghost use Rattle.std.specs.Prelude.{◌≡◌, [], ◌∷◌, ◌==◌, ◌%◌, ◌-◌, suc, if◌then◌else◌, codes, None, Ok, Err};
    ghost use Rattle.std.proofs.Common.{◌∙◌, sym, subst};
    ghost use Rattle.interp_core.specs.Interpreter.{FailsOwn, HasOwn, IsEnd};
    ghost use Rattle.interp_core.specs.declared.answer.Next.TheVariants.{More, Done};
    ghost use Rattle.interp_core.specs.declared.answer.Output.TheVariants.{Stdout};
    ghost use Rattle.interp_core.specs.declared.fault.InterpFault.TheVariants.{TooDeep};

    ghost meaning = { record {
      tells = λ state answer. answer ≡ Err TooDeep;
      begins = λ state text answer after.
          (answer ≡ Ok (record { steps = 1000000 })) × (after ≡ state);
      steps = λ cell. cell.steps;
      runs = λ state cell stepped after left. (stepped ≡ record {
        outputs = if cell.steps % 1000 == 0 then Stdout (codes "line\n") ∷ [] else [];
        next = if cell.steps == 1 then Done None else More;
      }) × (after ≡ state) × (left ≡ record { steps = cell.steps - 1 }) × (cell.steps ≡ suc left.steps)
          × FailsOwn stepped.next × (left.steps ≡ 0 → IsEnd stepped.next);
      breaks_off = λ state cell after. after ≡ state;
      completes = λ state text cursor answer. answer ≡ Err TooDeep;
      inspects = λ state text cursor answer. answer ≡ Err TooDeep;
      judges = λ state text answer. answer ≡ Err TooDeep;
      evaluates = λ state text answer after. (answer ≡ Err TooDeep) × (after ≡ state);
      gives_up = λ state text after. after ≡ state;
    } };

    fn info(&self, _alloc: Global) -> Result<Info, InterpFault> {
        Err(InterpFault::TooDeep)
    }

    fn begin(&mut self, _alloc: Global, _code: &str) -> Result<Running, InterpFault> {
        Ok(Running { steps: STEPS })
    }

    fn steps_left(&self, cell: &Running) -> u64 {
        cell.steps
    }

    fn step(&mut self, alloc: Global, cell: &mut Running) -> Stepped {
        thread::yield_now();
        let steps = cell.steps;
        cell.steps = steps - 1;
        match outputs(alloc, steps) {
            Ok(outputs) => Stepped {
                outputs: Row::new(outputs),
                next: if steps == 1 {
                    Next::Done(None)
                } else {
                    Next::More
                },
            },
            Err(AllocError) => Stepped {
                outputs: Row::new(Vec::new(alloc)),
                next: Next::Failed(InterpFault::OutOfMemory),
            },
        }
    }

    fn complete(
        &self,
        _alloc: Global,
        _code: &str,
        _cursor: u64,
    ) -> Result<Completion, InterpFault> {
        Err(InterpFault::TooDeep)
    }

    fn inspect(
        &self,
        _alloc: Global,
        _code: &str,
        _cursor: u64,
    ) -> Result<Option<Text>, InterpFault> {
        Err(InterpFault::TooDeep)
    }

    fn is_complete(&self, _alloc: Global, _code: &str) -> Result<Completeness, InterpFault> {
        Err(InterpFault::TooDeep)
    }

    fn evaluate(&mut self, _alloc: Global, _text: &str) -> Result<Text, InterpFault> {
        Err(InterpFault::TooDeep)
    }

    ghost laws = { record {
      lessened = λ state cell stepped after left p. p.3;
      ended = λ state cell stepped after left p none. p.5 none;
      own_info = λ state answer p. subst HasOwn (sym p) tt;
      own_begin = λ state text answer after p. subst HasOwn (sym p.0) tt;
      own_step = λ state cell stepped after left p. p.4;
      own_completion = λ state text cursor answer p. subst HasOwn (sym p) tt;
      own_inspection = λ state text cursor answer p. subst HasOwn (sym p) tt;
      own_judgement = λ state text answer p. subst HasOwn (sym p) tt;
      own_evaluation = λ state text answer after p. subst HasOwn (sym p.0) tt;
    } };
}
