//! The language of a parrot: what a cell comes to is the text of the cell before it.

ghost use Rattle.std.specs.Prelude.{◌≡◌, [], IfOk};
ghost use Rattle.parrot_cells.specs.Parrot.{parrot_info};

use interp_core::{
    Completeness, Completion, Determined, Info, InterpFault, Interpreter, Next, Stepped,
};
use listed::{Row, Text};
use std::alloc::{AllocError, Global};
use std::marker::Model;
use std::mem;

/// The interpreter: a contract sees the text that it heard last.
#[derive(Drop)]
pub struct Parrot {
    /// What it heard last.
    heard: Text,
}

impl Model for Parrot {
    ghost use Rattle.std.specs.Prelude.{ℕ, List};

    ghost Value = { List ℕ };

    ghost view = { λ parrot. parrot.heard };
}

impl Parrot {
    /// A parrot that has heard nothing yet.
    pub fn new(alloc: Global) -> Parrot
        ensures { result ≡ [] }
    {
        Parrot {
            heard: Text::new(String::new(alloc)),
        }
    }
}

/// A cell: a contract sees its text, or none once it has run.
#[derive(Drop)]
pub struct Saying {
    /// The text, until it runs.
    text: Option<Text>,
}

impl Model for Saying {
    ghost use Rattle.std.specs.Prelude.{ℕ, List, Option};

    ghost Value = { Option (List ℕ) };

    ghost view = { λ saying. saying.text };
}

/// A text that is owned.
fn owned(alloc: Global, text: &str) -> Result<Text, AllocError>
    ensures { IfOk result (λ owned. owned ≡ text.now) }
{
    Ok(Text::new(String::from_str(alloc, text)?))
}

/// Two texts that are owned.
fn pair(alloc: Global, first: &str, second: &str) -> Result<(Text, Text), AllocError>
    ensures { IfOk result (λ pair. (pair.0 ≡ first.now) × (pair.1 ≡ second.now)) }
{
    let first = owned(alloc, first)?;
    let second = owned(alloc, second)?;
    Ok((first, second))
}

/// What the language says of itself.
fn info(alloc: Global) -> Result<Info, AllocError>
    ensures { IfOk result (λ info. info ≡ parrot_info) }
{
    let (name, banner) = pair(alloc, "parrot", "A parrot")?;
    let (mimetype, file_extension) = pair(alloc, "text/plain", ".txt")?;
    let version = owned(alloc, "1.0")?;
    Ok(Info {
        banner,
        file_extension,
        mimetype,
        name,
        version,
    })
}

impl Interpreter for Parrot {
    type Cell = Saying;

    ghost use Rattle.parrot_cells.specs.Parrot.{parrot_laws, parrot_meaning};

    ghost meaning = { parrot_meaning };

    fn info(&self, alloc: Global) -> Result<Info, InterpFault> {
        Ok(info(alloc)?)
    }

    fn begin(&mut self, alloc: Global, code: &str) -> Result<Saying, InterpFault> {
        let text = owned(alloc, code)?;
        Ok(Saying { text: Some(text) })
    }

    fn steps_left(&self, cell: &Saying) -> u64 {
        match cell.text {
            Some(_) => 1,
            None => 0,
        }
    }

    fn step(&mut self, alloc: Global, cell: &mut Saying) -> Stepped {
        let Some(text) = cell.text.take() else {
            unreachable!();
        };
        let heard = mem::replace(&mut self.heard, text);
        Stepped {
            outputs: Row::new(Vec::new(alloc)),
            next: Next::Done(Some(heard)),
        }
    }

    fn complete(&self, alloc: Global, _code: &str, at: u64) -> Result<Completion, InterpFault> {
        Ok(Completion {
            matches: Row::new(Vec::new(alloc)),
            start: at,
            end: at,
        })
    }

    fn inspect(&self, _alloc: Global, _code: &str, _at: u64) -> Result<Option<Text>, InterpFault> {
        Ok(None)
    }

    fn is_complete(&self, _alloc: Global, _code: &str) -> Result<Completeness, InterpFault> {
        Ok(Completeness::Complete)
    }

    fn evaluate(&mut self, alloc: Global, text: &str) -> Result<Text, InterpFault> {
        Ok(owned(alloc, text)?)
    }

    ghost laws = { parrot_laws };
}

impl Determined for Parrot {
    ghost use Rattle.parrot_cells.specs.Parrot.{parrot_once};

    ghost once = { parrot_once };
}
