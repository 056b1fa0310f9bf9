//! Tests of what no clause shows: that a parrot with ample memory answers at all.

use crate::parrot::Parrot;
use interp_core::{Interpreter, Next, Stepped};
use std::alloc::Global;
use std::test::Fail;

/// What a cell comes to.
fn said(alloc: Global, parrot: &mut Parrot, code: &str) -> Result<String, Fail> {
    let mut cell = parrot.begin(alloc, code)?;
    if parrot.steps_left(&cell) == 0 {
        return Err(Fail::new("no step"));
    }
    let Stepped { outputs, next } = parrot.step(alloc, &mut cell);
    drop(outputs);
    match next {
        Next::Done(Some(text)) => Ok(text.into_string()),
        other => {
            drop(other);
            Err(Fail::new("no value"))
        }
    }
}

#[test]
fn each_cell_says_what_the_last_one_did(rt: HostRuntime) -> Result<(), Fail> {
    let mut parrot = Parrot::new(rt.alloc());
    for (code, wanted) in [("Polly", ""), ("biscuit", "Polly"), ("", "biscuit")] {
        let found = said(rt.alloc(), &mut parrot, code)?;
        assert_eq!(rt; found.as_str(), wanted);
    }
    Ok(())
}
