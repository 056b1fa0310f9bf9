//! The numbers and the words of the faults.

use kernel_engine::EngineFault;
use std::alloc::{AllocError, Global};
use std::test::Fail;
use test_examples::request;

/// Whether a fault has this number and these words.
fn is_told(alloc: Global, fault: EngineFault, number: u8, words: &str) -> Result<bool, AllocError> {
    let found = fault.number();
    let text: Result<String, _> = fault.to_string(alloc);
    drop(fault);
    let text = text?;
    let is_so = found == number && text.as_str() == words;
    drop(text);
    Ok(is_so)
}

#[test]
fn faults_have_numbers_and_words(rt: HostRuntime) -> Result<(), Fail> {
    let alloc = rt.alloc();
    let owed = EngineFault::OwedIdle(request(alloc, "a", "execute_request", "")?);
    let owed = is_told(alloc, owed, 70, "an idle is owed")?;
    let memory = is_told(alloc, EngineFault::Memory, 71, "out of memory")?;
    let worn = is_told(alloc, EngineFault::Worn, 75, "all message ids were given")?;
    assert!(rt; owed && memory && worn);
    Ok(())
}
