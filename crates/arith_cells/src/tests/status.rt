//! How the program ends by its command words, and the lines for a person.

use crate::status::{Status, judge_words};
use std::alloc::Global;
use std::io::{self, ErrorKind};
use std::test::Fail;

/// Command words as the system gives them.
fn words(alloc: Global, given: &[&str]) -> Result<Vec<String>, Fail> {
    let mut words = Vec::new(alloc);
    for word in given {
        words.push(String::from_str(alloc, word)?)?;
    }
    Ok(words)
}

#[test]
fn any_word_is_refused(rt: HostRuntime) -> Result<(), Fail> {
    let alloc = rt.alloc();
    let none = words(alloc, &["arith_cells"])?;
    assert_eq!(rt; judge_words(Ok(none.into_iter())), None);
    let nameless = words(alloc, &[])?;
    assert_eq!(rt; judge_words(Ok(nameless.into_iter())), None);
    for given in ["1+1", "--help", "-", ""] {
        let some = words(alloc, &["arith_cells", given])?;
        let ended = judge_words(Ok(some.into_iter()));
        assert_eq!(rt; ended, Some(Status::WordsRefused), "at {given}");
    }
    Ok(())
}

#[test]
fn words_that_cannot_be_read_are_refused_and_want_of_memory_is_a_failure(rt: HostRuntime) {
    let no_text = Err(io::Error::from(ErrorKind::InvalidData));
    assert_eq!(rt; judge_words(no_text), Some(Status::WordsRefused));
    let no_memory = Err(io::Error::from(ErrorKind::OutOfMemory));
    assert_eq!(rt; judge_words(no_memory), Some(Status::Failed));
}

#[test]
fn each_status_has_its_number_and_its_line(rt: HostRuntime) {
    for (status, code, line) in [
        (Status::Done, 0, None),
        (Status::Failed, 1, Some("arith_cells: failed")),
        (Status::WordsRefused, 2, Some("usage: arith_cells < CELLS")),
    ] {
        assert_eq!(rt; status.code(), code);
        assert_eq!(rt; status.line(), line);
    }
}
