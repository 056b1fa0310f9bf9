//! What is wrong with a content, its number and its words.

ghost use Rattle.std.specs.Prelude.{◌≡◌, Some, IfOk, IfErr, option_map};
ghost use Rattle.jmsg_types.specs.Fault.{content_fault_number, refusal_of};
ghost use Rattle.jmsg_types.specs.Words.{refusal_name, refusal_value};
ghost use Rattle.jmsg_types.specs.declared.fault.ContentFault.TheVariants.{OutOfMemory};

use listed::Text;
use std::alloc::{AllocError, AllocFailed, Global};
use thiserror::Error;

/// The name under which a refused content is reported.
const REFUSAL: &str = "ContentError";

/// What is said of a content that is no JSON.
const NOT_JSON: &str = "content is not JSON";

/// What is said of a content that is no object.
const NOT_AN_OBJECT: &str = "content is not an object";

/// What is said of a field, before its name.
const FIELD: &str = "field ";

/// Why a content was not read, or not written.
#[derive(Clone, Copy, Debug, PartialEq, Eq, Error)]
pub enum ContentFault {
    /// The content is no JSON in UTF-8.
    #[error("{}", NOT_JSON)]
    NotJson,
    /// The content is JSON, and no object.
    #[error("{}", NOT_AN_OBJECT)]
    NotAnObject,
    /// The first field, in the order of judging, that is missing without a default or of a wrong kind.
    #[error("{word}{0}", word = FIELD)]
    Field(&'static str),
    /// An allocation was refused.
    #[error("out of memory")]
    OutOfMemory,
}

impl ContentFault {
    /// The number of this fault, for a report that has room for a number only.
    pub fn number(self) -> u8
        ensures { result ≡ content_fault_number self }
    {
        match self {
            ContentFault::NotJson => 30,
            ContentFault::NotAnObject => 31,
            ContentFault::Field(_) => 32,
            ContentFault::OutOfMemory => 33,
        }
    }
}

impl From<AllocError> for ContentFault {
    ghost from_gives = { λ _ fault. fault ≡ OutOfMemory };

    fn from(_refused: AllocError) -> ContentFault {
        ContentFault::OutOfMemory
    }
}

impl<T: Drop> From<AllocFailed<T>> for ContentFault {
    ghost from_gives = { λ _ fault. fault ≡ OutOfMemory };

    fn from(_refused: AllocFailed<T>) -> ContentFault {
        ContentFault::OutOfMemory
    }
}

/// The `ename` and the `evalue` by which a reply reports a refused content.
///
/// # Errors
///
/// `OutOfMemory` alone: if there is none for the words, and if it is the fault itself.
pub fn content_words(
    alloc: Global,
    fault: &ContentFault,
) -> Result<(&'static str, Text), ContentFault>
    ensures name { IfOk result (λ words. words.0.now ≡ refusal_name) }
    ensures value { IfOk result
        (λ words. option_map refusal_value (refusal_of fault.now) ≡ Some words.1) }
    ensures memory { IfErr result (λ refused. refused ≡ OutOfMemory) }
{
    let value = match fault {
        ContentFault::NotJson => String::from_str(alloc, NOT_JSON)?,
        ContentFault::NotAnObject => String::from_str(alloc, NOT_AN_OBJECT)?,
        ContentFault::Field(name) => format!(in alloc; "{FIELD}{name}")?,
        ContentFault::OutOfMemory => return Err(ContentFault::OutOfMemory),
    };
    Ok((REFUSAL, Text::new(value)))
}
