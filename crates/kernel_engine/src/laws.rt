//! A law of what one request makes of a kernel, which rests on the definitions and on the laws of a language whose
//! definitions each have one value at most. It is the contract of a function that does nothing.

ghost use Rattle.kernel_engine.specs.Laws.{AnswersOnce, PublishesOnce};

use interp_core::Determined;

/// A law with no code: by one course, what is published of a request has one value at most, and so has what it is
/// answered.
pub fn law_one_course<I: Determined>()
    ensures published { PublishesOnce I.meaning }
    ensures answered { AnswersOnce I.meaning }
{}
