//! What became of the jobs of a worker.

ghost use Rattle.std.specs.Prelude.{◌≡◌, [], ◌∷◌, ◌++◌};
ghost use Rattle.kernel_workers.specs.Outcomes.{Records, is_undone, replied_by};

use ghost_log::Log;
use kernel_jobs::ReplyTo;
use listed::Frames;
use std::marker::Model;
use std::sync::Wait;

/// What became of a job.
#[derive(Drop)]
pub enum Outcome {
    /// It was done, and this is its reply.
    Replied(Frames),
    /// It was done, and has no reply.
    NoReply,
    /// It is no request under the kernel's key, so there was nothing to be done.
    NoRequest,
    /// It was left undone: there was no memory to read it.
    NoMemory,
    /// It was refused, or cut short: for want of memory, or since all ids were given.
    Refused,
    /// It was left undone, since the kernel was to end.
    Ending,
}

impl Outcome {
    /// That it was done, and has this reply, or none.
    pub(crate) fn replied(reply: Option<Frames>) -> Outcome
        ensures { result ≡ replied_by reply }
    {
        match reply {
            Some(frames) => Outcome::Replied(frames),
            None => Outcome::NoReply,
        }
    }

    /// Whether it wasn't done to its end.
    fn is_undone(&self) -> bool
        ensures { result ≡ is_undone self.now }
    {
        match self {
            Outcome::NoMemory | Outcome::Refused | Outcome::Ending => true,
            Outcome::Replied(_) | Outcome::NoReply | Outcome::NoRequest => false,
        }
    }
}

/// What was answered to a message.
#[derive(Drop)]
pub struct Answer {
    /// To which message.
    pub to: ReplyTo,
    /// What became of it.
    pub outcome: Outcome,
}

/// The answers that a worker gave. A contract sees their list, in order.
#[derive(Drop)]
pub struct Answers {
    /// The answers.
    given: Log<Answer>,
}

impl Model for Answers {
    ghost use Rattle.std.specs.Prelude.{List};
    ghost use Rattle.kernel_workers.specs.declared.outcomes.Answer.{Answer};

    ghost Value = { List Answer };

    ghost view = { λ answers. answers.given.items };
}

impl Answers {
    /// None yet.
    fn new() -> Answers
        ensures { result ≡ [] }
    {
        Answers { given: Log::new() }
    }

    /// Gives an answer: sends the reply, if there is one.
    fn give<R: Wait>(&mut self, rt: &R, answer: Answer)
        ensures { self.new ≡ self.old ++ answer ∷ [] }
    {
        self.given = self.given.and(&answer);
        let Answer { to, outcome } = answer;
        match outcome {
            Outcome::Replied(frames) => to.send(rt, frames),
            other => {
                drop(other);
                drop(to);
            }
        }
    }
}

/// What became of the jobs of a worker.
#[derive(Drop)]
pub struct Outcomes {
    /// The answers to them, which only contracts read.
    pub answers: Answers,
    /// How many weren't done to their end: for want of memory, since all ids were given, or since the kernel was to
    /// end. At the greatest number it stays.
    pub undone: u64,
}

impl Outcomes {
    /// Of no jobs.
    pub(crate) fn new() -> Outcomes
        ensures answers { result.answers ≡ [] }
        ensures undone { result.undone ≡ 0 }
    {
        Outcomes {
            answers: Answers::new(),
            undone: 0,
        }
    }

    /// Answers a job by what became of it, and counts it if it wasn't done to its end.
    pub(crate) fn record<R: Wait>(&mut self, rt: &R, to: ReplyTo, outcome: Outcome)
        ensures { Records to outcome self.old self.new }
    {
        if outcome.is_undone() {
            self.undone = self.undone.saturating_add(1);
        }
        self.answers.give(rt, Answer { to, outcome });
    }
}
