//! What each request comes to, one row a request.

ghost use Rattle.std.specs.Prelude.{◌≡◌};
ghost use Rattle.kernel_engine.specs.Comes.{comes_to, interrupts, is_silent};

use crate::side::Side;
use jmsg_types::{MessageType, Publication, Reply, Request};
use listed::{Row, Text};

/// What the kernel is to do once a request was replied.
#[derive(Clone, Copy, Debug, PartialEq, Eq)]
pub enum Order {
    /// To go on.
    GoOn,
    /// To interrupt the cell that runs.
    Interrupt,
    /// To end.
    End {
        /// Whether it is to begin anew then.
        restart: bool,
    },
}

/// What the language is asked, which changes nothing.
#[derive(Drop)]
pub enum Look {
    /// What it says of itself.
    Info,
    /// How the word at a cursor may go on.
    Completion {
        /// The code.
        code: Text,
        /// The code points before the cursor.
        cursor: u64,
    },
    /// What is known of the word at a cursor.
    Inspection {
        /// The code.
        code: Text,
        /// The code points before the cursor.
        cursor: u64,
    },
    /// Whether a text is a whole cell.
    Completeness {
        /// The text.
        code: Text,
    },
}

/// What a request comes to.
#[derive(Drop)]
pub enum Does {
    /// This is published, and this is replied.
    Says {
        /// What is published.
        publication: Option<Publication>,
        /// What is replied.
        reply: Option<Reply>,
        /// What the kernel is to do then.
        order: Order,
    },
    /// What the language answers is replied.
    Looks(Look),
    /// A cell runs.
    Runs {
        /// The cell.
        code: Text,
        /// Whether nothing of it is published.
        silent: bool,
        /// Whether it counts.
        counts: bool,
        /// The expressions that are evaluated after it, by their names.
        expressions: Row<(Text, Text)>,
    },
    /// Its content is refused.
    Refuses {
        /// Its type.
        kind: MessageType,
        /// The name of the error.
        ename: Text,
        /// What the error says.
        evalue: Text,
    },
    /// No memory was left to read its content.
    Unread,
}

impl Does {
    /// This is replied, and nothing else is done.
    pub(crate) fn replies(reply: Reply) -> Does
        ensures { result ≡ Does.Says None (Some reply) Order.GoOn }
    {
        Does::Says {
            publication: None,
            reply: Some(reply),
            order: Order::GoOn,
        }
    }

    /// Whether nothing of it is published: a silent cell.
    pub(crate) fn is_silent(&self) -> bool
        ensures { result ≡ is_silent self.now }
    {
        match self {
            Does::Runs { silent, .. } => *silent,
            Does::Says { .. } | Does::Looks(_) | Does::Refuses { .. } | Does::Unread => false,
        }
    }

    /// Nothing is done.
    pub(crate) fn nothing() -> Does
        ensures { result ≡ Does.Says None None Order.GoOn }
    {
        Does::Says {
            publication: None,
            reply: None,
            order: Order::GoOn,
        }
    }
}

/// What a request comes to on a channel.
pub fn comes_to(side: Side, request: Request) -> Does
    ensures { result ≡ comes_to side request }
{
    match request {
        Request::KernelInfo => Does::Looks(Look::Info),
        Request::Execute {
            code,
            silent,
            store_history,
            user_expressions,
            allow_stdin: _,
            stop_on_error: _,
        } => Does::Runs {
            code,
            silent,
            counts: store_history,
            expressions: user_expressions,
        },
        Request::Complete { code, cursor_pos } => Does::Looks(Look::Completion {
            code,
            cursor: cursor_pos,
        }),
        Request::Inspect {
            code,
            cursor_pos,
            detail_level: _,
        } => Does::Looks(Look::Inspection {
            code,
            cursor: cursor_pos,
        }),
        Request::IsComplete { code } => Does::Looks(Look::Completeness { code }),
        Request::History => Does::replies(Reply::History),
        Request::CommInfo => Does::replies(Reply::CommInfo),
        Request::CommOpen { comm_id } => Does::Says {
            publication: Some(Publication::CommClose { comm_id }),
            reply: None,
            order: Order::GoOn,
        },
        Request::Shutdown { restart } => Does::Says {
            publication: None,
            reply: Some(Reply::Shutdown { restart }),
            order: Order::End { restart },
        },
        Request::Interrupt => Does::Says {
            publication: None,
            reply: Some(Reply::Interrupt),
            order: interrupts(side),
        },
        Request::CommMsg | Request::CommClose | Request::Unknown => Does::nothing(),
    }
}

/// What an interruption that is asked for on a channel makes the kernel do.
fn interrupts(side: Side) -> Order
    ensures { result ≡ interrupts side }
{
    match side {
        Side::Shell => Order::GoOn,
        Side::Control => Order::Interrupt,
    }
}
