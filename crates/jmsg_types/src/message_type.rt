//! The types of the messages that are requests, and of their replies.

ghost use Rattle.std.specs.Prelude.{◌≡◌, option_map};
ghost use Rattle.jmsg_types.specs.Request.{message_type, reply_type_of, row_of};

/// The type of a message that is a request.
#[derive(Clone, Copy, Debug, PartialEq, Eq)]
pub enum MessageType {
    /// What is this kernel?
    KernelInfoRequest,
    /// Run a cell.
    ExecuteRequest,
    /// How may the word at the cursor go on?
    CompleteRequest,
    /// What is the word at the cursor?
    InspectRequest,
    /// Is this a whole cell?
    IsCompleteRequest,
    /// Which cells ran before?
    HistoryRequest,
    /// Which comms are open?
    CommInfoRequest,
    /// Open a comm.
    CommOpen,
    /// A message of a comm.
    CommMsg,
    /// A comm was closed.
    CommClose,
    /// End, or begin anew.
    ShutdownRequest,
    /// Stop the cell that runs.
    InterruptRequest,
}

/// On which channels a type of message has a meaning.
#[derive(Clone, Copy, Debug, PartialEq, Eq)]
pub enum Heard {
    /// On shell and on control.
    Everywhere,
    /// On shell alone.
    OnShell,
    /// On none.
    Nowhere,
}

/// Which error replies to a type of message ("Request-Reply").
#[derive(Clone, Copy, Debug, PartialEq, Eq)]
pub enum ErrorForm {
    /// None, since no message replies to it.
    NoError,
    /// The name and the value of the error.
    Plain,
    /// These, and the execution count.
    Counted,
}

impl MessageType {
    /// The type of this name.
    pub fn from_name(name: &str) -> Option<MessageType>
        ensures { result ≡ message_type name.now }
    {
        match name {
            "kernel_info_request" => Some(MessageType::KernelInfoRequest),
            "execute_request" => Some(MessageType::ExecuteRequest),
            "complete_request" => Some(MessageType::CompleteRequest),
            "inspect_request" => Some(MessageType::InspectRequest),
            "is_complete_request" => Some(MessageType::IsCompleteRequest),
            "history_request" => Some(MessageType::HistoryRequest),
            "comm_info_request" => Some(MessageType::CommInfoRequest),
            "comm_open" => Some(MessageType::CommOpen),
            "comm_msg" => Some(MessageType::CommMsg),
            "comm_close" => Some(MessageType::CommClose),
            "shutdown_request" => Some(MessageType::ShutdownRequest),
            "interrupt_request" => Some(MessageType::InterruptRequest),
            _ => None,
        }
    }

    /// The columns of its row in the table of requests.
    pub fn columns(self) -> Columns
        ensures reply { option_map (λ name. name.now) result.reply ≡ (row_of self).reply }
        ensures heard { result.heard ≡ (row_of self).heard }
        ensures error { result.error ≡ (row_of self).error }
    {
        match self {
            MessageType::KernelInfoRequest => {
                Columns::new(
                    Some("kernel_info_reply"),
                    Heard::Everywhere,
                    ErrorForm::Plain,
                )
            }
            MessageType::ExecuteRequest => Columns::new(
                Some("execute_reply"),
                Heard::OnShell,
                ErrorForm::Counted,
            ),
            MessageType::CompleteRequest => Columns::new(
                Some("complete_reply"),
                Heard::OnShell,
                ErrorForm::Plain,
            ),
            MessageType::InspectRequest => Columns::new(
                Some("inspect_reply"),
                Heard::OnShell,
                ErrorForm::Plain,
            ),
            MessageType::IsCompleteRequest => Columns::new(
                Some("is_complete_reply"),
                Heard::OnShell,
                ErrorForm::Plain,
            ),
            MessageType::HistoryRequest => Columns::new(
                Some("history_reply"),
                Heard::OnShell,
                ErrorForm::Plain,
            ),
            MessageType::CommInfoRequest => Columns::new(
                Some("comm_info_reply"),
                Heard::OnShell,
                ErrorForm::Plain,
            ),
            MessageType::CommOpen => Columns::new(None, Heard::OnShell, ErrorForm::NoError),
            MessageType::CommMsg => Columns::new(None, Heard::Nowhere, ErrorForm::NoError),
            MessageType::CommClose => Columns::new(None, Heard::Nowhere, ErrorForm::NoError),
            MessageType::ShutdownRequest => Columns::new(
                Some("shutdown_reply"),
                Heard::Everywhere,
                ErrorForm::Plain,
            ),
            MessageType::InterruptRequest => Columns::new(
                Some("interrupt_reply"),
                Heard::Everywhere,
                ErrorForm::Plain,
            ),
        }
    }
}

/// What the table of requests says of a type, beside its name and its fields.
#[derive(Clone, Copy)]
pub struct Columns {
    /// The type of the message that replies to it, if any does.
    pub reply: Option<&'static str>,
    /// On which channels it has a meaning.
    pub heard: Heard,
    /// Which error replies to it.
    pub error: ErrorForm,
}

impl Columns {
    /// These columns.
    fn new(reply: Option<&'static str>, heard: Heard, error: ErrorForm) -> Columns
        ensures { (result.reply ≡ reply.entry) × (result.heard ≡ heard) × (result.error ≡ error) }
    {
        Columns {
            reply,
            heard,
            error,
        }
    }
}

/// The type of the message that replies to one of this type, if any does.
pub fn reply_type(msg_type: &str) -> Option<&'static str>
    ensures { option_map (λ name. name.now) result ≡ reply_type_of msg_type.now }
{
    match MessageType::from_name(msg_type) {
        Some(kind) => kind.columns().reply,
        None => None,
    }
}
