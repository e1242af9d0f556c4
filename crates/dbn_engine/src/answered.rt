//! The answer to a command.

ghost use Rattle.std.specs.Prelude.{◌≡◌, Some, None, true, false};

use dbn_command::Reply;

/// The answer to a command: its reply, if it has one, and whether a record was added.
#[derive(Debug, Drop)]
pub(crate) struct Answered {
    pub(crate) reply: Option<Reply>,
    pub(crate) recorded: bool,
}

impl Answered {
    /// No reply.
    pub(crate) fn silent() -> Answered
        ensures { result ≡ record { reply = None; recorded = false } }
    {
        Answered {
            reply: None,
            recorded: false,
        }
    }

    /// A reply, with nothing recorded.
    pub(crate) fn said(reply: Reply) -> Answered
        ensures { result ≡ record { reply = Some reply; recorded = false } }
    {
        Answered {
            reply: Some(reply),
            recorded: false,
        }
    }

    /// A reply to what was recorded.
    pub(crate) fn after_record(reply: Reply) -> Answered
        ensures { result ≡ record { reply = Some reply; recorded = true } }
    {
        Answered {
            reply: Some(reply),
            recorded: true,
        }
    }
}
