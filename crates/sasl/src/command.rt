//! The commands of a client.

ghost use Rattle.std.specs.Prelude.{◌≡◌, ◌∷◌};
ghost use Rattle.sasl.specs.Hearing.{command_of};

use crate::words::Words;

const AUTH: &[u8] = b"AUTH";

const DATA: &[u8] = b"DATA";

const ERROR: &[u8] = b"ERROR";

const CANCEL: &[u8] = b"CANCEL";

const BEGIN: &[u8] = b"BEGIN";

/// A command of a client that the server knows. (D-Bus Specification: "Protocol Overview".)
#[derive(Clone, Copy, Debug, PartialEq, Eq)]
pub(crate) enum Command {
    Auth,
    Data,
    Error,
    Cancel,
    Begin,
    /// What is not understood in any state.
    Other,
}

impl Command {
    /// The command that the first word of a line is, with these words behind it.
    pub fn of(word: &[u8], words: &Words<'_>) -> Command
        ensures { result ≡ command_of (word.now ∷ words.now) }
    {
        let alone = words.is_empty();
        if word == AUTH {
            Command::Auth
        } else if word == DATA {
            Command::Data
        } else if word == ERROR {
            Command::Error
        } else if word == CANCEL && alone {
            Command::Cancel
        } else if word == BEGIN && alone {
            Command::Begin
        } else {
            Command::Other
        }
    }
}
