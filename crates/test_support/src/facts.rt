//! What rules and routing see of messages.

use match_rules::{Facts, MessageKind};

/// A signal without arguments, of no connection yet.
pub fn signal<'a>(path: &'a str, interface: &'a str, member: &'a str) -> Facts<'a> {
    Facts {
        kind: MessageKind::Signal,
        auto_start: true,
        sender: 0,
        path: Some(path),
        interface: Some(interface),
        member: Some(member),
        destination: None,
        arguments: &[],
    }
}

/// The signal `Ticked` of a clock.
pub fn ticked<'a>() -> Facts<'a> {
    signal("/", "com.example.Clock", "Ticked")
}
