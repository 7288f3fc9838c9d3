//! Where the bus is reached.

ghost use Rattle.std.specs.Prelude.{◌≡◌, ◌↔◌, IsSome, IfSome, IsTrue};
ghost use Rattle.std.specs.List.{list_all};
ghost use Rattle.busd_core.specs.Addresses.{is_plain, IsSocketPath};

use std::fmt;

/// The longest path of a socket, in bytes.
const LONGEST: usize = 107;

/// The path of the bus's socket: 1 to 107 bytes of letters, digits, `-`, `_`, `/` and `.`, none of
/// which an address escapes.
///
/// It is shown as the address that clients connect to. (D-Bus Specification: "Server Addresses".)
#[derive(Clone, Copy)]
pub struct SocketPath<'a> {
    text: &'a str,
}

fn is_plain(byte: u8) -> bool
    ensures { result ≡ is_plain byte }
{
    byte.is_ascii_alphanumeric() || byte == b'-' || byte == b'_' || byte == b'/' || byte == b'.'
}

fn are_plain(bytes: &[u8]) -> bool
    ensures { result ≡ list_all is_plain bytes.now }
{
    bytes.iter().all(|byte| is_plain(*byte))
}

fn is_socket_path(bytes: &[u8]) -> bool
    ensures { IsTrue result ↔ IsSocketPath bytes.now }
{
    if bytes.len() == 0 || bytes.len() > LONGEST {
        return false;
    }
    are_plain(bytes)
}

impl<'a> SocketPath<'a> {
    /// The path of this text, if it is one.
    pub fn of(text: &'a str) -> Option<SocketPath<'a>>
        ensures taken { IsSome result ↔ IsSocketPath text.now }
        ensures text { IfSome result (λ path. path.text ≡ text.entry) }
    {
        if !is_socket_path(text.as_bytes()) {
            return None;
        }
        Some(SocketPath { text })
    }

    pub fn as_str(self) -> &'a str
        ensures { result.now ≡ self.entry.text.now }
    {
        self.text
    }
}

impl fmt::Display for SocketPath<'_> {
    fn fmt<W: fmt::Write>(&self, f: &mut fmt::Formatter<W>) -> fmt::Result {
        write!(f, "unix:path={}", self.text)
    }
}
