//! What actions do to the connection of a key.

ghost use Rattle.std.specs.Prelude.{◌≡◌};
ghost use Rattle.busd_core.specs.Transfers.{WritesFront};
ghost use Rattle.busd_core.specs.Happenings.{bytes_for, written_to, close_of, closed_by};

use crate::transfer::write_whole;
use router_core::{Action, CloseCause};
use std::io;
use std::io::Write;

/// What an action writes to the connection.
fn bytes_for<N: Drop>(key: usize, action: &Action<N>) -> &[u8]
    ensures { result.now ≡ bytes_for key action.now }
{
    match action {
        Action::Write { key: to, bytes } if *to == key => bytes.as_slice(),
        _ => &[],
    }
}

/// Writes what the actions write to the connection, and flushes it, or at a failure writes a front
/// of it.
pub fn write_out<N: Drop, W: Write>(
    writer: &mut W,
    key: usize,
    actions: &[Action<N>],
) -> Result<(), io::Error>
    ensures { WritesFront (W.contents writer.old) (W.contents writer.new)
        (written_to key actions.now) result }
{
    for action in actions {
        write_whole(writer, bytes_for(key, action))?;
    }
    writer.flush()
}

/// Why an action closes the connection, if it does.
fn close_of<N: Drop>(key: usize, action: &Action<N>) -> Option<CloseCause>
    ensures { result ≡ close_of key action.now }
{
    match action {
        Action::Close { key: closed, cause } if *closed == key => Some(*cause),
        _ => None,
    }
}

/// Why the actions close the connection, if they do.
pub fn closed_by<N: Drop>(key: usize, actions: &[Action<N>]) -> Option<CloseCause>
    ensures { result ≡ closed_by key actions.now }
{
    for action in actions {
        if let Some(cause) = close_of(key, action) {
            return Some(cause);
        }
    }
    None
}
