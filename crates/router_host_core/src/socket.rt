//! The socket of a connection.

ghost use Rattle.std.specs.Prelude.{◌≡◌, ◌≤◌, ◌<◌, length, take, IfOk, OnErr};
ghost use Rattle.std.specs.Io.KnownBytes.{IsAtEnd, prepend_known};

use std::io;

/// The socket of a connection, which does not block.
pub trait Socket: outgoing::Sink + Drop {
    /// Reads what is there into the room, and tells how many bytes that was; none at the end of the
    /// input.
    ///
    /// The error is of the kind `WouldBlock` where nothing is there now but may be later.
    fn read(&mut self, room: &mut [u8]) -> io::Result<usize>
        ensures bound { IfOk result (λ count. count ≤ length room.old) }
        ensures room { length room.new ≡ length room.old }
        ensures bytes { IfOk result (λ count. Self.remaining self.old
            ≡ prepend_known (take count room.new) (Self.remaining self.new)) }
        ensures end { IfOk result (λ count. count ≡ 0 → 0 < length room.old
            → IsAtEnd (Self.remaining self.old)) }
        ensures err { OnErr result (Self.remaining self.new ≡ Self.remaining self.old) }
        ensures unwritten { Self.taken self.new ≡ Self.taken self.old };
}
