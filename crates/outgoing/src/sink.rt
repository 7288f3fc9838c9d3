//! What is written to.

ghost use Rattle.std.specs.Prelude.{◌≡◌};
ghost use Rattle.std.specs.Io.{WritesAtMost};
ghost use Rattle.std.specs.Io.Slices.{io_slices_bytes};
ghost use Rattle.std.specs.Io.KnownBytes.{WriteAppends};

use std::io;
use std::io::IoSlice;

/// What takes some front of the bytes that it is lent: a socket that does not block.
pub trait Sink {
    ghost use Rattle.std.specs.Prelude.{List, ℕ, Option, None};

    /// The bytes that it took, where they are known. Those of a socket of the system are not.
    ghost taken: { Self → Option (List ℕ) } = { λ _. None };

    /// The bytes that it will give to who reads it, where they are known. A write leaves them.
    ghost remaining: { Self → Option (List ℕ) } = { λ _. None };

    /// Takes some front of the parts, one behind the other, and tells how many bytes that was.
    /// After an error it took none.
    ///
    /// The error is of the kind `WouldBlock` where it takes no byte now but may later.
    fn write_parts(&mut self, parts: &[IoSlice<'_>]) -> io::Result<usize>
        ensures bound { WritesAtMost result (io_slices_bytes parts.now) }
        ensures bytes { WriteAppends (taken self.old) (taken self.new) result
            (io_slices_bytes parts.now) }
        ensures unread { remaining self.new ≡ remaining self.old };
}
