//! Readers beside a writer.

ghost use Rattle.std.specs.Prelude.{◌≡◌, ◌<◌, ℕ, length, List, None, Option};
ghost use Rattle.busd_core.specs.Readings.{Reading};
ghost use Rattle.busd_core.specs.Transfers.{ReadsPiece};

use std::io;
use std::io::{Read, Write};

/// What is read while a writer is written to. A reader may look at the writer, as a client does that
/// waits for a reply before it sends more; most, as every [`Read`], do not.
pub trait ReadBeside<W: Write> {
    /// The bytes that are still to be read, where they are known.
    ghost remaining: { Self → Option (List ℕ) } = { λ _. None };

    /// What was read so far, and what the writer held then, where that is known.
    ghost readings: { Self → Option (List Reading) } = { λ _. None };

    /// Reads into the room, and tells how many bytes that was; none at the end of the input.
    fn read_beside(&mut self, writer: &W, room: &mut [u8]) -> io::Result<usize>
        ensures room { length room.new ≡ length room.old }
        ensures reads { 0 < length room.old → ReadsPiece (W.contents writer.now)
            (remaining self.old) (remaining self.new) (readings self.old) (readings self.new)
            room.new result };
}

impl<R: Read, W: Write> ReadBeside<W> for R {
    ghost remaining = { λ r. R.remaining r };

    fn read_beside(&mut self, _writer: &W, room: &mut [u8]) -> io::Result<usize> {
        self.read(room)
    }
}
