//! Pieces from a reader, and bytes to a writer, with what is known of them after a failure.

ghost use Rattle.std.specs.Prelude.{◌<◌, length};
ghost use Rattle.busd_core.specs.Transfers.{WritesFront, ReadsPiece};

use crate::read_beside::ReadBeside;
use std::io;
use std::io::{ErrorKind, Write};

/// Writes all the bytes, or at a failure a front of them.
pub fn write_whole<W: Write>(writer: &mut W, bytes: &[u8]) -> Result<(), io::Error>
    ensures { WritesFront (W.contents writer.old) (W.contents writer.new) bytes.now result }
{
    let mut rest = bytes;
    for _ in 0..u64::MAX {
        if rest.is_empty() {
            return Ok(());
        }
        match writer.write(rest) {
            Ok(0) => return Err(io::Error::from(ErrorKind::WriteZero)),
            Ok(count) => rest = &rest[count..],
            Err(error) => {
                if error.kind() != ErrorKind::Interrupted {
                    return Err(error);
                }
            }
        }
    }
    Err(io::Error::from(ErrorKind::TimedOut))
}

/// Reads one piece, which is empty only at the end.
pub fn read_piece<R: ReadBeside<W>, W: Write>(
    reader: &mut R,
    writer: &W,
    piece: &mut [u8],
) -> Result<usize, io::Error>
    requires { 0 < length piece.old }
    ensures { ReadsPiece (W.contents writer.now) (R.remaining reader.old) (R.remaining reader.new)
        (R.readings reader.old) (R.readings reader.new) piece.new result }
{
    for _ in 0..u64::MAX {
        match reader.read_beside(writer, piece) {
            Ok(count) => return Ok(count),
            Err(error) => {
                if error.kind() != ErrorKind::Interrupted {
                    return Err(error);
                }
            }
        }
    }
    Err(io::Error::from(ErrorKind::TimedOut))
}
