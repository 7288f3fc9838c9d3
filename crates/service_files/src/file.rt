//! Service files.

ghost use Rattle.std.specs.Prelude.{◌≡◌, ◌∷◌, ◌<◌, ◌⊎◌, ◌==◌, length, Err, IfSome};
ghost use Rattle.std.specs.List.{position, slice_split};
ghost use Rattle.service_files.specs.declared.fault.FileFault.TheVariants.{NoMemory};
ghost use Rattle.service_files.specs.ServiceFiles.{line_feed, service_in};
ghost use Rattle.service_files.specs.Lines.{lines_left};

use crate::line::Line;
use crate::reading::Reading;
use crate::{FileFault, Service};
use std::alloc::Global;

/// The most bytes of a service file.
pub const MAX_FILE_LENGTH: usize = 65_536;

fn end_of_line(text: &[u8]) -> Option<usize>
    ensures { result ≡ position (λ b. b == line_feed) text.now }
{
    text.iter().position(|b| *b == b'\n')
}

/// Cuts a text at its first line feed: the first line, and what stands behind it where there is a
/// line feed.
fn cut_line(text: &[u8]) -> (&[u8], Option<&[u8]>)
    ensures lines { slice_split (λ b. b == line_feed) text.now
        ≡ result.0.now ∷ lines_left result.1 }
    ensures shorter { IfSome result.1 (λ behind. length behind.now < length text.now) }
{
    match end_of_line(text) {
        Some(place) => (&text[..place], Some(&text[place + 1..])),
        None => (text, None),
    }
}

/// Reads a service file. (D-Bus Specification: "Message Bus Starting Services".)
///
/// The file is lines of UTF-8: empty ones, comments that begin with `#`, groups in brackets, and
/// keys with values, `Key=Value`, of which nothing is trimmed. In the group `[D-BUS Service]`
/// `Name` and `Exec` count; other keys and groups are ignored. `Exec` is split at spaces, without
/// quoting.
///
/// # Errors
///
/// Of the lines, from the top: `Line` with the number of a line that does not read, or of a key
/// before the first group; `Twice` where the group, or `Name` or `Exec` in it, stands a second
/// time; `Name` where the name is no well-known one, or the bus's. Then `Group`, `NameMissing` and
/// `ExecMissing` for what is not there; an `Exec` without words is missing. `Line(0)` for a file of
/// more than [`MAX_FILE_LENGTH`] bytes, and `NoMemory` where memory is refused.
pub fn read(alloc: Global, bytes: &[u8]) -> Result<Service, FileFault>
    ensures { (result ≡ service_in bytes.now) ⊎ (result ≡ Err NoMemory) }
{
    if bytes.len() > MAX_FILE_LENGTH {
        return Err(FileFault::Line(0));
    }
    let mut reading = Reading::new();
    let mut number = 0;
    let mut rest = Some(bytes);
    while let Some(text) = rest {
        let (line, behind) = cut_line(text);
        number += 1;
        reading.take(number, Line::read(line))?;
        rest = behind;
    }
    reading.service(alloc)
}
