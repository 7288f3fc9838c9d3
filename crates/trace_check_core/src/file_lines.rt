//! The lines of a file.

ghost use Rattle.std.specs.Prelude.{◌≡◌, ◌≢◌, ◌<◌, [], ◌∷◌, length, position, MatchOption};
ghost use Rattle.trace_check_core.specs.Traces.{is_line_feed, lines_of};

/// The lines that are left of a file, in order, without their line feeds.
#[derive(Clone, Copy)]
pub(crate) struct FileLines<'a> {
    pub(crate) rest: &'a [u8],
}

impl<'a> FileLines<'a> {
    /// The lines of a file. The last one may lack its line feed.
    pub(crate) fn of(file: &'a [u8]) -> FileLines<'a>
        ensures { result.rest.now ≡ file.now }
    {
        FileLines { rest: file }
    }

    /// Takes the next line.
    pub(crate) fn take(&mut self) -> Option<&'a [u8]>
        ensures taken { MatchOption result
            ((lines_of self.old.rest.now ≡ []) × (lines_of self.new.rest.now ≡ []))
            (λ line. lines_of self.old.rest.now ≡ line.now ∷ lines_of self.new.rest.now) }
        ensures shorter { MatchOption result (length self.new.rest.now ≡ 0)
            (λ line. length self.new.rest.now < length self.old.rest.now) }
    {
        if self.rest.is_empty() {
            return None;
        }
        let (line, behind) = cut(self.rest);
        self.rest = behind;
        Some(line)
    }
}

/// Cuts bytes behind their first line feed: the first line, and what stands behind it.
fn cut(bytes: &[u8]) -> (&[u8], &[u8])
    requires { bytes.now ≢ [] }
    ensures cut { lines_of bytes.now ≡ result.0.now ∷ lines_of result.1.now }
    ensures shorter { length result.1.now < length bytes.now }
{
    match line_feed_place(bytes) {
        Some(at) => (&bytes[..at], &bytes[at + 1..]),
        None => (bytes, &[]),
    }
}

fn line_feed_place(bytes: &[u8]) -> Option<usize>
    ensures { result ≡ position is_line_feed bytes.now }
{
    bytes.iter().position(|byte| *byte == b'\n')
}
