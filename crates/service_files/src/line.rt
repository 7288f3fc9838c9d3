//! One line of a service file.

ghost use Rattle.std.specs.Prelude.{◌≡◌, ◌==◌, ◌-◌, length, option_map, slice_index};
ghost use Rattle.service_files.specs.ServiceFiles.{closing, entry_in, hash, header_in, opening, said_by, said_of};
ghost use Rattle.service_files.specs.Lines.{line_said};

use std::str;

/// What opens the group that describes the service.
const SERVICE_HEADER: &str = "[D-BUS Service]";

/// What a line says.
#[derive(Clone, Copy)]
pub(crate) enum Line<'a> {
    /// The line is empty or a comment.
    Silent,
    /// The line opens a group.
    Header { is_service: bool },
    /// The line gives a key a value.
    Entry { key: &'a str, value: &'a str },
}

fn is_comment(text: &str) -> bool
    ensures { result ≡ (slice_index text.now 0 == hash) }
{
    text.starts_with('#')
}

/// Whether the text begins with a bracket.
fn is_opened(text: &str) -> bool
    ensures { result ≡ (slice_index text.now 0 == opening) }
{
    text.starts_with('[')
}

/// Whether the text ends with a bracket.
fn is_closed(text: &str) -> bool
    ensures { result ≡ (slice_index text.now (length text.now - 1) == closing) }
{
    text.ends_with(']')
}

fn header(text: &str) -> Option<Line<'_>>
    ensures { option_map line_said result ≡ header_in text.now }
{
    if is_closed(text) {
        let is_service = text == SERVICE_HEADER;
        Some(Line::Header { is_service })
    } else {
        None
    }
}

fn entry(text: &str) -> Option<Line<'_>>
    ensures { option_map line_said result ≡ entry_in text.now }
{
    let (key, value) = text.split_once('=')?;
    if key.is_empty() {
        None
    } else {
        Some(Line::Entry { key, value })
    }
}

/// What a line of text says.
fn line_of(text: &str) -> Option<Line<'_>>
    ensures { option_map line_said result ≡ said_of text.now }
{
    if text.is_empty() || is_comment(text) {
        Some(Line::Silent)
    } else if is_opened(text) {
        header(text)
    } else {
        entry(text)
    }
}

impl<'a> Line<'a> {
    /// What a line says, without its line feed; none where it is no line of a service file.
    pub fn read(bytes: &'a [u8]) -> Option<Line<'a>>
        ensures { option_map line_said result ≡ said_by bytes.now }
    {
        match str::from_utf8(bytes) {
            Ok(text) => line_of(text),
            Err(_) => None,
        }
    }
}
