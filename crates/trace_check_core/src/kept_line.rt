//! Lines that are kept as texts.

ghost use Rattle.std.specs.Prelude.{◌≡◌, ◌<◌, ◌≤◌, true, IfOk, option_map};
ghost use Rattle.seq_bus_core.specs.Histories.{max_routers};
ghost use Rattle.trace_lines.specs.LineViews.{subject_told, line_told};
ghost use Rattle.trace_lines.specs.Lines.{line_of};
ghost use Rattle.trace_check_core.specs.Legality.{is_change, number_made};

use std::alloc::{AllocError, Global};
use std::marker::Model;
use trace_lines::{Line, Subject, read_line};

/// A line of a trace, kept as its text and by what tells where it stands. What else it tells is
/// read anew.
///
/// Contracts see what the line tells.
#[derive(Drop)]
pub struct KeptLine<'a> {
    routers: u8,
    text: &'a str,
    place: u64,
    seat: u8,
    number: Option<u64>,
}

impl<'a> Model for KeptLine<'a> {
    ghost use Rattle.trace_lines.specs.Lines.{Line};
    ghost use Rattle.trace_check_core.specs.KeptLines.{IsKept, line_in};

    ghost Value = { Line };

    ghost view = { line_in };

    ghost invariant = { IsKept };
}

impl<'a> KeptLine<'a> {
    /// Reads a line behind the head of a trace of a bus with so many routers. It says none where
    /// the text is no such line.
    pub(crate) fn read(
        alloc: Global,
        routers: u8,
        text: &'a str,
    ) -> Result<Option<KeptLine<'a>>, AllocError>
        requires { routers ≤ max_routers }
        ensures { IfOk result (λ line. option_map (λ l. l) line ≡ line_of routers text.now) }
    {
        let Some(line) = read_line(alloc, routers, text)? else {
            return Ok(None);
        };
        Ok(Some(KeptLine {
            routers,
            text,
            place: line.place,
            seat: line.seat as u8,
            number: number_made(&line.subject),
        }))
    }

    /// The whole line, read again from its text.
    pub fn read_again(&self, alloc: Global) -> Result<Line<'a>, AllocError>
        ensures { IfOk result (λ line. line_told line ≡ self.now) }
    {
        match read_line(alloc, self.routers, self.text)? {
            Some(line) => Ok(line),
            None => unreachable!(),
        }
    }

    /// The place of a change in the history, from 1; else how many changes were seen.
    pub fn place(&self) -> u64
        ensures value { result ≡ self.now.place }
        ensures placed { is_change self.now ≡ true → 0 < result }
    {
        self.place
    }

    /// 0 for the main thread, else a router's number.
    pub fn seat(&self) -> u8
        ensures value { result ≡ self.now.seat }
        ensures few { result ≤ max_routers }
    {
        self.seat
    }

    /// The number of a change among those of its seat; none where the line is no change.
    pub fn number(&self) -> Option<u64>
        ensures { result ≡ number_made self.now.subject }
    {
        self.number
    }
}

fn number_made(subject: &Subject<'_>) -> Option<u64>
    ensures { result ≡ number_made (subject_told subject.now) }
{
    match subject {
        Subject::Change { number, .. } => Some(*number),
        Subject::Query(_) => None,
        Subject::Route(_) => None,
    }
}
