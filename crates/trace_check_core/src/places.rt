//! The lines of a trace by their places.

ghost use Rattle.std.specs.Prelude.{◌≡◌, ◌&&◌, true, None, Some, IfOk, IfErr, OnOk, is_some, map, replicate};
ghost use Rattle.trace_check_core.specs.Legality.{is_change};
ghost use Rattle.trace_check_core.specs.Placing.{line_seen, lines_by_place, no_line_there, place_seen, with_line_there};
ghost use Rattle.trace_check_core.specs.Verdicts.{misplaced};

use crate::kept_line::KeptLine;
use crate::trace::Trace;
use std::alloc::{AllocError, Global};

/// A line behind the head with its number among all lines of its trace, from 1.
#[derive(Clone, Copy)]
pub struct NumberedLine<'t> {
    pub number: u64,
    pub line: &'t KeptLine<'t>,
}

/// The lines of a place: the change that stands there, and what was read once it was made.
#[derive(Drop)]
pub struct PlaceLines<'t> {
    pub change: Option<NumberedLine<'t>>,
    pub reads: Vec<NumberedLine<'t>>,
}

impl<'t> PlaceLines<'t> {
    /// A place where no line stands.
    fn new(alloc: Global) -> PlaceLines<'t>
        ensures { place_seen result ≡ no_line_there }
    {
        PlaceLines {
            change: None,
            reads: Vec::new(alloc),
        }
    }

    /// Takes a line that stands there.
    fn take(&mut self, line: NumberedLine<'t>) -> Result<(), AllocError>
        requires { is_change line.line.now ≡ true → self.old.change ≡ None }
        ensures { OnOk result (place_seen self.new
            ≡ with_line_there (place_seen self.old) (line_seen line.entry)) }
    {
        if line.line.number().is_some() {
            self.change = Some(line);
            return Ok(());
        }
        self.reads.push(line)?;
        Ok(())
    }
}

impl Trace<'_> {
    /// The lines by their places, from 0 to the last change's; or the number of the first line that
    /// stands above all changes, or is a change where another one stands.
    pub fn places(&self, alloc: Global) -> Result<Result<Vec<PlaceLines<'_>>, u64>, AllocError>
        ensures misplaced { IfOk result (λ found.
            IfErr found (λ number. misplaced self.now ≡ Some number)) }
        ensures placed { IfOk result (λ found. IfOk found (λ places. misplaced self.now ≡ None)) }
        ensures places { IfOk result (λ found. IfOk found (λ places.
            map place_seen places.items ≡ lines_by_place self.now)) }
    {
        let lines = self.lines();
        let mut places = no_lines(alloc, self.changes() + 1)?;
        let mut number = self.head_lines();
        for line in lines {
            number += 1;
            let place = line.place() as usize;
            if place >= places.len() || is_taken(&places[place], line) {
                return Ok(Err(number));
            }
            places[place].take(NumberedLine { number, line })?;
        }
        Ok(Ok(places))
    }
}

/// Whether a line is a change, and there is one already.
fn is_taken(place: &PlaceLines<'_>, line: &KeptLine<'_>) -> bool
    ensures { result ≡ (is_change line.now && is_some place.now.change) }
{
    line.number().is_some() && place.change.is_some()
}

/// So many places where no line stands.
fn no_lines<'a>(alloc: Global, count: usize) -> Result<Vec<PlaceLines<'a>>, AllocError>
    ensures { IfOk result (λ places. map place_seen places.items
        ≡ replicate count (no_line_there)) }
{
    let mut places = Vec::with_capacity(alloc, count)?;
    for _ in 0..count {
        places.push(PlaceLines::new(alloc))?;
    }
    Ok(places)
}
