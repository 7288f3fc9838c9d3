//! The order of the lines of each seat.

ghost use Rattle.std.specs.Prelude.{◌≡◌, true, List, ◌++◌, ◌∷◌, []};
ghost use Rattle.trace_lines.specs.Lines.{Line};
ghost use Rattle.trace_check_core.specs.SeatViews.{seat_so_far};
ghost use Rattle.trace_check_core.specs.Verdicts.{follows, out_of_order};

use crate::kept_line::KeptLine;
use crate::trace::Trace;
use seq_bus_core::limits::MAX_ROUTERS;

/// The most seats: the main thread's, and one for each router.
const SEATS: usize = MAX_ROUTERS as usize + 1;

/// The lines of a seat so far.
#[derive(Clone, Copy)]
struct SeatSoFar {
    /// The highest place, 0 where there is no line.
    highest: u64,
    /// How many changes there are.
    changes: u64,
}

impl SeatSoFar {
    /// Whether a line may follow.
    #[tactic(auto, using(crate::proofs::SeatLemmas::follows_change, crate::proofs::SeatLemmas::follows_read))]
    fn admits(&self, line: &KeptLine<'_>) -> bool
        ensures { (earlier : List Line) → self.now ≡ seat_so_far earlier →
            result ≡ follows earlier line.now }
    {
        match line.number() {
            Some(number) => {
                self.highest < line.place() && number.checked_sub(1) == Some(self.changes)
            }
            None => self.highest <= line.place(),
        }
    }

    /// A line follows that may.
    #[tactic(auto, using(crate::proofs::SeatLemmas::so_far_change, crate::proofs::SeatLemmas::so_far_read))]
    fn take(&mut self, line: &KeptLine<'_>)
        ensures { (earlier : List Line) → self.old ≡ seat_so_far earlier →
            follows earlier line.now ≡ true →
            self.new ≡ seat_so_far (earlier ++ line.now ∷ []) }
    {
        self.highest = line.place();
        if let Some(number) = line.number() {
            self.changes = number;
        }
    }
}

impl Trace<'_> {
    /// The number of the first line that is not in the order of its seat.
    pub fn out_of_order(&self) -> Option<u64>
        ensures { result ≡ out_of_order self.now }
    {
        let mut seats = [SeatSoFar {
            highest: 0,
            changes: 0,
        }; SEATS];
        let mut number = self.head_lines();
        let lines = self.lines();
        for line in lines {
            number += 1;
            let seat = line.seat() as usize;
            if !seats[seat].admits(line) {
                return Some(number);
            }
            seats[seat].take(line);
        }
        None
    }
}
