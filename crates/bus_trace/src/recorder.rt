//! What is recorded.

ghost use Rattle.std.specs.Prelude.{◌≡◌, ◌≤◌, ◌+◌, ◌^◌, List, [], length, map, true, false, IfOk, IfSome};
ghost use Rattle.names.specs.Texts.{Text};
ghost use Rattle.seq_bus_core.specs.Answers.{answer};
ghost use Rattle.seq_bus_core.specs.BusState.{BusState};
ghost use Rattle.bus_view.specs.Bodies.{Answers};
ghost use Rattle.trace_lines.specs.Texts.{change_text};
ghost use Rattle.bus_trace.specs.Recordings.{Records, change_ended, changes_ended, query_ended, route_ended};

use crate::writing::{add_change, add_changes, add_query, add_route};
use bus_view::Asked;
use match_rules::Facts;
use seq_bus_core::{Change, Outcome, Query, Verdict};
use std::alloc::{AllocError, Global};
use std::marker::Model;
use trace_lines::{ChangeWords, Draft};

/// The lines that are kept, and the line that is being written.
#[derive(Drop)]
pub(crate) struct Recorder {
    alloc: Global,
    is_on: bool,
    /// Each line is written here first, always in the same memory.
    draft: Draft,
    lines: Vec<u8>,
    is_lost: bool,
}

impl Model for Recorder {
    ghost use Rattle.bus_trace.specs.Recordings.{Recording};

    ghost Value = { Recording };

    ghost view = { λ r. record { is_on = r.is_on; lines = r.lines.items; is_lost = r.is_lost } };
}

impl Recorder {
    pub fn new(alloc: Global, is_on: bool) -> Recorder
        ensures { result ≡ record { is_on = is_on; lines = []; is_lost = false } }
    {
        Recorder {
            alloc,
            is_on,
            draft: Draft::new(alloc),
            lines: Vec::new(alloc),
            is_lost: false,
        }
    }

    pub fn is_on(&self) -> bool
        ensures { result ≡ self.now.is_on }
    {
        self.is_on
    }

    pub fn is_lost(&self) -> bool
        ensures { result ≡ self.now.is_lost }
    {
        self.is_lost
    }

    /// Hands out the lines, and keeps none.
    pub fn take_lines(&mut self) -> Vec<u8>
        ensures lines { result.items ≡ self.old.lines }
        ensures kept { self.new ≡ record self.old { lines = [] } }
    {
        std::mem::replace(&mut self.lines, Vec::new(self.alloc))
    }

    /// The words of a change, before it is made; none where there is no memory for them, or nothing
    /// is recorded.
    pub fn words_of(&self, change: &Change) -> Option<ChangeWords>
        ensures { IfSome result (λ words. words ≡ change_text change.now) }
    {
        if !self.is_on {
            return None;
        }
        ChangeWords::of(self.alloc, change).ok()
    }

    /// The words of each change of a batch.
    pub fn words_of_all(&self, changes: &[Change]) -> Option<Vec<ChangeWords>>
        ensures { IfSome result (λ all. all.items ≡ map change_text changes.now) }
    {
        if !self.is_on {
            return None;
        }
        words_of_all(self.alloc, changes).ok()
    }

    /// Keeps the line of a change of these words.
    pub fn keep_change(
        &mut self,
        words: &Option<ChangeWords>,
        place: u64,
        seat: u8,
        number: u64,
        outcome: &Outcome,
    )
        ensures { (change : Text) → IfSome words.now (λ words. words ≡ change) →
            Records self.old (change_ended place seat number change outcome.now) self.new }
    {
        if !self.is_on {
            return;
        }
        let Some(words) = words else {
            self.is_lost = true;
            return;
        };
        if add_change(
            &mut self.draft,
            &mut self.lines,
            place,
            seat,
            number,
            words,
            outcome,
        )
        .is_err()
        {
            self.is_lost = true;
        }
    }

    /// Keeps the lines of changes of these words, which stand behind one another from this place
    /// and this number on.
    pub fn keep_changes(
        &mut self,
        words: &Option<Vec<ChangeWords>>,
        place: u64,
        seat: u8,
        number: u64,
        outcomes: &[Outcome],
    )
        requires { (place + length outcomes.now ≤ 2 ^ 64)
            × (number + length outcomes.now ≤ 2 ^ 64) }
        ensures { (changes : List Text) → IfSome words.now (λ words. words.items ≡ changes) →
            Records self.old (changes_ended place seat number changes outcomes.now) self.new }
    {
        if !self.is_on {
            return;
        }
        let Some(words) = words else {
            self.is_lost = true;
            return;
        };
        if add_changes(
            &mut self.draft,
            &mut self.lines,
            place,
            seat,
            number,
            words,
            outcomes,
        )
        .is_err()
        {
            self.is_lost = true;
        }
    }

    /// Keeps the line of a query, of whose reply this is the body.
    pub fn keep_query(&mut self, place: u64, seat: u8, query: &Query, asked: Asked, body: &[u8])
        ensures { (s : BusState) → Answers asked (answer s query.now) [] body.now →
            Records self.old (query_ended place seat query.now (answer s query.now)) self.new }
    {
        if !self.is_on {
            return;
        }
        let draft = &mut self.draft;
        if add_query(
            draft,
            &mut self.lines,
            self.alloc,
            place,
            seat,
            query,
            asked,
            body,
        )
        .is_err()
        {
            self.is_lost = true;
        }
    }

    /// Keeps the line of a route.
    pub fn keep_route(
        &mut self,
        place: u64,
        seat: u8,
        from: u64,
        facts: &Facts<'_>,
        verdict: &Verdict,
    )
        ensures { Records self.old (route_ended place seat from facts.now verdict.now) self.new }
    {
        if !self.is_on {
            return;
        }
        if add_route(
            &mut self.draft,
            &mut self.lines,
            place,
            seat,
            from,
            facts,
            verdict,
        )
        .is_err()
        {
            self.is_lost = true;
        }
    }
}

/// The words of each of these changes.
fn words_of_all(alloc: Global, changes: &[Change]) -> Result<Vec<ChangeWords>, AllocError>
    ensures { IfOk result (λ all. all.items ≡ map change_text changes.now) }
{
    let mut all = Vec::with_capacity(alloc, changes.len())?;
    for change in changes {
        all.push(ChangeWords::of(alloc, change)?)?;
    }
    Ok(all)
}
