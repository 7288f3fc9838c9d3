//! What a log has to say, worked out by one bus that is stepped through the history once.

use crate::samples::services;
use bus_view::can_open;
use interleave::{Exchange, LogLine, Question, Step};
use owner_queues::Profile;
use registry::Registry;
use seq_bus_core::{AddressedSignal, Change, NumberedOutcome, Outcome};
use std::alloc::{AllocError, Global};

const ROUTERS: u8 = 2;

/// A line that is due: where a seat is answered a question, or is told of its change.
#[derive(Clone, Copy)]
struct DueLine<'a> {
    seat: u8,
    place: usize,
    question: Option<&'a Question<'a>>,
}

/// What is published, and which lines are due. No bus is needed to say that.
#[derive(Drop)]
struct Schedule<'a> {
    published: Vec<(u8, &'a Change)>,
    ends: Vec<usize>,
    seen: Vec<usize>,
    due: Vec<DueLine<'a>>,
}

impl<'a> Schedule<'a> {
    fn of(alloc: Global, steps: &'a [Step<'a>]) -> Result<Schedule<'a>, AllocError> {
        let mut schedule = Schedule {
            published: Vec::new(alloc),
            ends: vec![in alloc; 0]?,
            seen: vec![in alloc; 0, 0, 0]?,
            due: Vec::new(alloc),
        };
        for step in steps {
            match step {
                Step::Read {
                    seat,
                    place,
                    question,
                } => schedule.read(*seat, *place, question)?,
                Step::Publish { seat, changes } => schedule.publish(*seat, changes.as_slice())?,
                Step::TakeNote { seat, place } => schedule.take_note(*seat, *place),
                Step::Refused { .. } => {}
            }
        }
        Ok(schedule)
    }

    fn read(
        &mut self,
        seat: u8,
        place: usize,
        question: &'a Question<'a>,
    ) -> Result<(), AllocError> {
        let is_seen = self
            .seen
            .get(seat as usize)
            .is_some_and(|seen| *seen <= place);
        if !is_seen || !self.is_end(place) {
            return Ok(());
        }
        self.sees(seat, place);
        self.due.push(DueLine {
            seat,
            place,
            question: Some(question),
        })?;
        Ok(())
    }

    fn publish(&mut self, seat: u8, changes: &'a [Change]) -> Result<(), AllocError> {
        if seat > ROUTERS || changes.is_empty() || changes.len() > 64 {
            return Ok(());
        }
        for change in changes {
            self.published.push((seat, change))?;
            self.due.push(DueLine {
                seat,
                place: self.published.len(),
                question: None,
            })?;
        }
        let end = self.published.len();
        self.ends.push(end)?;
        self.sees(seat, end);
        Ok(())
    }

    fn take_note(&mut self, seat: u8, place: usize) {
        let is_new = self
            .seen
            .get(seat as usize)
            .is_some_and(|seen| *seen < place);
        if is_new && self.is_end(place) {
            self.sees(seat, place);
        }
    }

    fn is_end(&self, place: usize) -> bool {
        self.ends.as_slice().iter().any(|end| *end == place)
    }

    fn sees(&mut self, seat: u8, place: usize) {
        if let Some(seen) = self.seen.get_mut(seat as usize) {
            *seen = place;
        }
    }
}

/// Whether a log of these steps in the world of the samples says what it has to.
pub(crate) fn is_right(
    alloc: Global,
    steps: &[Step<'_>],
    lines: &[LogLine<'_>],
) -> Result<bool, AllocError> {
    let services = services(alloc)?;
    if !can_open(services.as_slice(), ROUTERS) {
        return Ok(false);
    }
    let mut bus = Registry::new(alloc, services.as_slice(), ROUTERS, Profile::Two)?;
    let right = is_right_on(alloc, &mut bus, steps, lines);
    drop(bus);
    right
}

/// The same, on a bus that was just opened.
fn is_right_on(
    alloc: Global,
    bus: &mut Registry,
    steps: &[Step<'_>],
    lines: &[LogLine<'_>],
) -> Result<bool, AllocError> {
    let schedule = Schedule::of(alloc, steps)?;
    let due = schedule.due.as_slice();
    if !stand_where_due(lines, due) || !are_right(alloc, bus, None, lines, due, 0)? {
        return Ok(false);
    }
    let mut place = 0usize;
    for (seat, change) in schedule.published.as_slice() {
        let told = step(alloc, bus, *seat, change)?;
        place = place.saturating_add(1);
        if !are_right(alloc, bus, Some(&told), lines, due, place)? {
            return Ok(false);
        }
    }
    Ok(true)
}

/// Makes a change of a seat, and tells what it is told.
fn step(
    alloc: Global,
    bus: &mut Registry,
    seat: u8,
    change: &Change,
) -> Result<NumberedOutcome, AllocError> {
    let mut prepared = bus.prepare(alloc, seat, change)?;
    bus.absorb(&prepared);
    Ok(prepared.take_outcome(alloc))
}

/// Whether these lines have the seats and the places that are due.
fn stand_where_due(lines: &[LogLine<'_>], due: &[DueLine<'_>]) -> bool {
    lines.len() == due.len()
        && lines.iter().zip(due).all(|(line, due)| line.seat == due.seat && line.place == due.place)
}

/// Whether the lines of one place say what the bus says there, where its change was told this.
fn are_right(
    alloc: Global,
    bus: &Registry,
    told: Option<&NumberedOutcome>,
    lines: &[LogLine<'_>],
    due: &[DueLine<'_>],
    place: usize,
) -> Result<bool, AllocError> {
    for (line, due) in lines.iter().zip(due) {
        if line.place == place && !says(alloc, bus, told, &line.exchange, due.question)? {
            return Ok(false);
        }
    }
    Ok(true)
}

fn says(
    alloc: Global,
    bus: &Registry,
    told: Option<&NumberedOutcome>,
    exchange: &Exchange<'_>,
    question: Option<&Question<'_>>,
) -> Result<bool, AllocError> {
    Ok(match (exchange, question) {
        (Exchange::Outcome { outcome, .. }, None) => {
            told.is_some_and(|told| is_told(outcome, told))
        }
        (Exchange::Body { asked, body, .. }, Some(Question::Ask(query))) => {
            let mut due = Vec::new(alloc);
            let Ok(due_asked) = bus.answer(query, &mut due) else {
                return Err(AllocError);
            };
            *asked == due_asked && body.as_slice() == due.as_slice()
        }
        (Exchange::Verdict { verdict, .. }, Some(Question::Route { from, facts })) => {
            let due = bus.route(*from, facts);
            verdict.kind == due.kind
                && verdict.to.as_slice() == due.to.as_slice()
                && verdict.monitors.as_slice() == due.monitors.as_slice()
        }
        (Exchange::Presence { present, .. }, Some(Question::Present(number))) => {
            *present == bus.present(*number)
        }
        _ => false,
    })
}

fn is_told(outcome: &Outcome, due: &NumberedOutcome) -> bool {
    let signals = outcome.signals.as_slice();
    let due_signals = due.signals.as_slice();
    let tickets = outcome.tickets.as_slice();
    let due_tickets = due.tickets.as_slice();
    outcome.reply == due.reply
        && outcome.start == due.start
        && signals.len() == due_signals.len()
        && signals
            .iter()
            .zip(due_signals)
            .all(|(a, b)| is_same_signal(a, b))
        && tickets.len() == due_tickets.len()
        && tickets
            .iter()
            .zip(due_tickets)
            .all(|(a, b)| a.fate == b.fate && a.ticket.number == b.number)
}

fn is_same_signal(a: &AddressedSignal, b: &AddressedSignal) -> bool {
    a.signal.get() == b.signal.get()
        && a.to.as_slice() == b.to.as_slice()
        && a.monitors.as_slice() == b.monitors.as_slice()
}
