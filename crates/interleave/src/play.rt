//! The play of a world's steps.

ghost use Rattle.std.specs.Prelude.{◌≡◌, ◌==◌, ◌<◌, IsTrue, vec_len, [], length, map, slice_get, replicate, ◌+◌, List, OnOk, IfOk};
ghost use Rattle.std.specs.List.{list_any};
ghost use Rattle.interleave.specs.Playing.{AreBeginnings, IsPlayed, Comes, sight, sight_of};
ghost use Rattle.interleave_core.specs.Worlds.{Moment, Logged, first_moment, happens, after_read, after_publication, after_note, may_read, may_publish};

use crate::log::LogLine;
use crate::seat::{Made, Seat};
use crate::world::World;
use interleave_core::{Question, Step};
use seq_bus_core::Change;
use seq_bus_core::limits::MAX_BATCH;
use std::alloc::{AllocError, Global};

/// What has happened so far.
#[derive(Drop)]
pub(crate) struct Play<'a> {
    pub(crate) published: Vec<Made<'a>>,
    pub(crate) ends: Vec<usize>,
    /// By number.
    pub(crate) seats: Vec<Seat>,
    pub(crate) log: Vec<LogLine<'a>>,
}

impl<'a> Play<'a> {
    /// Nothing has happened.
    pub(crate) fn new(alloc: Global, world: &World) -> Result<Play<'a>, AllocError>
        ensures { IfOk result (λ play. IsPlayed (first_moment world.now) [] play) }
    {
        let seats = open_seats(alloc, world)?;
        let mut ends = Vec::new(alloc);
        ends.push(0)?;
        Ok(Play {
            published: Vec::new(alloc),
            ends,
            seats,
            log: Vec::new(alloc),
        })
    }

    /// A step is taken.
    pub(crate) fn take(&mut self, alloc: Global, step: &'a Step<'a>) -> Result<(), AllocError>
        ensures { OnOk result ((m : Moment) (log : List Logged) → AreBeginnings m →
            IsPlayed m log self.old → Comes (happens m step.now) log self.new) }
    {
        match step {
            Step::Read {
                seat,
                place,
                question,
            } => self.read(alloc, *seat, *place, question),
            Step::Publish { seat, changes } => self.publish(alloc, *seat, changes.as_slice()),
            Step::TakeNote { seat, place } => self.take_note(alloc, *seat, *place),
            Step::Refused { .. } => Ok(()),
        }
    }

    fn read(
        &mut self,
        alloc: Global,
        seat: u8,
        place: usize,
        question: &'a Question<'a>,
    ) -> Result<(), AllocError>
        ensures { OnOk result ((m : Moment) (log : List Logged) → AreBeginnings m →
            IsPlayed m log self.old →
            Comes (after_read m seat place question.now (slice_get m.seen seat)) log self.new) }
    {
        if !self.may_read(seat, place) {
            return Ok(());
        }
        let at = seat as usize;
        self.seats[at].catch_up(alloc, self.published.as_slice(), place)?;
        let exchange = self.seats[at].bus.answer(alloc, question)?;
        self.log.push(LogLine {
            seat,
            place,
            exchange,
        })?;
        Ok(())
    }

    fn publish(&mut self, alloc: Global, seat: u8, changes: &'a [Change]) -> Result<(), AllocError>
        ensures { OnOk result ((m : Moment) (log : List Logged) → AreBeginnings m →
            IsPlayed m log self.old →
            Comes (after_publication m seat changes.now (slice_get m.seen seat)) log self.new) }
    {
        if !self.may_publish(seat, changes) {
            return Ok(());
        }
        let at = seat as usize;
        let place = self.published.len();
        self.seats[at].catch_up(alloc, self.published.as_slice(), place)?;
        self.seats[at].publish(alloc, seat, changes, &mut self.published, &mut self.log)?;
        let end = self.published.len();
        self.ends.push(end)?;
        Ok(())
    }

    fn take_note(&mut self, alloc: Global, seat: u8, place: usize) -> Result<(), AllocError>
        ensures { OnOk result ((m : Moment) (log : List Logged) → AreBeginnings m →
            IsPlayed m log self.old →
            Comes (after_note m seat place (slice_get m.seen seat)) log self.new) }
    {
        if !self.may_read(seat, place) {
            return Ok(());
        }
        self.seats[seat as usize].catch_up(alloc, self.published.as_slice(), place)?;
        Ok(())
    }

    /// Whether a seat is there, and this place is an end that is not below what it has seen.
    fn may_read(&self, seat: u8, place: usize) -> bool
        ensures there { IsTrue result → seat < vec_len self.now.seats }
        ensures right { (m : Moment) (log : List Logged) → IsPlayed m log self.now →
            result ≡ may_read m place (slice_get m.seen seat) }
    {
        match self.seats.get(seat as usize) {
            Some(found) => self.is_end(place) && found.seen <= place,
            None => false,
        }
    }

    /// Whether a seat is there, and these changes are a batch.
    fn may_publish(&self, seat: u8, changes: &[Change]) -> bool
        ensures there { IsTrue result → seat < vec_len self.now.seats }
        ensures right { (m : Moment) (log : List Logged) → IsPlayed m log self.now →
            result ≡ may_publish changes.now (slice_get m.seen seat) }
    {
        let is_there = (seat as usize) < self.seats.len();
        is_there && 1 <= changes.len() && changes.len() <= MAX_BATCH
    }

    fn is_end(&self, place: usize) -> bool
        ensures { result ≡ list_any (λ e. e == place) self.now.ends.items }
    {
        self.ends.as_slice().iter().any(|end| *end == place)
    }
}

/// The seats of a world, which have seen nothing.
fn open_seats(alloc: Global, world: &World) -> Result<Vec<Seat>, AllocError>
    ensures { IfOk result (λ seats. map sight seats.items
        ≡ map (sight_of world.now) (replicate (world.now.state.routers + 1) [])) }
{
    let mut seats = Vec::new(alloc);
    for _ in 0..world.routers() as usize + 1 {
        let bus = world.open(alloc)?;
        seats.push(Seat { seen: 0, bus })?;
    }
    Ok(seats)
}
