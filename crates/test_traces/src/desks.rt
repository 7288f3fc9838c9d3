//! The desks of a registry that several routers share.

use crate::batch::Batch;
use crate::player::{Player, answer};
use crate::recorded::recorded;
use bus_trace::Traced;
use bus_view::BusView;
use names::WellKnown;
use registry_snapshots::{Desk, Naming, Note, Seat, Serve, Shared, StartFault, start};
use std::alloc::{AllocError, Global};
use std::sync::Wait;
use trace_lines::{Line, Subject, read_line};

/// What is told of each row at the desks of a registry with these services and so many routers.
/// Nothing is told where no registry is opened with them.
pub fn told_at_desks<R: Wait>(
    rt: &R,
    alloc: Global,
    services: &[WellKnown],
    routers: u8,
    rows: &[&str],
) -> Result<Vec<Option<String>>, AllocError> {
    let stage = Stage {
        rt,
        alloc,
        services,
        routers,
        rows,
    };
    match start(rt, alloc, services, routers, stage) {
        Ok(told) => told,
        Err(StartFault::NoMemory) => Err(AllocError),
        Err(StartFault::Routers | StartFault::Services) => Ok(Vec::new(alloc)),
    }
}

/// Plays rows at the desks of a registry.
#[derive(Drop)]
struct Stage<'a, R> {
    rt: &'a R,
    alloc: Global,
    services: &'a [WellKnown],
    routers: u8,
    rows: &'a [&'a str],
}

impl<'a, R: Wait> Serve for Stage<'a, R> {
    ghost use Rattle.owner_queues.specs.declared.request.Profile.TheVariants.{Two};
    ghost use Rattle.seq_bus_core.specs.Tickets.{opening_bus};

    type Out = Result<Vec<Option<String>>, AllocError>;

    ghost bus = { λ s. opening_bus Two s.routers s.services.now };

    fn serve<J: Naming + Send + Sync>(
        self,
        shared: Shared<J>,
        seats: Vec<Seat<J>>,
    ) -> Result<Vec<Option<String>>, AllocError> {
        let told = self.told(&shared, seats);
        shared.end(self.rt);
        told
    }
}

impl<'a, R: Wait> Stage<'a, R> {
    fn told<J: Naming>(
        &self,
        shared: &Shared<J>,
        seats: Vec<Seat<J>>,
    ) -> Result<Vec<Option<String>>, AllocError> {
        let mut desks = Desks::new(self.rt, self.alloc, shared, seats)?;
        let told = desks.told_all(self.alloc, self.rows);
        drop(desks);
        told
    }
}

/// The desk of each seat, from that of the main thread on, seen through a view that records.
#[derive(Drop)]
struct Desks<'a, J: Naming, R: Wait> {
    right: &'a R,
    routers: u8,
    desks: Vec<Traced<Desk<'a, J, R>>>,
}

impl<'a, J: Naming, R: Wait> Desks<'a, J, R> {
    fn new(
        right: &'a R,
        alloc: Global,
        shared: &'a Shared<J>,
        seats: Vec<Seat<J>>,
    ) -> Result<Desks<'a, J, R>, AllocError> {
        let mut desks = Vec::new(alloc);
        for seat in seats {
            let desk: Desk<'a, J, R> = Desk::new(seat, shared);
            desks.push(Traced::new(alloc, desk))?;
        }
        Ok(Desks {
            right,
            routers: shared.routers(),
            desks,
        })
    }

    fn told_all(
        &mut self,
        alloc: Global,
        rows: &[&str],
    ) -> Result<Vec<Option<String>>, AllocError> {
        let mut told = Vec::new(alloc);
        for row in rows {
            told.push(answer(self, alloc, row)?)?;
        }
        Ok(told)
    }

    /// Each desk takes a note.
    fn tell_all(&mut self, note: &Note<J>) {
        for desk in self.desks.iter_mut() {
            desk.take_note(note);
        }
    }
}

impl<'a, J: Naming, R: Wait> Player for Desks<'a, J, R> {
    /// The line that the desk of its seat has recorded. All are told of a change.
    fn line(&mut self, alloc: Global, text: &str) -> Result<Option<String>, AllocError> {
        let Some(Line { seat, subject, .. }) = read_line(alloc, self.routers, text)? else {
            return Ok(None);
        };
        let Some(desk) = self.desks.get_mut(place_of(seat)) else {
            return Ok(None);
        };
        let note = done(desk, self.right, alloc, subject)?;
        let told = recorded(alloc, desk)?;
        if let Some(note) = note {
            self.tell_all(&note);
        }
        Ok(Some(told))
    }

    fn batch(&mut self, alloc: Global, lines: &str) -> Result<Option<String>, AllocError> {
        let Some(Batch { seat, changes, .. }) = Batch::read(alloc, self.routers, lines)? else {
            return Ok(None);
        };
        let Some(desk) = self.desks.get_mut(place_of(seat)) else {
            return Ok(None);
        };
        let Ok((_, note)) = desk.change_all(self.right, changes) else {
            return Err(AllocError);
        };
        let told = recorded(alloc, desk)?;
        self.tell_all(&note);
        Ok(Some(told))
    }
}

fn place_of(seat: u64) -> usize {
    usize::from(u8::try_from(seat).unwrap_or(u8::MAX))
}

/// Does by a view what a line tells of. A change brings a note.
pub fn done<V: BusView>(
    view: &mut V,
    right: &V::Right,
    alloc: Global,
    subject: Subject<'_>,
) -> Result<Option<V::Note>, AllocError> {
    match subject {
        Subject::Change { change, .. } => match view.change(right, change) {
            Ok((_, note)) => Ok(Some(note)),
            Err(_) => Err(AllocError),
        },
        Subject::Query(query) => {
            let mut body = Vec::new(alloc);
            match view.ask(&query, &mut body) {
                Ok(_) => Ok(None),
                Err(_) => Err(AllocError),
            }
        }
        Subject::Route(route) => {
            let arguments = route.arguments();
            match view.route(route.sender, &route.facts(arguments.as_slice())) {
                Ok(_) => Ok(None),
                Err(_) => Err(AllocError),
            }
        }
    }
}
