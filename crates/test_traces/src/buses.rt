//! A registry and a plain bus, on which the same is done.

use crate::answers::answered;
use crate::batch::Batch;
use crate::recorded::{recorded, tell_the_same};
use bus_trace::Traced;
use bus_view::{BusView, can_open};
use names::WellKnown;
use owner_queues::{Profile, Queue};
use registry::Registry;
use seq_bus::{SEAT, SeqBus};
use seq_bus_core::{Change, Query, Reply};
use std::alloc::{AllocError, Global};
use trace_lines::{ChangeWords, Draft, Line, Route, Subject, write_route_line};

/// A registry, whose changes are made by one call, and a plain bus, which prepares each and then
/// absorbs it, seen through a view that records.
#[derive(Drop)]
pub struct Buses {
    registry: Registry,
    queue: Queue,
    plain: Traced<SeqBus>,
    /// Whether all connections came by the plain bus's one seat.
    are_alike: bool,
}

impl Buses {
    /// Buses with these services and so many routers; none where no bus is opened with them.
    pub fn open(
        alloc: Global,
        services: &[WellKnown],
        routers: u8,
        profile: Profile,
    ) -> Result<Option<Buses>, AllocError> {
        if !can_open(services, routers) {
            return Ok(None);
        }
        let plain = SeqBus::new(alloc, services, routers, profile)?;
        Ok(Some(Buses {
            registry: Registry::new(alloc, services, routers, profile)?,
            queue: Queue::new(),
            plain: Traced::new(alloc, plain),
            are_alike: true,
        }))
    }

    /// The line that the registry gives, or `differs` where the plain bus tells something else.
    pub fn line(&mut self, alloc: Global, line: Line<'_>) -> Result<String, AllocError> {
        let Line {
            place,
            seat,
            subject,
            ..
        } = line;
        let written = match subject {
            Subject::Change { number, change } => {
                self.change_line(alloc, place, seat, number, change)?
            }
            Subject::Query(query) => self.query_line(alloc, place, seat, &query)?,
            Subject::Route(route) => self.route_line(alloc, place, seat, &route)?,
        };
        let recorded = recorded(alloc, &mut self.plain)?;
        if self.are_alike && !tell_the_same(recorded.as_str(), written.as_str()) {
            return String::from_str(alloc, "differs");
        }
        Ok(written)
    }

    /// The lines of changes that the registry makes one after the other, and the plain bus at once,
    /// or `differs`.
    pub fn batch(&mut self, alloc: Global, batch: Batch) -> Result<String, AllocError> {
        let Batch {
            place,
            seat,
            number,
            changes,
        } = batch;
        let mut written = String::new(alloc);
        for (change, (place, number)) in changes.iter().zip((place..).zip(number..)) {
            let (line, _) = self.made(alloc, place, seat, number, change)?;
            if !written.is_empty() {
                written.push_str(" ; ")?;
            }
            written.push_str(line.as_str())?;
        }
        if self.plain.change_all(&(), changes).is_err() {
            return Err(AllocError);
        }
        let recorded = recorded(alloc, &mut self.plain)?;
        if self.are_alike && !tell_the_same(recorded.as_str(), written.as_str()) {
            return String::from_str(alloc, "differs");
        }
        Ok(written)
    }

    fn change_line(
        &mut self,
        alloc: Global,
        place: u64,
        seat: u64,
        number: u64,
        change: Change,
    ) -> Result<String, AllocError> {
        let (written, reply) = self.made(alloc, place, seat, number, &change)?;
        let Ok((outcome, ())) = self.plain.change(&(), change) else {
            return Err(AllocError);
        };
        if self.are_alike && outcome.reply != reply {
            return String::from_str(alloc, "differs");
        }
        Ok(written)
    }

    /// The line of a change that the registry makes, and the reply to it.
    fn made(
        &mut self,
        alloc: Global,
        place: u64,
        seat: u64,
        number: u64,
        change: &Change,
    ) -> Result<(String, Reply), AllocError> {
        if matches!(change, Change::Hello { .. }) && seat != u64::from(SEAT) {
            self.are_alike = false;
        }
        let words = ChangeWords::of(alloc, change)?;
        let maker = u8::try_from(seat).unwrap_or(0);
        let prepared = self.registry.make(&mut self.queue, alloc, maker, change)?;
        let mut written = Draft::new(alloc);
        words.write_line(&mut written, place, seat, number, prepared.outcome())?;
        Ok((written.into_string(), prepared.outcome().reply))
    }

    fn query_line(
        &mut self,
        alloc: Global,
        place: u64,
        seat: u64,
        query: &Query,
    ) -> Result<String, AllocError> {
        let mut body = Vec::new(alloc);
        if self.plain.ask(query, &mut body).is_err() {
            return Err(AllocError);
        }
        answered(alloc, place, seat, query, &self.registry)
    }

    fn route_line(
        &mut self,
        alloc: Global,
        place: u64,
        seat: u64,
        route: &Route<'_>,
    ) -> Result<String, AllocError> {
        let arguments = route.arguments();
        let facts = route.facts(arguments.as_slice());
        let from = route.sender;
        if self.plain.route(from, &facts).is_err() {
            return Err(AllocError);
        }
        let verdict = self.registry.route(from, &facts);
        let mut written = Draft::new(alloc);
        write_route_line(&mut written, place, seat, from, &facts, &verdict)?;
        Ok(written.into_string())
    }

    /// What the registry keeps of a connection: its router and its slot, what it is, and its rules.
    pub fn connection_row(&mut self, alloc: Global, number: u64) -> Result<String, AllocError> {
        let conn = self.registry.conn(number);
        if self.are_alike && self.plain.present(number) != Ok(conn.is_some()) {
            return String::from_str(alloc, "differs");
        }
        let Some(conn) = conn else {
            return format!(in alloc; "connection {number} => none");
        };
        let (router, routers, slot) = (conn.router, self.registry.routers(), conn.slot);
        let mut row = format!(in alloc;
            "connection {number} => router {router} of {routers}, slot {slot}"
        )?;
        if !self.registry.is_client(number) {
            row.push_str(", a monitor")?;
        }
        for rule in self.registry.rules(number) {
            row.push_str(format!(in alloc; " [{rule}]")?.as_str())?;
        }
        Ok(row)
    }

    /// Which connections the registry has as monitors.
    pub fn monitors_row(&self, alloc: Global) -> Result<String, AllocError> {
        if !self.registry.has_monitors() {
            return String::from_str(alloc, "monitors => none");
        }
        let mut row = String::from_str(alloc, "monitors =>")?;
        for monitor in self.registry.monitors() {
            let number = monitor.conn().number;
            row.push_str(format!(in alloc; " {number}")?.as_str())?;
        }
        Ok(row)
    }
}
