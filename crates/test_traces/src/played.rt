//! A trace that is played on a registry and on a plain bus.

use crate::batch::Batch;
use crate::buses::Buses;
use crate::player::{Player, answer};
use crate::silent::silent_row;
use names::WellKnown;
use owner_queues::Profile;
use std::alloc::{AllocError, Global};
use trace_lines::{
    profile_line, read_line, read_profile, read_routers, read_service, routers_line, service_line,
};

/// The head of a trace.
#[derive(Drop)]
pub struct Head {
    pub profile: Profile,
    pub routers: u8,
    pub services: Vec<WellKnown>,
}

impl Head {
    /// The head of a trace without a line.
    fn new(alloc: Global) -> Head {
        Head {
            profile: Profile::Two,
            routers: 1,
            services: Vec::new(alloc),
        }
    }

    /// A line of the head as a bus would have written it; none for any other line.
    fn line(&mut self, alloc: Global, text: &str) -> Result<Option<String>, AllocError> {
        if let Some(profile) = read_profile(text) {
            self.profile = profile;
            return Ok(Some(String::from_str(alloc, profile_line(profile))?));
        }
        if let Some(routers) = read_routers(text) {
            self.routers = u8::try_from(routers).unwrap_or(0);
            return Ok(Some(routers_line(alloc, self.routers)?));
        }
        if let Some(service) = read_service(text) {
            self.services.push(service)?;
            return Ok(Some(service_line(alloc, &service)?));
        }
        Ok(None)
    }
}

/// The head of a trace with these rows, and what is told of each row.
pub fn told_on_buses(
    alloc: Global,
    rows: &[&str],
) -> Result<(Head, Vec<Option<String>>), AllocError> {
    let mut played = Played {
        head: Head::new(alloc),
        buses: None,
    };
    let told = told_all(&mut played, alloc, rows);
    let Played { head, buses } = played;
    drop(buses);
    Ok((head, told?))
}

fn told_all(
    played: &mut Played,
    alloc: Global,
    rows: &[&str],
) -> Result<Vec<Option<String>>, AllocError> {
    let mut told = Vec::new(alloc);
    for row in rows {
        told.push(answer(played, alloc, row)?)?;
    }
    Ok(told)
}

/// The head so far, and the buses that the lines behind it are played on.
#[derive(Drop)]
struct Played {
    head: Head,
    buses: Option<Buses>,
}

impl Played {
    /// Opens the buses where they are not open yet.
    fn open(&mut self, alloc: Global) -> Result<(), AllocError> {
        if self.buses.is_none() {
            let Head {
                profile,
                routers,
                services,
            } = &self.head;
            self.buses = Buses::open(alloc, services, *routers, *profile)?;
        }
        Ok(())
    }

    /// A line behind the head as a bus would have written it, or what is kept of what it asks for;
    /// none for any other line.
    fn line_behind(&mut self, alloc: Global, text: &str) -> Result<Option<String>, AllocError> {
        self.open(alloc)?;
        let Some(buses) = &mut self.buses else {
            return Ok(None);
        };
        if let Some(number) = connection_in(text) {
            return Ok(Some(buses.connection_row(alloc, number)?));
        }
        if text.starts_with("monitors") {
            return Ok(Some(buses.monitors_row(alloc)?));
        }
        if let Some(lines) = text.strip_prefix("silent ") {
            let head = &self.head;
            return silent_row(alloc, &head.services, head.routers, head.profile, lines);
        }
        match read_line(alloc, self.head.routers, text)? {
            Some(line) => Ok(Some(buses.line(alloc, line)?)),
            None => Ok(None),
        }
    }
}

impl Player for Played {
    fn line(&mut self, alloc: Global, text: &str) -> Result<Option<String>, AllocError> {
        match self.head.line(alloc, text)? {
            Some(line) => Ok(Some(line)),
            None => self.line_behind(alloc, text),
        }
    }

    fn batch(&mut self, alloc: Global, lines: &str) -> Result<Option<String>, AllocError> {
        self.open(alloc)?;
        let Some(buses) = &mut self.buses else {
            return Ok(None);
        };
        match Batch::read(alloc, self.head.routers, lines)? {
            Some(batch) => Ok(Some(buses.batch(alloc, batch)?)),
            None => Ok(None),
        }
    }
}

/// The number of a connection that is asked for.
fn connection_in(text: &str) -> Option<u64> {
    let (number, _) = text.strip_prefix("connection ")?.split_once(' ')?;
    number.parse().ok()
}
