//! The files of a trace.

ghost use Rattle.std.specs.Prelude.{◌≡◌, ◌++◌, string_bytes, IfOk, OnOk};
ghost use Rattle.busd_core.specs.Heads.{ended, head_text};

use crate::serve_fault::{Device, ServeFault, device_fault};
use names::WellKnown;
use owner_queues::Profile;
use seq_bus_core::limits::MAX_ROUTERS;
use std::alloc::{AllocError, Global};
use std::fs::{OpenFile, OpenOptions};
use std::io;
use std::io::{ErrorKind, Write};
use std::rt::Files;
use trace_lines::{profile_line, routers_line, service_line};

/// Appends a line.
fn push_line(text: &mut String, line: &str) -> Result<(), AllocError>
    ensures { OnOk result (string_bytes text.new ≡ string_bytes text.old ++ ended line.now) }
{
    text.push_str(line)?;
    text.push('\n')
}

/// The head of a trace: the profile of the bus, how many routers it has, and its services.
fn head(alloc: Global, routers: u8, services: &[WellKnown]) -> Result<String, AllocError>
    ensures { IfOk result (λ head. string_bytes head ≡ head_text routers services.now) }
{
    let mut head = String::new(alloc);
    push_line(&mut head, profile_line(Profile::Two))?;
    push_line(&mut head, routers_line(alloc, routers)?.as_str())?;
    for service in services {
        push_line(&mut head, service_line(alloc, service)?.as_str())?;
    }
    Ok(head)
}

/// The files of a trace, one for each seat and one for its head. What stood in them before stands
/// there until the trace begins.
#[derive(Drop)]
pub struct TraceFiles<'a, F: Drop> {
    folder: &'a str,
    head: F,
    /// That of the main thread first.
    seats: Vec<F>,
}

fn path_of(alloc: Global, folder: &str, name: &str) -> Result<String, AllocError> {
    format!(in alloc; "{folder}/{name}.trace")
}

fn router_name(alloc: Global, router: u8) -> Result<String, AllocError> {
    format!(in alloc; "router-{router}")
}

/// Opens a file of the folder, to write to it. One that is not there is made.
fn open<R: Files + AllocGlobal>(rt: &R, folder: &str, name: &str) -> io::Result<R::File> {
    let path = path_of(rt.alloc(), folder, name)?;
    OpenOptions::new()
        .write(true)
        .create(true)
        .open(rt, path.as_str())
}

/// Takes what stands in a file of the folder out of it, if there is such a file.
fn empty<R: Files + AllocGlobal>(rt: &R, folder: &str, name: &str) -> io::Result<()> {
    let path = path_of(rt.alloc(), folder, name)?;
    let opened = OpenOptions::new()
        .write(true)
        .truncate(true)
        .open(rt, path.as_str());
    match opened {
        Ok(_file) => Ok(()),
        Err(error) => match error.kind() {
            ErrorKind::NotFound => Ok(()),
            _ => Err(error),
        },
    }
}

/// Empties the files that a bus of more routers left in the folder.
fn empty_others<R: Files + AllocGlobal>(rt: &R, folder: &str, routers: u8) -> io::Result<()> {
    for router in 1..=MAX_ROUTERS {
        if router > routers {
            let name = router_name(rt.alloc(), router)?;
            empty(rt, folder, name.as_str())?;
        }
    }
    Ok(())
}

/// Adds a file of the folder.
fn add_file<R: Files + AllocGlobal>(
    rt: &R,
    folder: &str,
    name: &str,
    files: &mut Vec<R::File>,
) -> io::Result<()> {
    let file = open(rt, folder, name)?;
    files.push(file).map_err(|_| AllocError)?;
    Ok(())
}

fn add_routers<R: Files + AllocGlobal>(
    rt: &R,
    folder: &str,
    routers: u8,
    files: &mut Vec<R::File>,
) -> io::Result<()> {
    for router in 1..=routers {
        let name = router_name(rt.alloc(), router)?;
        add_file(rt, folder, name.as_str(), files)?;
    }
    Ok(())
}

/// Opens the file of each seat.
fn seats<R: Files + AllocGlobal>(rt: &R, folder: &str, routers: u8) -> io::Result<Vec<R::File>> {
    let mut files = Vec::new(rt.alloc());
    add_file(rt, folder, "main", &mut files)?;
    add_routers(rt, folder, routers, &mut files)?;
    Ok(files)
}

/// Opens the head, and the file of each seat.
fn open_all<'a, R: Files + AllocGlobal>(
    rt: &R,
    folder: &'a str,
    routers: u8,
) -> io::Result<TraceFiles<'a, R::File>> {
    if folder.is_empty() {
        return Err(io::Error::from(ErrorKind::NotFound));
    }
    Ok(TraceFiles {
        folder,
        head: open(rt, folder, "head")?,
        seats: seats(rt, folder, routers)?,
    })
}

/// Takes what stands in a file out of it. In a device nothing stands.
fn clear<F: OpenFile>(file: &F) -> io::Result<()> {
    match file.set_len(0) {
        Ok(()) => Ok(()),
        Err(error) => match error.kind() {
            ErrorKind::InvalidInput => Ok(()),
            _ => Err(error),
        },
    }
}

impl<F: OpenFile + Write + Drop> TraceFiles<'_, F> {
    /// Begins the trace of a bus with so many routers and these services, whose names rise: writes
    /// its head. Of an earlier trace nothing is left in the folder's files, of one with more
    /// routers neither. Hands out those that lines are to be written to, that of the main thread
    /// first.
    ///
    /// # Errors
    ///
    /// `Device(Trace)` where a file can't be written, `Memory` where there is no memory for the
    /// head.
    pub fn begin<R: Files + AllocGlobal>(
        self,
        rt: &R,
        routers: u8,
        services: &[WellKnown],
    ) -> Result<Vec<F>, ServeFault> {
        self.write_head(rt, routers, services)
            .map_err(|error| device_fault(error, Device::Trace))
    }

    /// Empties all files, and writes the head.
    fn write_head<R: Files + AllocGlobal>(
        self,
        rt: &R,
        routers: u8,
        services: &[WellKnown],
    ) -> io::Result<Vec<F>> {
        let text = head(rt.alloc(), routers, services)?;
        let TraceFiles {
            folder,
            mut head,
            seats,
        } = self;
        clear(&head)?;
        for seat in &seats {
            clear(seat)?;
        }
        empty_others(rt, folder, routers)?;
        head.write_all(text.as_bytes())?;
        Ok(seats)
    }
}

/// Opens the files of the trace of a bus with so many routers, in a folder: `head.trace`,
/// `main.trace` and `router-K.trace` for each router, from 1. Nothing is written to them yet.
///
/// # Errors
///
/// `Device(Trace)` where a file can't be opened or made, `Memory` where there is no memory for its
/// path.
pub fn open_trace<'a, R: Files + AllocGlobal>(
    rt: &R,
    folder: &'a str,
    routers: u8,
) -> Result<TraceFiles<'a, R::File>, ServeFault> {
    open_all(rt, folder, routers).map_err(|error| device_fault(error, Device::Trace))
}
