//! A run over memory, by an engine over a plain bus.

use bus_view::can_open;
use busd_core::{ReadBeside, RunFault, run_over};
use owner_queues::Profile;
use seq_bus::SeqBus;
use std::alloc::{AllocError, Global};
use std::io::Write;

/// Runs over a bus of its own, with one router and no services.
pub(crate) fn run<R: ReadBeside<W>, W: Write>(
    alloc: Global,
    reader: &mut R,
    writer: &mut W,
) -> Result<(), RunFault> {
    if !can_open(&[], 1) {
        return Err(RunFault::Memory);
    }
    let Ok(bus) = SeqBus::new(alloc, &[], 1, Profile::Two) else {
        return Err(RunFault::Memory);
    };
    run_over(alloc, bus, &(), reader, writer)
}

pub(crate) fn joined(alloc: Global, parts: &[&[u8]]) -> Result<Vec<u8>, AllocError> {
    let mut bytes = Vec::new(alloc);
    for part in parts {
        bytes.extend_from_slice(part)?;
    }
    Ok(bytes)
}

/// What is sent, what the bus writes, and how the run ends.
pub(crate) type Row<'a> = (&'a [&'a [u8]], &'a [&'a [u8]], Result<(), RunFault>);

fn is_so_once(alloc: Global, row: &Row<'_>) -> Result<bool, AllocError> {
    let (sent, answers, end) = *row;
    let input = joined(alloc, sent)?;
    let expected = joined(alloc, answers)?;
    let mut output = Vec::new(alloc);
    let ended = run(alloc, &mut input.as_slice(), &mut output);
    Ok(ended == end && output.as_slice() == expected.as_slice())
}

/// Whether the bus answers as a row says: once more where one allocation failed.
pub(crate) fn is_so(alloc: Global, row: &Row<'_>) -> bool {
    is_so_once(alloc, row) == Ok(true) || is_so_once(alloc, row) == Ok(true)
}
