//! The files that the threads of a bus write their lines to.

use busd_core::{Options, ServeFault, TraceFiles, open_trace};
use names::WellKnown;
use routers::{Fault, TraceSink};
use std::fs::OpenFile;
use std::io;
use std::io::{ErrorKind, Write};
use std::rt::Files;

/// The file of one thread's lines, if the run is recorded.
#[derive(Drop)]
pub(crate) struct TraceFile<F> {
    file: Option<F>,
}

impl<F: Write + Drop> TraceSink for TraceFile<F> {
    fn records(&self) -> bool {
        self.file.is_some()
    }

    fn write(&mut self, lines: &[u8]) -> Result<(), Fault> {
        let Some(file) = &mut self.file else {
            return Ok(());
        };
        file.write_all(lines).map_err(trace_fault)
    }
}

/// The fault of lines that could not be written.
fn trace_fault(error: io::Error) -> Fault {
    match error.kind() {
        ErrorKind::OutOfMemory => Fault::Memory,
        _ => Fault::Trace,
    }
}

/// Opens the files of the trace, where the options want one.
pub(crate) fn open_files<'a, R: Files + AllocGlobal>(
    rt: &R,
    options: &Options<'a>,
) -> Result<Option<TraceFiles<'a, R::File>>, ServeFault> {
    match options.trace {
        Some(folder) => Ok(Some(open_trace(rt, folder, options.routers)?)),
        None => Ok(None),
    }
}

/// Where each thread of a bus with these services writes its lines, the main thread's first.
pub(crate) fn begin_files<R: Files + AllocGlobal, F: OpenFile + Write + Drop>(
    rt: &R,
    files: Option<TraceFiles<'_, F>>,
    routers: u8,
    services: &[WellKnown],
) -> Result<Vec<TraceFile<F>>, ServeFault> {
    let mut traces = Vec::new(rt.alloc());
    match files {
        Some(files) => for file in files.begin(rt, routers, services)? {
            traces.push(TraceFile { file: Some(file) })?;
        },
        None => for _seat in 0..=routers {
            traces.push(TraceFile { file: None })?;
        },
    }
    Ok(traces)
}
