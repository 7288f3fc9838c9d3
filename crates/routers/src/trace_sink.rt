//! Where the lines of a recorded run go.

ghost use Rattle.std.specs.Prelude.{◌≡◌};

use bus_view::BusView;
use registry_snapshots::{Desk, Naming};
use router::Traced;
use router_core::Gate;
use router_host::{Host, Post, Socket};
use routers_core::{Fault, LanePost, Wake};
use std::alloc::Global;
use std::sync::Wait;

/// Where a thread writes the lines of its trace.
pub trait TraceSink {
    /// Whether the run is recorded. Where it is not, there is nothing to write.
    fn records(&self) -> bool;

    /// Writes lines, each ended by a line feed, behind those that were written before.
    ///
    /// # Errors
    ///
    /// `Trace` where they can't be written, `Memory` where that finds no memory. The bus ends then.
    fn write(&mut self, lines: &[u8]) -> Result<(), Fault>;
}

/// The view of a thread, which records what it does where that is wanted.
pub fn traced<V: BusView>(alloc: Global, view: V, records: bool) -> Traced<V>
    ensures { result.view ≡ view }
{
    if records {
        Traced::new(alloc, view)
    } else {
        Traced::silent(alloc, view)
    }
}

/// Who writes what a host recorded.
pub trait TraceWriter<V: BusView, G: Gate, P: Post<V>, S: Socket> {
    /// Writes what the host recorded since this was done last.
    ///
    /// # Errors
    ///
    /// It can't be written, or there was no memory for a part of it.
    fn record(&mut self, host: &mut Host<V, G, P, S>) -> Result<(), Fault>
        ensures same { host.new ≡ host.old };
}

impl<'a, J: Naming, W: Wake + Drop, R: Wait, G: Gate, S: Socket, T: TraceSink> TraceWriter<
    Traced<Desk<'a, J, R>>,
    G,
    LanePost<'a, J, W>,
    S,
> for T {
    fn record(
        &mut self,
        host: &mut Host<Traced<Desk<'a, J, R>>, G, LanePost<'a, J, W>, S>,
    ) -> Result<(), Fault> {
        write_any(self, host.take_lines())?;
        if host.lost() {
            Err(Fault::Memory)
        } else {
            Ok(())
        }
    }
}

/// Writes lines, if there are any.
fn write_any<T: TraceSink>(sink: &mut T, lines: Vec<u8>) -> Result<(), Fault> {
    if lines.is_empty() {
        Ok(())
    } else {
        sink.write(lines.as_slice())
    }
}
