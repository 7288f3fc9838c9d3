//! Lines of traces, read, played on buses, and written as a bus would.
//!
//! Each row of standard input is answered by one line. Changes are made in the order of the rows.
//!
//! - A line of a trace: the line that the bus would have written there, or `differs` where two of
//!   the buses would have written different ones. A line `dbus-trace` begins another trace. It is
//!   played on a registry and on a plain bus, and by the second profile also at the desks of a
//!   registry that its routers share, each line at the desk of its seat. The line is the desk's
//!   where there is one; else its place and its number stand there as they were. The plain bus has
//!   one seat: once a connection has come by another one, it is not asked any more.
//! - `connection N => ..`: what the registry keeps of a connection, with its rules.
//! - `monitors => ..`: the connections that are monitors.
//! - `silent LINE ; LINE ..`: how many changes another plain bus makes of these lines, and what its
//!   view keeps, which records nothing.
//! - `each FIRST LAST OTHER LINE ; LINE ..`: all these lines once for each number from the first to
//!   the last, which stands in the place of `#`; a number that rises with it from the other one on
//!   stands in the place of `%`. The row is repeated where each line is answered by itself, else it
//!   is answered as the first that is not.
//! - `batch LINE ; LINE ..`: lines of changes by one seat, which its desk and the plain bus make at
//!   once, and the registry one after the other.
//! - Empty lines and headings (`#`) are repeated. Any other row is answered by `none`.
//!
//! Behind a row `verdicts` a trace is one case: its lines are not answered, but a row that ends it.
//!
//! - `check`: the verdict on it; `check cut`: the same without its last line feed. Behind a no for
//!   its content stands what the bus tells there.
//! - `check each`: the verdicts where each of its bytes in turn is made a `~`, each with how many
//!   bytes in a row give it.
//! - `empty` stands for an empty line of the trace, and `services N` for so many lines that name
//!   services.
#![tactic(auto)]

mod answers;
mod batch;
mod buses;
mod desks;
mod each;
mod played;
mod player;
mod recorded;
mod silent;
mod traces;
mod verdicts;

use std::io;
use std::io::{BufRead, BufReader};

/// The rows that are answered one by one, and those from the row `verdicts` on.
fn parted(rows: &[String]) -> (&[String], &[String]) {
    let place = rows.iter().position(|row| row.as_str() == "verdicts");
    rows.split_at_checked(place.unwrap_or(rows.len()))
        .unwrap_or((rows, rows))
}

fn main(rt: HostRuntime) -> io::Result<()> {
    let alloc = rt.alloc();
    let mut rows = Vec::new(alloc);
    for row in BufReader::new(alloc, rt.reader())?.lines(alloc) {
        rows.push(row?)?;
    }
    let (lines, whole) = parted(&rows);
    let answers = traces::answers(&rt, alloc, lines)?;
    let verdicts = verdicts::verdicts(alloc, whole)?;
    print!(rt; "{answers}{verdicts}")
}
