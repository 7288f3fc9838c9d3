//! Lines on a bus whose view records nothing.

use crate::desks::done;
use crate::recorded::recorded;
use bus_trace::Traced;
use bus_view::{BusView, can_open};
use names::WellKnown;
use owner_queues::Profile;
use seq_bus::SeqBus;
use std::alloc::{AllocError, Global};
use trace_lines::{Line, read_line};

/// What a plain bus with these services and so many routers has made of lines with ` ; ` between
/// them, and what its silent view has kept; none where no such bus is opened or a line is none.
pub fn silent_row(
    alloc: Global,
    services: &[WellKnown],
    routers: u8,
    profile: Profile,
    lines: &str,
) -> Result<Option<String>, AllocError> {
    if !can_open(services, routers) {
        return Ok(None);
    }
    let plain = SeqBus::new(alloc, services, routers, profile)?;
    let mut view = Traced::silent(alloc, plain);
    let row = row_of(&mut view, alloc, routers, lines);
    drop(view);
    row
}

fn row_of(
    view: &mut Traced<SeqBus>,
    alloc: Global,
    routers: u8,
    lines: &str,
) -> Result<Option<String>, AllocError> {
    for text in lines.split(" ; ") {
        let Some(Line { subject, .. }) = read_line(alloc, routers, text)? else {
            return Ok(None);
        };
        done(view, &(), alloc, subject)?;
    }
    let kept = recorded(alloc, view)?;
    let kept = if kept.is_empty() {
        "nothing"
    } else {
        kept.as_str()
    };
    let made = view.made();
    Ok(Some(format!(in alloc; "silent: changes {made}, kept {kept}")?))
}
