//! Lines that a view has recorded.

use bus_trace::Traced;
use bus_view::BusView;
use std::alloc::{AllocError, Global};

/// The lines that a view has kept, with ` ; ` between them.
pub fn recorded<V: BusView>(alloc: Global, view: &mut Traced<V>) -> Result<String, AllocError> {
    let lines = view.take_lines();
    if view.lost() {
        return Err(AllocError);
    }
    let mut text = String::new(alloc);
    for line in str::from_utf8(lines.as_slice()).unwrap_or("").lines() {
        if !text.is_empty() {
            text.push_str(" ; ")?;
        }
        text.push_str(line)?;
    }
    Ok(text)
}

/// Whether two rows tell the same behind the arrow of each line.
pub fn tell_the_same(one: &str, other: &str) -> bool {
    one.split(" ; ").map(told).eq(other.split(" ; ").map(told))
}

/// What stands behind the arrow of a line; all of it where there is none.
fn told(line: &str) -> &str {
    match line.split_once(" => ") {
        Some((_, told)) => told,
        None => line,
    }
}
