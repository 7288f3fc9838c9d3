//! Flags that threads raise for one another.

use std::sync::atomic::{AtomicBool, Ordering};

/// Raises a flag. One that is raised already is not written: others may be reading it.
pub(crate) fn raise(flag: &AtomicBool) {
    if !flag.load(Ordering::SeqCst) {
        flag.store(true, Ordering::SeqCst);
    }
}

/// Whether a flag was raised. It no longer is.
pub(crate) fn lower(flag: &AtomicBool) -> bool {
    flag.load(Ordering::SeqCst) && flag.swap(false, Ordering::SeqCst)
}
