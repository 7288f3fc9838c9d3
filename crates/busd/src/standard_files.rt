//! Standard input, output and error of the daemon.

use std::fs::File;
use std::os::fd::AsRawFd;
use std::rt::Files;

/// The first descriptor that is none of the standard ones.
const FIRST_OTHER: i32 = 3;

/// Files in the place of those of standard input, output and error that were closed.
#[derive(Drop)]
pub(crate) struct StandardFiles<F> {
    _first: Option<F>,
    _second: Option<F>,
    _third: Option<F>,
}

/// Opens a file for each of standard input, output and error that is closed, so that no file and no
/// socket of the daemon takes its number while these are held. Writing there fails, as it does
/// where there is none.
pub(crate) fn fill_standard_files<R: Files>(rt: &R) -> StandardFiles<R::File>
where
    R::File: AsRawFd,
{
    StandardFiles {
        _first: open_in_place(rt),
        _second: open_in_place(rt),
        _third: open_in_place(rt),
    }
}

/// Opens a file that stands for a closed standard descriptor, if one is closed.
fn open_in_place<R: Files>(rt: &R) -> Option<R::File>
where
    R::File: AsRawFd,
{
    let file = File::open(rt, "/dev/null").ok()?;
    (file.as_raw_fd() < FIRST_OTHER).then_some(file)
}
