//! Where the fields of a header stand.

/// Where a field of a header stands in the bytes of its message: its code, and the bytes from its
/// code to its end.
#[derive(Clone, Copy, Debug)]
pub struct FieldPlace {
    pub code: u8,
    pub from: usize,
    pub to: usize,
}
