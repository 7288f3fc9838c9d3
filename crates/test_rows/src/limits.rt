//! Limits.

ghost use Rattle.test_rows.specs.LimitRows.{No65thName};

/// A connection that owns or waits for 64 names gets no other.
pub fn no_65th_name()
    ensures { No65thName }
{}
