//! The laws of the world. Each function does nothing: what it ensures is the law.

ghost use Rattle.interleave_core.specs.Promises.{EverySchedule, RefusalsCountForNothing};

/// Whatever the seats do, and in whatever order, the bus keeps its promise at each moment.
pub fn every_schedule()
    ensures { EverySchedule }
{}

/// With the refused steps left out, the same happens.
pub fn refusals_count_for_nothing()
    ensures { RefusalsCountForNothing }
{}
