//! Laws of the definitions, each a function whose contract is the law.

ghost use Rattle.monitor.specs.Laws.{ShownAreThoseOfTheBus};

/// A table of the monitors of a bus shows a message to just those that the bus shows it.
pub fn shown_are_those_of_the_bus()
    ensures { ShownAreThoseOfTheBus }
{}
