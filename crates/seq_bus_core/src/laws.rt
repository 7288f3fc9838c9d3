//! The laws of the bus. Each function does nothing: what it ensures is the law.

ghost use Rattle.seq_bus_core.specs.Changes.{StepsSeeNoMore};
ghost use Rattle.seq_bus_core.specs.Laws.{BatchesAreLegal, BeginningsAreLegal, BusesAreConsistent, BusesAreWhole, BusesAreWithinLimits, NobodyGetsAMessageTwice, NumbersOnlyRise, RecipientsAreNamedOnce, ServicesRise, SettledTicketsAreTold, SignalsGoToEachOnce, StepsKeepConsistency, StepsKeepLimits};

/// A change leaves a consistent state consistent.
pub fn steps_keep_consistency()
    ensures { StepsKeepConsistency }
{}

/// Whatever was changed since it was opened, the state of a bus is consistent.
pub fn buses_are_consistent()
    ensures { BusesAreConsistent }
{}

/// No number of a connection, a ticket or a start is given twice.
pub fn numbers_only_rise()
    ensures { NumbersOnlyRise }
{}

/// What begins a legal history and does not end within a publication is legal.
pub fn beginnings_are_legal()
    ensures { BeginningsAreLegal }
{}

/// A publication of several changes of a seat, which goes on with the seat's numbers, leaves a
/// legal history legal.
pub fn batches_are_legal()
    ensures { BatchesAreLegal }
{}

/// A step does not look at what a ticket carries.
pub fn steps_see_no_more()
    ensures { StepsSeeNoMore }
{}

/// The recipients of a message and the monitors that are shown it are each named once, by rising
/// number.
pub fn recipients_are_named_once()
    ensures { RecipientsAreNamedOnce }
{}

/// So are those of a signal of the bus, and no monitor is shown a signal that goes to it.
pub fn signals_go_to_each_once()
    ensures { SignalsGoToEachOnce }
{}

/// A monitor is shown no message that goes to it, and so nobody gets one message twice.
pub fn nobody_gets_a_message_twice()
    ensures { NobodyGetsAMessageTwice }
{}

/// A change exceeds no limit of the bus.
pub fn steps_keep_limits()
    ensures { StepsKeepLimits }
{}

/// Whatever was changed since it was opened, the limits of a bus hold.
pub fn buses_are_within_limits()
    ensures { BusesAreWithinLimits }
{}

/// A bus has what each of its tickets carries, until the ticket is settled.
pub fn buses_are_whole()
    ensures { BusesAreWhole }
{}

/// A change is told each ticket that it settles, in order, and no other.
pub fn settled_tickets_are_told()
    ensures { SettledTicketsAreTold }
{}

/// The services of a bus are those that it was opened with, by rising bytes.
pub fn services_rise()
    ensures { ServicesRise }
{}
