//! Calls that wait for a service.

ghost use Rattle.test_rows.specs.ServiceRows.{ServiceFails, ServiceTakesItsName, TicketsOutliveTheirCallers};

/// Three calls wait for a service, and are served in order when it takes its name.
pub fn service_takes_its_name()
    ensures { ServiceTakesItsName }
{}

/// Three calls wait for a service, and fail in order when it exits with a failure.
pub fn service_fails()
    ensures { ServiceFails }
{}

/// Tickets wait on when their callers have gone.
pub fn tickets_outlive_their_callers()
    ensures { TicketsOutliveTheirCallers }
{}
