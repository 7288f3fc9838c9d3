//! Who is let in.

ghost use Rattle.router_laws.specs.Logins.{ClosedArePassedOver, ClosedStayClosed, ComersHaveSaidNothing, EachHasShown, HearingGoesOn, HellosAreOfThoseLetIn, LinesArePassedOver, OthersLeaveItAlone};

use sasl::laws::nobody_is_let_in_unknown;

/// Whatever happens to a router, from the first event on: a connection that is past authentication
/// has shown, by the bytes that came for it, who it is, or nobody asked it.
pub fn each_has_shown_who_it_is()
    ensures { EachHasShown }
{
    nobody_is_let_in_unknown();
}

/// So, whatever happens next: each Hello that a router asks of the bus is of a connection that its
/// bytes have let in, and makes it the bus's own user, who may become a monitor, only where these
/// bytes have shown the right digest, or nobody asked it who it is.
pub fn hellos_are_of_those_let_in()
    ensures { HellosAreOfThoseLetIn }
{
    nobody_is_let_in_unknown();
}

/// What a connection says that is asked who it is is one conversation, however its bytes come: it
/// begins with nothing; bytes go on with it, and let the connection in only by what it has shown in
/// all of them; and no other event does anything to it.
pub fn lines_are_one_conversation()
    ensures first { ComersHaveSaidNothing }
    ensures on { HearingGoesOn }
    ensures others { OthersLeaveItAlone }
{
    nobody_is_let_in_unknown();
}

/// A connection that was closed stays as it is until it is gone, or bytes of it come, which are let
/// go.
pub fn closed_connections_stay_closed()
    ensures { ClosedStayClosed }
{}

/// In a turn, whichever calls of others stand before it, a connection is passed over that says who
/// it is, or that was closed.
pub fn quiet_connections_are_passed_over()
    ensures lines { LinesArePassedOver }
    ensures closed { ClosedArePassedOver }
{}
