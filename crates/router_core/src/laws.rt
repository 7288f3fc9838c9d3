//! Laws of the definitions.

ghost use Rattle.std.specs.Prelude.{◌≡◌};
ghost use Rattle.router_core.specs.Changing.{OthersChangeNothing};
ghost use Rattle.router_core.specs.Laws.{ClosedAreNotServed, ClosedHaveNoTurn, ClosedTakeNothing, ClosedGetNoMail, NobodySpeaksBeforeBegin, NobodyHasATurnBeforeBegin, OnlyBeginBegins, UnknownTypesBringNothing, OnlyHelloIsServed, MonitorsSendNothing, ComersHaveTheirKeys, GoneKeysAreFree, AnswersAreLawful, NotesAreOwn, OneThreadIsAFunction, BytesAreAFunction};
ghost use Rattle.router_core.specs.Standing.{next_serial};

use crate::gate::Gate;
use bus_view::BusView;

/// After the greatest serial comes 1.
pub fn serials_begin_again()
    ensures { next_serial 4294967295 ≡ 1 }
{}

/// A connection that was closed brings no more actions: it is not served, in no turn either, its
/// bytes are let go, and no mail is written to it.
#[tactic(auto, using(crate::proofs::FirstMessages::closed_are_not_served, crate::proofs::FirstMessages::closed_have_no_turn, crate::proofs::FirstMessages::closed_take_nothing, crate::proofs::FirstMessages::closed_get_no_mail))]
pub fn closed_connections_are_quiet()
    ensures served { ClosedAreNotServed }
    ensures turn { ClosedHaveNoTurn }
    ensures fed { ClosedTakeNothing }
    ensures mail { ClosedGetNoMail }
{}

/// While a connection says who it is, no message of it is served, in no turn either, and no mail is
/// written to it.
#[tactic(auto, using(crate::proofs::FirstMessages::nobody_speaks_before_begin, crate::proofs::FirstMessages::nobody_has_a_turn_before_begin))]
pub fn nobody_speaks_before_begin()
    ensures served { NobodySpeaksBeforeBegin }
    ensures turn { NobodyHasATurnBeforeBegin }
{}

/// A connection that says who it is goes on to its messages only where its conversation is done,
/// and is the bus's own user's only where it knows the cookie.
pub fn only_begin_begins<V: BusView, G: Gate>()
    ensures { OnlyBeginBegins V.BusView G.Gate }
{}

/// A message of a type that the standard does not define brings nothing.
#[tactic(auto, using(crate::proofs::FirstMessages::unknown_types_bring_nothing))]
pub fn unknown_types_bring_nothing()
    ensures { UnknownTypesBringNothing }
{}

/// A connection that sends anything before the call of Hello is closed for it, and nothing else is
/// done.
#[tactic(auto, using(crate::proofs::FirstMessages::only_hello_is_served))]
pub fn only_hello_is_served<V: BusView, G: Gate>()
    ensures { OnlyHelloIsServed V.BusView G.Gate }
{}

/// A monitor that sends anything is closed for it, and nothing else is done.
#[tactic(auto, using(crate::proofs::FirstMessages::monitors_send_nothing))]
pub fn monitors_send_nothing<V: BusView, G: Gate>()
    ensures { MonitorsSendNothing V.BusView G.Gate }
{}

/// Who comes has its key, and a key is free as soon as its connection is gone. All others keep
/// theirs.
pub fn keys_are_given_back<V: BusView, G: Gate>()
    ensures come { ComersHaveTheirKeys }
    ensures gone { GoneKeysAreFree V.BusView G.Gate }
{}

/// Who comes, the bytes of a connection, and mail ask for no change of the bus, whatever else the
/// bus answers.
#[tactic(auto, using(crate::proofs::Quiet::others_change_nothing))]
pub fn others_change_nothing<V: BusView>()
    ensures { OthersChangeNothing V.BusView }
{}

/// What an event brings is what it brings for some answers that the bus may give.
pub fn answers_are_lawful<V: BusView, G: Gate>()
    ensures { AnswersAreLawful V.BusView G.Gate }
{}

/// An event leaves the view of the registry that it was of, and the notes that its actions carry
/// are of that registry: they may be handed to any other engine over a view of it.
pub fn notes_are_own<V: BusView, G: Gate>()
    ensures { NotesAreOwn V.BusView G.Gate }
{}

/// Over a bus of one thread, where nothing is refused, what an event brings is a function of it.
pub fn one_thread_is_a_function()
    ensures { OneThreadIsAFunction }
{}

/// Over a bus of one thread, where nothing is refused, the bytes that go to each connection are a
/// function of the events, however many there are.
#[tactic(auto, using(crate::proofs::Functions::bytes_are_a_function))]
pub fn bytes_are_a_function()
    ensures { BytesAreAFunction }
{}
