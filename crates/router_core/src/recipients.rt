//! Who a message is put to.

ghost use Rattle.std.specs.Prelude.{◌≡◌, [], ◌∷◌, IfSome};

use seq_bus_core::{Conn, Listeners, Verdict};
use std::marker::Model;

/// Those that a message is put to, each once. For one of them it takes no memory; several stand in
/// the verdict that the bus told, those of a signal in lists of the signal's own.
#[derive(Debug, Drop)]
pub struct Addressees {
    held: Held,
}

#[derive(Debug, Drop)]
enum Held {
    One(Conn),
    Shown(Box<Verdict>),
    OfSignal { to: Listeners, monitors: Listeners },
}

impl Model for Addressees {
    ghost use Rattle.router_core.specs.Addressed.{Addressed, addressees_of};

    ghost Value = { Addressed };

    ghost view = { λ a. addressees_of a.held };
}

impl Addressees {
    /// One connection.
    pub fn one(conn: Conn) -> Self
        ensures { result ≡ record { to = conn ∷ []; monitors = [] } }
    {
        Addressees {
            held: Held::One(conn),
        }
    }

    /// The recipients of a verdict, and the monitors that are shown the message. A monitor that is
    /// a recipient gets it once.
    pub fn shown(verdict: Box<Verdict>) -> Self
        ensures { result ≡ record { to = verdict.value.to; monitors = verdict.value.monitors } }
    {
        Addressees {
            held: Held::Shown(verdict),
        }
    }

    /// Those that a signal goes to, and the monitors that are shown it.
    pub fn of_signal(to: Listeners, monitors: Listeners) -> Self
        ensures { result ≡ record { to = to; monitors = monitors } }
    {
        Addressees {
            held: Held::OfSignal { to, monitors },
        }
    }

    /// The verdict in which several stand. It is large, and may be told anew.
    pub fn into_verdict(self) -> Option<Box<Verdict>>
        ensures to { IfSome result (λ verdict. verdict.value.to ≡ self.to) }
        ensures monitors { IfSome result (λ verdict. verdict.value.monitors ≡ self.monitors) }
    {
        match self.held {
            Held::One(_) | Held::OfSignal { to: _, monitors: _ } => None,
            Held::Shown(verdict) => Some(verdict),
        }
    }

    /// The recipients, in order.
    pub fn to(&self) -> &[Conn]
        ensures { result.now ≡ self.now.to }
    {
        match &self.held {
            Held::One(conn) => std::slice::from_ref(conn),
            Held::Shown(verdict) => verdict.to.as_slice(),
            Held::OfSignal { to, monitors: _ } => to.as_slice(),
        }
    }

    /// The monitors, in order. It is put to those of them that are no recipients.
    pub fn monitors(&self) -> &[Conn]
        ensures { result.now ≡ self.now.monitors }
    {
        match &self.held {
            Held::One(_) => &[],
            Held::Shown(verdict) => verdict.monitors.as_slice(),
            Held::OfSignal { to: _, monitors } => monitors.as_slice(),
        }
    }
}
