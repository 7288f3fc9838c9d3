//! A bus, as far as it is asked who gets a message.

ghost use Rattle.std.specs.Prelude.{◌≡◌, ◌≤◌, [], Some, false, length, option_to_list};
ghost use Rattle.seq_bus_core.specs.BusState.{BusState, head_of, is_client, is_service};
ghost use Rattle.seq_bus_core.specs.Recipients.{all_that_want, conn_at, monitors_shown};
ghost use Rattle.match_rules.specs.Facts.{Facts as Parts};

use match_rules::{Facts, Owners};
use seq_bus_core::{Conn, Recipients};

/// A bus, as far as it is asked who gets a message: as it is, or as it will be once a change is
/// made.
pub trait Audience: Owners {
    ghost use Rattle.std.specs.Prelude.{◌≡◌};

    /// What counts how many rules are looked at.
    type Count;

    /// The state of the bus.
    ghost state: { Self → BusState };

    /// How much is counted for a message.
    ghost spends: { Self → Parts → Self.Count → Self.Count → Type 0 };

    /// Adds the connections that want a message, by rising number.
    fn add_wanting(&self, facts: &Facts<'_>, to: &mut Recipients, count: &mut Self::Count)
        requires { to.old ≡ [] }
        ensures value { to.new ≡ all_that_want (state self.now) facts.now }
        ensures spent { spends self.now facts.now count.old count.new };

    /// Adds the monitors that are shown a message, by rising number.
    fn add_shown(&self, facts: &Facts<'_>, shown: &mut Recipients)
        requires { shown.old ≡ [] }
        ensures value { shown.new ≡ monitors_shown (state self.now) facts.now }
        ensures few { length shown.new ≤ Recipients.MAX };

    /// Whether a monitor may be shown a message. Where it says no, none is shown any.
    fn has_monitors(&self) -> bool
        ensures { result ≡ false → (facts : Parts) → monitors_shown (state self.now) facts ≡ [] };

    /// Whether a connection may want a message. Where it says no, none wants any.
    fn has_rules(&self) -> bool
        ensures { result ≡ false → (facts : Parts) → all_that_want (state self.now) facts ≡ [] };

    /// The connection of a number, if it is there.
    fn conn(&self, number: u64) -> Option<Conn>
        ensures { option_to_list result ≡ conn_at (state self.now) (Some number) };

    /// Whether there is a connection of this number that is no monitor.
    fn is_client(&self, number: u64) -> bool
        ensures { result ≡ is_client (state self.now).connections number };

    /// Whether a name is that of a service.
    fn is_service(&self, name: &str) -> bool
        ensures { result ≡ is_service (state self.now) name.now };

    /// The heads of its names are those of its state.
    ghost owns: { (x : Self) → Self.heads x ≡ head_of (state x) };
}
