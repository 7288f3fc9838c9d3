//! Who gets a message, by what the bus said of it.

ghost use Rattle.std.specs.Prelude.{◌≡◌, ◌↔◌, ◌∷◌, [], IfSome, IsTrue};

use seq_bus_core::{AddressedSignal, Conn, Verdict};

/// The one connection that a message goes to, if it goes to one and no monitor is shown it.
pub fn only_one(verdict: &Verdict) -> Option<Conn>
    ensures { IfSome result (λ conn. (verdict.now.to ≡ conn ∷ []) × (verdict.now.monitors ≡ [])) }
{
    let (conn, rest) = verdict.to.as_slice().split_first()?;
    if !rest.is_empty() {
        return None;
    }
    if !verdict.monitors.as_slice().is_empty() {
        return None;
    }
    Some(*conn)
}

/// Whether a message goes to nobody, and no monitor is shown it.
pub fn is_for_nobody(verdict: &Verdict) -> bool
    ensures { IsTrue result ↔ ((verdict.now.to ≡ []) × (verdict.now.monitors ≡ [])) }
{
    verdict.to.as_slice().is_empty() && verdict.monitors.as_slice().is_empty()
}

/// Whether a signal goes to nobody, and no monitor is shown it.
pub fn is_told_nobody(signal: &AddressedSignal) -> bool
    ensures { IsTrue result ↔ ((signal.now.to ≡ []) × (signal.now.monitors ≡ [])) }
{
    signal.to.as_slice().is_empty() && signal.monitors.as_slice().is_empty()
}

/// It goes to the monitors alone.
pub fn tell_monitors_alone(verdict: &mut Verdict)
    ensures { verdict.new ≡ record verdict.old { to = [] } }
{
    verdict.to.clear();
}

/// It goes to one connection, and to the monitors.
pub fn set_recipient(verdict: &mut Verdict, conn: Conn)
    ensures { verdict.new ≡ record verdict.old { to = conn ∷ [] } }
{
    verdict.to.clear();
    verdict.to.push(conn);
}

/// It goes to no monitors.
pub fn tell_no_monitors(verdict: &mut Verdict)
    ensures { verdict.new ≡ record verdict.old { monitors = [] } }
{
    verdict.monitors.clear();
}
