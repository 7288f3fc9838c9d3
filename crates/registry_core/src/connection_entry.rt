//! Connections in a table.

ghost use Rattle.std.specs.Prelude.{◌≡◌, ◌==◌, ◌↔◌, ◌<◌, ◌≤◌, ◌^◌, ℕ, Some, length, take, drop};
ghost use Rattle.std.specs.List.{AllByRecursion, position};
ghost use Rattle.names.specs.UniqueName.{unique_text};
ghost use Rattle.registry_core.specs.Listening.{Rising};

use names::UniqueName;
use seq_bus_core::Conn;

/// A connection of a bus.
#[derive(Clone, Copy)]
pub struct ConnectionEntry {
    pub conn: Conn,
    /// Whether it proved to be its user's.
    pub privileged: bool,
    /// Whether it is a monitor.
    pub is_monitor: bool,
}

/// The place of the connection of a number, where connections stand by rising number.
pub fn find_place(entries: &[ConnectionEntry], number: u64) -> Option<usize>
    requires { Rising entries.now }
    ensures { result ≡ position (λ m. m.conn.number == number) entries.now }
{
    let place = place_among(entries, number);
    match entries.get(place) {
        Some(entry) => {
            if entry.conn.number == number {
                Some(place)
            } else {
                None
            }
        }
        None => None,
    }
}

/// How many connections come before that of a number.
fn place_among(entries: &[ConnectionEntry], number: u64) -> usize
    requires { Rising entries.now }
    ensures bound { result ≤ length entries.now }
    ensures before { AllByRecursion (λ m. m.conn.number < number) (take result entries.now) }
    ensures behind { AllByRecursion (λ m. number ≤ m.conn.number) (drop result entries.now) }
{
    entries.partition_point(|entry| entry.conn.number < number)
}

/// The number of the connection that has this name, if there ever is one.
pub fn number_of(name: &str) -> Option<u64>
    ensures { (number : ℕ) → number < 2 ^ 64 → (result ≡ Some number)
        ↔ (name.now ≡ unique_text number) }
{
    UniqueName::number_in(name)
}
