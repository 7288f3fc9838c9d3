//! The lines of a trace's head.

ghost use Rattle.std.specs.Prelude.{◌≡◌, option_map, Some, None, if◌then◌else◌};
ghost use Rattle.trace_words.specs.Cutting.{parts_left};
ghost use Rattle.trace_lines.specs.Heads.{profile_of, routers_from, routers_of, service_from, service_of, is_service_name};

use names::{BusName, WellKnown};
use owner_queues::Profile;
use seq_bus_core::limits::MAX_ROUTERS;
use trace_words::{Parts, number};

/// Reads the first line of a trace: the profile of its queues.
pub fn read_profile(line: &str) -> Option<Profile>
    ensures { result ≡ profile_of line.now }
{
    if line == "dbus-trace 1" {
        return Some(Profile::One);
    }
    if line == "dbus-trace 2" {
        return Some(Profile::Two);
    }
    None
}

fn routers(mut words: Parts<'_>) -> Option<u64>
    ensures { result ≡ routers_from (parts_left words.entry) }
{
    let word = words.take()?;
    let count = words.take()?;
    if words.take().is_some() {
        return None;
    }
    if word != "routers" {
        return None;
    }
    let count = number(count)?;
    if count >= 1 && count <= u64::from(MAX_ROUTERS) {
        Some(count)
    } else {
        None
    }
}

/// Reads the second line of a trace: the number of routers, 1 to 8.
pub fn read_routers(line: &str) -> Option<u64>
    ensures { result ≡ routers_of line.now }
{
    routers(Parts::of(line, ' '))
}

/// A well-known name that is not the bus's.
fn service_name(name: &str) -> Option<WellKnown>
    ensures { option_map (λ n. n) result
        ≡ (if is_service_name name.now then Some name.now else None) }
{
    let name = WellKnown::parse(name).ok()?;
    if BusName::from(name).is_bus() {
        None
    } else {
        Some(name)
    }
}

fn service(mut words: Parts<'_>) -> Option<WellKnown>
    ensures { option_map (λ n. n) result ≡ service_from (parts_left words.entry) }
{
    let word = words.take()?;
    let name = words.take()?;
    if words.take().is_some() {
        return None;
    }
    if word != "service" {
        return None;
    }
    service_name(name)
}

/// Reads a line of a trace's head behind the second: a service.
pub fn read_service(line: &str) -> Option<WellKnown>
    ensures { option_map (λ n. n) result ≡ service_of line.now }
{
    service(Parts::of(line, ' '))
}
