//! The names of the errors of the bus, and the texts that they carry.

ghost use Rattle.std.specs.Prelude.{◌≡◌};
ghost use Rattle.driver.specs.Errors.{error_name, error_text};

use seq_bus_core::ErrorKind;

/// The name of an error ("Error names" and "Message Bus Messages" of the D-Bus Specification).
pub fn error_name(kind: ErrorKind) -> &'static str
    ensures { result.now ≡ error_name kind }
{
    match kind {
        ErrorKind::Failed => "org.freedesktop.DBus.Error.Failed",
        ErrorKind::NoMemory => "org.freedesktop.DBus.Error.NoMemory",
        ErrorKind::LimitsExceeded => "org.freedesktop.DBus.Error.LimitsExceeded",
        ErrorKind::AccessDenied => "org.freedesktop.DBus.Error.AccessDenied",
        ErrorKind::InvalidArgs => "org.freedesktop.DBus.Error.InvalidArgs",
        ErrorKind::UnknownMethod => "org.freedesktop.DBus.Error.UnknownMethod",
        ErrorKind::UnknownInterface => "org.freedesktop.DBus.Error.UnknownInterface",
        ErrorKind::ServiceUnknown => "org.freedesktop.DBus.Error.ServiceUnknown",
        ErrorKind::NameHasNoOwner => "org.freedesktop.DBus.Error.NameHasNoOwner",
        ErrorKind::MatchRuleInvalid => "org.freedesktop.DBus.Error.MatchRuleInvalid",
        ErrorKind::MatchRuleNotFound => "org.freedesktop.DBus.Error.MatchRuleNotFound",
        ErrorKind::TimedOut => "org.freedesktop.DBus.Error.TimedOut",
        ErrorKind::ExecFailed => "org.freedesktop.DBus.Error.Spawn.ExecFailed",
        ErrorKind::ChildExited => "org.freedesktop.DBus.Error.Spawn.ChildExited",
        ErrorKind::ChildSignaled => "org.freedesktop.DBus.Error.Spawn.ChildSignaled",
    }
}

/// The text that an error carries, which is this bus's own.
pub fn error_text(kind: ErrorKind) -> &'static str
    ensures { result.now ≡ error_text kind }
{
    match kind {
        ErrorKind::Failed => "Not possible here",
        ErrorKind::NoMemory => "Out of memory",
        ErrorKind::LimitsExceeded => "A limit of the bus is reached",
        ErrorKind::AccessDenied => "Not allowed",
        ErrorKind::InvalidArgs => "Invalid arguments",
        ErrorKind::UnknownMethod => "No such method",
        ErrorKind::UnknownInterface => "No such interface",
        ErrorKind::ServiceUnknown => "The name has no owner and no service",
        ErrorKind::NameHasNoOwner => "The name has no owner",
        ErrorKind::MatchRuleInvalid => "Invalid match rule",
        ErrorKind::MatchRuleNotFound => "No such match rule",
        ErrorKind::TimedOut => "The service did not take its name in time",
        ErrorKind::ExecFailed => "The service could not be run",
        ErrorKind::ChildExited => "The service exited with a failure",
        ErrorKind::ChildSignaled => "The service was killed",
    }
}
