//! What a request or a release of a name is told.

ghost use Rattle.std.specs.Prelude.{◌≡◌};

/// The answer to RequestName (the first four) or to ReleaseName (the last three).
/// (D-Bus Specification: `org.freedesktop.DBus.RequestName`, `org.freedesktop.DBus.ReleaseName`.)
#[derive(Clone, Copy, Debug, PartialEq, Eq)]
pub enum Reply {
    /// The caller now owns the name.
    PrimaryOwner,
    /// The caller waits for the name.
    InQueue,
    /// The name has an owner, and the caller does not wait for it.
    Exists,
    /// The caller already owned the name.
    AlreadyOwner,
    /// The caller no longer owns the name or waits for it.
    Released,
    /// The name has no owner.
    NonExistent,
    /// The caller neither owned the name nor waited for it.
    NotOwner,
}

impl Reply {
    ghost use Rattle.owner_queues.specs.Replies.{code_of};

    /// The number that stands for the answer in a message.
    pub fn code(self) -> u32
        ensures { result ≡ code_of self }
    {
        match self {
            Reply::PrimaryOwner | Reply::Released => 1,
            Reply::InQueue | Reply::NonExistent => 2,
            Reply::Exists | Reply::NotOwner => 3,
            Reply::AlreadyOwner => 4,
        }
    }
}
