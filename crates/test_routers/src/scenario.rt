//! What happens to the routers of a test.

use routers::Fault;

/// Which client, by its place in the scenario.
pub(crate) type ClientIndex = usize;

/// What a client sends.
#[derive(Clone, Copy)]
pub(crate) enum ClientMessage {
    Hello,
    AddMatch(&'static str),
    RequestName(&'static str),
    GetNameOwner(&'static str),
    ListNames,
    /// Another call of the bus that takes nothing.
    Calls(&'static str),
    /// Another call of the bus that takes a text.
    CallsWith(&'static str, &'static str),
    /// It wants to be shown all messages.
    BecomeMonitor,
    /// A call of a method that another client has.
    Wind(&'static str),
    /// So many signals, to one client or to all who listen.
    Ticks(Option<&'static str>, u32),
}

/// What is waited for.
#[derive(Clone, Copy)]
pub(crate) enum Condition {
    /// A client received so many messages.
    Received(ClientIndex, u32),
    /// The socket of a client refused bytes.
    IsBlocked(ClientIndex),
    /// So many connections are over.
    Over(u32),
    /// A gate holds a call.
    IsHeld,
    /// Another thread has woken this one.
    IsWoken,
}

/// What happens next to a router.
#[derive(Clone, Copy)]
pub(crate) enum Step {
    /// Nothing, until this holds.
    Awaits(Condition),
    /// A client connects.
    Connects(ClientIndex),
    /// A client connects, and is to say who it is, though nobody may log in.
    IsAsked(ClientIndex),
    /// A client sends something, in one piece.
    Sends(ClientIndex, ClientMessage),
    /// A client sends no more.
    HangsUp(ClientIndex),
    /// The socket of a client takes all bytes from now on.
    TakesAll(ClientIndex),
    /// The time in which who connects is to have a name passes.
    LoginTimePasses,
    /// Nothing, until the router waits for what happens and that time does not run.
    Rests,
    /// The wait for what happens fails.
    Fails(Fault),
    /// Nothing happens any more.
    Ends,
}

/// What becomes of the lines that routers record.
#[derive(Clone, Copy, PartialEq, Eq)]
pub(crate) enum Tracing {
    /// None is recorded.
    Off,
    Kept,
    /// None can be written.
    Refused,
}

/// The routers of a bus and their clients.
#[derive(Clone, Copy)]
pub(crate) struct Scenario {
    /// How many bytes the socket of each client takes.
    pub(crate) rooms: &'static [usize],
    /// What happens to each router.
    pub(crate) steps: &'static [&'static [Step]],
    /// When the main thread stops the bus. Where there is no condition, the routers end by
    /// themselves.
    pub(crate) stops: &'static [Condition],
    /// Whether the second call of seat 1 is held until the third of seat 2.
    pub(crate) holds: bool,
    pub(crate) tracing: Tracing,
}
