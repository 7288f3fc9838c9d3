//! The limits of a bus, in code and in definitions.

/// The most connections, with those that are monitors.
pub const MAX_CONNECTIONS: usize = 256;

/// The most routers that serve one bus.
pub const MAX_ROUTERS: u8 = 8;

/// The most services that a bus can start.
pub const MAX_SERVICES: usize = 256;

/// The most well-known names that have an owner.
pub const MAX_NAMES: usize = 1024;

/// The most places in all queues, those of the owners included.
pub const MAX_QUEUED: usize = 4096;

/// The most names that one connection owns or waits for.
pub const MAX_NAMES_OF_ONE: usize = 64;

/// The most rules that were added, those of monitors not counted.
pub const MAX_RULES: usize = 4096;

/// The most rules that one connection added.
pub const MAX_RULES_OF_ONE: usize = 256;

/// The most rules of one monitor.
pub const MAX_RULES_OF_MONITOR: usize = 64;

/// The most tickets that wait.
pub const MAX_TICKETS: usize = 512;

/// The most signals that one change brings: a connection that becomes a monitor and had as many
/// names as one may have gives up each, with three signals, and its unique name with two.
pub const MAX_SIGNALS: usize = 194;

/// The last number that a connection, a ticket or a start can have, and the most changes of a
/// history.
pub const MAX_NUMBER: u64 = 9_223_372_036_854_775_808;

/// The most changes of one batch.
pub const MAX_BATCH: usize = 64;
