//! Who is to be put out.

ghost use Rattle.std.specs.Prelude.{◌≡◌, ◌↔◌, replicate, slice_index_or, IsTrue, None, IfSome};
ghost use Rattle.router_host_core.specs.Carrying.{IsNotedFull, full_at, noted_full, refusal_of};
ghost use Rattle.router_host_core.specs.declared.put_out.TheConstants.{SLOTS};
ghost use Rattle.router_host_core.specs.Sockets.{IsUntold, told_full};

use seq_bus_core::Conn;
use seq_bus_core::limits::MAX_CONNECTIONS;
use std::marker::Model;

/// How many slots a bus has: one for each connection.
pub const SLOTS: usize = MAX_CONNECTIONS;

/// Why a message for a connection was refused.
#[derive(Clone, Copy, Debug, PartialEq, Eq)]
pub enum Refusal {
    /// There was no room for it.
    NoRoom,
    /// There was no memory to have it once more.
    NoMemory,
}

/// A connection that took no more mail.
#[derive(Clone, Copy, Debug, PartialEq, Eq)]
pub struct FullConn {
    pub conn: Conn,
    /// Why the first message that it lacks was refused.
    pub refusal: Refusal,
    /// The engine was told of it.
    pub told: bool,
}

/// The connections that took no more mail, the latest of each slot. They are put no more even once
/// they have left the bus: their routers may have them still.
#[derive(Drop)]
pub struct PutOut {
    conns: [Option<FullConn>; SLOTS],
    /// There may be some that the engine was not told of.
    any_untold: bool,
}

impl Model for PutOut {
    ghost use Rattle.std.specs.Prelude.{◌≡◌, List, Option, length};
    ghost use Rattle.router_host_core.specs.declared.put_out.FullConn.{FullConn};
    ghost use Rattle.router_host_core.specs.declared.put_out.TheConstants.{SLOTS};

    ghost Value = { List (Option FullConn) };

    ghost view = { λ p. p.conns };

    ghost invariant = { λ p. length p.conns ≡ SLOTS };
}

impl PutOut {
    /// Nobody.
    pub fn new() -> PutOut
        ensures { result ≡ replicate SLOTS None }
    {
        PutOut {
            conns: [None; SLOTS],
            any_untold: false,
        }
    }

    /// A connection took no more mail, for this reason.
    pub fn add(&mut self, conn: Conn, refusal: Refusal)
        ensures { self.new ≡ noted_full self.old conn refusal (full_at self.old conn) }
    {
        let slot = usize::from(conn.slot);
        if let Some(Some(noted)) = self.conns.get(slot) {
            if conn.number <= noted.conn.number {
                return;
            }
        }
        if slot < self.conns.len() {
            self.conns[slot] = Some(FullConn {
                conn,
                refusal,
                told: false,
            });
            self.any_untold = true;
        }
    }

    /// Whether the engine was told of all of them.
    pub fn are_told(&self) -> bool {
        !self.any_untold
    }

    /// Whether a connection is among them, or a later one of its slot.
    pub fn contains(&self, conn: Conn) -> bool
        ensures { IsTrue result ↔ IsNotedFull conn self.now }
    {
        match self.conns.get(usize::from(conn.slot)) {
            Some(Some(noted)) => conn.number <= noted.conn.number,
            _ => false,
        }
    }

    /// Why the latest connection of a slot that took no more mail did not, if there was one.
    pub fn refusal(&self, slot: u16) -> Option<Refusal>
        ensures { result ≡ refusal_of (slice_index_or self.now slot None) }
    {
        match self.conns.get(usize::from(slot)) {
            Some(Some(noted)) => Some(noted.refusal),
            _ => None,
        }
    }

    /// One of them that the engine was not told of.
    pub fn first_untold(&mut self) -> Option<Conn>
        ensures untold { IfSome result (λ conn. IsUntold conn self.old) }
        ensures same { self.new ≡ self.old }
    {
        if !self.any_untold {
            return None;
        }
        for slot in 0..SLOTS {
            if let Some(noted) = self.conns[slot] {
                if !noted.told && usize::from(noted.conn.slot) == slot {
                    return Some(noted.conn);
                }
            }
        }
        self.any_untold = false;
        None
    }

    /// The engine was told of a connection.
    pub fn note_told(&mut self, conn: Conn)
        ensures { self.new ≡ told_full self.old conn (full_at self.old conn) }
    {
        let slot = usize::from(conn.slot);
        if let Some(Some(noted)) = self.conns.get(slot) {
            if noted.conn.number == conn.number {
                self.conns[slot] = Some(FullConn {
                    conn: noted.conn,
                    refusal: noted.refusal,
                    told: true,
                });
            }
        }
    }
}
