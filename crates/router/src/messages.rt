//! The next message of a connection.

ghost use Rattle.std.specs.Prelude.{◌≡◌, ◌<◌, ◌≤◌, ◌+◌, Some, IfOk, IfSome, OnOk, OnErr};
ghost use Rattle.router_core.specs.declared.limits.TheConstants.{MAX_EFFECTS};
ghost use Rattle.router_core.specs.Events.{next_at};
ghost use Rattle.router_core.specs.Scripts.{RunsTo};
ghost use Rattle.router_core.specs.Standing.{Standing, Named, peer_at, with_peer};
ghost use Rattle.router_steps.specs.Reading.{ComesOfNext};

use crate::routing::serve;
use bus_view::BusView;
use router_core::{CloseCause, Gate};
use router_steps::{Context, HelloCall, Incoming, Peer, Stage};
use seq_bus_core::Conn;
use std::alloc::{AllocError, Global};

/// Serves the next whole message of a connection that has its name, and closes it if there is a
/// cause. A monitor that sends is closed. Without memory nothing changes.
fn serve_next<V: BusView, G: Gate>(
    alloc: Global,
    context: &mut Context<V, G>,
    right: &V::Right,
    key: usize,
    peer: &mut Peer,
    conn: Conn,
) -> Result<(), AllocError>
    requires room { MAX_EFFECTS + 2 < context.old.room }
    requires spare_verdicts { 1 < context.old.spare_verdicts }
    requires named { peer.old.stage ≡ Named conn }
    ensures comes { OnOk result (
        (s : Standing) → peer_at s key ≡ Some peer.old →
        RunsTo V.BusView G.Gate (next_at s key peer.old (Named conn))
        context.old.world (with_peer s key (Some peer.new)) context.new.world) }
    ensures err { OnErr result (peer.new ≡ peer.old) }
    ensures world { OnErr result (context.new.world ≡ context.old.world) }
{
    match peer.take_next()? {
        Incoming::Waits => {}
        Incoming::Faulty(fault) => context.close_peer(key, peer, CloseCause::Faulty(fault)),
        Incoming::Whole(message) => {
            if peer.watches() {
                context.close_peer(key, peer, CloseCause::MonitorSent);
                return Ok(());
            }
            let fate = serve(alloc, context, right, &message, conn);
            context.settle(key, peer, fate);
        }
    }
    Ok(())
}

/// Serves the next whole message of the connection of a key, if there is one. The call of Hello is
/// handed out, as the bus has to give its connection a name; it leaves the room as it was. Without
/// memory nothing changes.
pub(crate) fn next_in<V: BusView, G: Gate>(
    alloc: Global,
    context: &mut Context<V, G>,
    right: &V::Right,
    key: usize,
    peer: &mut Peer,
) -> Result<Option<HelloCall>, AllocError>
    requires room { MAX_EFFECTS + 2 < context.old.room }
    requires spare_verdicts { 1 < context.old.spare_verdicts }
    ensures next { IfOk result (λ call. ComesOfNext V.BusView G.Gate key call (Some peer.old)
        (Some peer.new) context.old.world context.new.world) }
    ensures kept { IfOk result
        (λ call. IfSome call (λ _. (context.new.room ≡ context.old.room) ×
        (context.new.spare_verdicts ≡ context.old.spare_verdicts))) }
    ensures err { OnErr result (peer.new ≡ peer.old) }
    ensures world { OnErr result (context.new.world ≡ context.old.world) }
{
    match peer.stage() {
        Stage::Authenticating(_) | Stage::Closing(_) => Ok(None),
        Stage::Unnamed { privileged } => {
            let privileged = *privileged;
            context.hello_or_close(key, peer, privileged)
        }
        Stage::Named(conn) => {
            let conn = *conn;
            serve_next(alloc, context, right, key, peer, conn)?;
            Ok(None)
        }
    }
}
