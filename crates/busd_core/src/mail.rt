//! Messages that are put, as they come back as mail.

ghost use Rattle.std.specs.Prelude.{◌≡◌};
ghost use Rattle.outbox_core.specs.Contents.{said_of};
ghost use Rattle.outbox_core.specs.Deliveries.{deliveries_of};
ghost use Rattle.busd_core.specs.Happenings.{mail_to, mail_to_all, mail_of, mails_of};
ghost use Rattle.busd_core.specs.Parts.{DeliversBy};

use crate::carrying::{Endpoint, dispatch};
use crate::run_fault::RunFault;
use bus_view::BusView;
use outbox_core::{Content, Deliveries, Envelope};
use router::Engine;
use router_core::{Action, Event, Gate};
use seq_bus_core::Conn;
use std::io::Write;

/// Brings a message to a connection, if it is one of the same router.
fn deliver_to<V: BusView, G: Gate, W: Write>(
    engine: &mut Engine<V, G>,
    right: &V::Right,
    endpoint: Endpoint,
    conn: Conn,
    content: &Content,
    writer: &mut W,
) -> Result<(), RunFault>
    ensures { DeliversBy V.BusView G.Gate endpoint.seat endpoint.key engine.old
        (mail_to endpoint.seat (said_of content.now) conn) (W.contents writer.old)
        (W.contents writer.new) engine.new result }
{
    if conn.router != endpoint.seat {
        return Ok(());
    }
    let Ok(content) = content.try_clone() else {
        return Err(RunFault::Memory);
    };
    let envelope = Envelope {
        number: conn.number,
        note: None,
        content,
    };
    let mail = Event::Mail {
        slot: conn.slot,
        envelope,
    };
    let actions = dispatch(engine, right, endpoint.key, mail, writer)?;
    engine.give_back(actions);
    Ok(())
}

/// Brings a message to the monitors that are none of its recipients, and then to these.
fn deliver<V: BusView, G: Gate, W: Write>(
    engine: &mut Engine<V, G>,
    right: &V::Right,
    endpoint: Endpoint,
    to: &[Conn],
    monitors: &[Conn],
    content: &Content,
    writer: &mut W,
) -> Result<(), RunFault>
    ensures { DeliversBy V.BusView G.Gate endpoint.seat endpoint.key engine.old
        (mail_to_all endpoint.seat (said_of content.now) (deliveries_of to.now monitors.now))
        (W.contents writer.old) (W.contents writer.new) engine.new result }
{
    for conn in Deliveries::new(to, monitors) {
        deliver_to(engine, right, endpoint, conn, content, writer)?;
    }
    Ok(())
}

/// Brings what an action puts.
fn deliver_one<V: BusView, G: Gate, W: Write>(
    engine: &mut Engine<V, G>,
    right: &V::Right,
    endpoint: Endpoint,
    action: &Action<V::Note>,
    writer: &mut W,
) -> Result<(), RunFault>
    ensures { DeliversBy V.BusView G.Gate endpoint.seat endpoint.key engine.old
        (mail_of endpoint.seat action.now) (W.contents writer.old) (W.contents writer.new)
        engine.new result }
{
    match action {
        Action::Put {
            to,
            note: _,
            content,
        } => deliver(
            engine,
            right,
            endpoint,
            to.to(),
            to.monitors(),
            content,
            writer,
        ),
        _ => Ok(()),
    }
}

/// Brings what the actions put, in order.
pub fn deliver_all<V: BusView, G: Gate, W: Write>(
    engine: &mut Engine<V, G>,
    right: &V::Right,
    endpoint: Endpoint,
    actions: &[Action<V::Note>],
    writer: &mut W,
) -> Result<(), RunFault>
    ensures { DeliversBy V.BusView G.Gate endpoint.seat endpoint.key engine.old
        (mails_of endpoint.seat actions.now) (W.contents writer.old) (W.contents writer.new)
        engine.new result }
{
    for action in actions {
        deliver_one(engine, right, endpoint, action, writer)?;
    }
    Ok(())
}
