//! A message out of a stream, and a match rule that fits it.

ghost use Rattle.std.specs.Prelude.{None};

use marshal_core::Order;
use match_rules::{MessageKind, Owners, Rule};
use message::{Framer, Header, Message, facts, first_arguments};
use names::{Interface, Member, ObjectPath};
use std::alloc::Global;
use std::test::Fail;

/// A signal without arguments.
fn ticked(alloc: Global) -> Result<Message, Fail> {
    let header = Header {
        order: Order::Little,
        kind: MessageKind::Signal,
        flags: 0,
        serial: 1,
        path: Some(ObjectPath::parse("/com/example/Clock")?),
        interface: Some(Interface::parse("com.example.Clock")?),
        member: Some(Member::parse("Ticked")?),
        error_name: None,
        reply_serial: None,
        destination: None,
        sender: None,
    };
    Ok(Message::new(alloc, &header, &[])?)
}

#[test]
fn a_framer_gives_whole_messages(rt: HostRuntime) -> Result<(), Fail> {
    let sent = ticked(rt.alloc())?;
    let mut framer = Framer::new(rt.alloc());
    for piece in sent.as_bytes().chunks(20) {
        framer.feed(piece)?;
    }
    let message = framer.next()?.ok_or("bytes are missing")?;
    assert_eq!(rt; message.member(), Some("Ticked"));
    Ok(())
}

/// A bus on which no name has an owner.
struct Nobody;

impl Owners for Nobody {
    ghost heads = { λ owners name. None };

    fn head(&self, name: &str) -> Option<u64> {
        None
    }
}

#[test]
fn a_rule_fits_a_message(rt: HostRuntime) -> Result<(), Fail> {
    let rule = Rule::parse("type='signal',path_namespace='/com/example'")?;
    let message = ticked(rt.alloc())?;
    let arguments = first_arguments(&message);
    assert!(rt; rule.fits(&facts(&message, arguments.as_slice()), &Nobody));
    Ok(())
}
