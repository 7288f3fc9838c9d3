//! Messages: cut from a stream and read, looked at, and written again with a sender.

use crate::samples::{HELLO, arguments, many_bytes, strings};
use anyhow::Result;
use arrayvec::ArrayVec;
use bench_core::{Report, Work};
use marshal_core::Order;
use match_rules::{Argument, MessageKind};
use message::{Framer, Header, Message, facts, first_arguments, put_arguments};
use names::{BusName, ConnectionName, Interface, Member, ObjectPath};
use std::alloc::Global;
use std::time::Clock;

pub fn measure<R: Print + Clock>(alloc: Global, report: &Report<'_, R>) -> Result<()> {
    let hello = hello(alloc)?;
    let strings = signal(alloc, "as", &strings(alloc)?)?;
    let arguments = signal(alloc, "ssssssssssssssssssss", &arguments(alloc)?)?;
    let many_bytes = signal(alloc, "ay", &many_bytes(alloc)?)?;
    frame(alloc, report, "messages: frame and read a Hello", HELLO)?;
    frame(
        alloc,
        report,
        "messages: frame and read a signal with 20 strings",
        strings.as_bytes(),
    )?;
    frame(
        alloc,
        report,
        "messages: frame and read a signal with 65,536 bytes",
        many_bytes.as_bytes(),
    )?;
    look(report, "messages: look at a Hello", &hello)?;
    look(
        report,
        "messages: look at a signal with 20 string arguments",
        &arguments,
    )?;
    look(
        report,
        "messages: look at a signal with 65,536 bytes",
        &many_bytes,
    )?;
    relay(
        alloc,
        report,
        "messages: write a Hello with its sender",
        &hello,
    )?;
    relay(
        alloc,
        report,
        "messages: write a signal with 20 strings with its sender",
        &strings,
    )?;
    relay(
        alloc,
        report,
        "messages: write a signal with 65,536 bytes with its sender",
        &many_bytes,
    )?;
    report.tell(&mut Passing {
        name: "messages: frame, read, look at and write a signal with 20 string arguments",
        framer: Framer::new(alloc),
        bytes: arguments.as_bytes(),
        sender: ConnectionName::of(42),
        output: Vec::new(alloc),
    })?;
    Ok(())
}

/// A call of Hello.
fn hello(alloc: Global) -> Result<Message> {
    let header = Header {
        order: Order::Little,
        kind: MessageKind::MethodCall,
        flags: 0,
        serial: 1,
        path: Some(ObjectPath::parse("/org/freedesktop/DBus")?),
        interface: Some(Interface::parse("org.freedesktop.DBus")?),
        member: Some(Member::parse("Hello")?),
        error_name: None,
        reply_serial: None,
        destination: Some(BusName::parse("org.freedesktop.DBus")?),
        sender: None,
    };
    Ok(Message::with_body(alloc, &header, "", &[])?)
}

/// A signal with this body.
fn signal(alloc: Global, signature: &str, body: &[u8]) -> Result<Message> {
    let header = Header {
        order: Order::Little,
        kind: MessageKind::Signal,
        flags: 0,
        serial: 7,
        path: Some(ObjectPath::parse("/org/freedesktop/login1")?),
        interface: Some(Interface::parse("org.freedesktop.login1.Manager")?),
        member: Some(Member::parse("SessionNew")?),
        error_name: None,
        reply_serial: None,
        destination: None,
        sender: None,
    };
    Ok(Message::with_body(alloc, &header, signature, body)?)
}

fn frame<R: Print + Clock>(
    alloc: Global,
    report: &Report<'_, R>,
    name: &'static str,
    bytes: &[u8],
) -> Result<()> {
    report.tell(&mut Framing {
        name,
        framer: Framer::new(alloc),
        bytes,
    })?;
    Ok(())
}

fn look<R: Print + Clock>(
    report: &Report<'_, R>,
    name: &'static str,
    message: &Message,
) -> Result<()> {
    report.tell(&mut Looking { name, message })?;
    Ok(())
}

fn relay<R: Print + Clock>(
    alloc: Global,
    report: &Report<'_, R>,
    name: &'static str,
    message: &Message,
) -> Result<()> {
    report.tell(&mut Relaying {
        name,
        message,
        sender: ConnectionName::of(42),
        output: Vec::new(alloc),
    })?;
    Ok(())
}

#[derive(Drop)]
struct Framing<'a> {
    name: &'static str,
    framer: Framer,
    bytes: &'a [u8],
}

impl Work for Framing<'_> {
    fn name(&self) -> &'static str {
        self.name
    }

    fn once(&mut self, _round: u64) -> u64 {
        if self.framer.feed(self.bytes).is_err() {
            return 0;
        }
        match self.framer.next() {
            Ok(Some(message)) => u64::from(message.serial()).wrapping_add(
                message.body().len() as u64,
            ),
            Ok(None) => 1,
            Err(_) => 2,
        }
    }
}

/// A number that depends on what is seen of a message with these arguments.
fn weight_with(message: &Message, arguments: &[Argument<'_>]) -> u64 {
    let facts = facts(message, arguments);
    let member = facts.member.map_or(0, |name| name.len() as u64);
    let destination = facts.destination.map_or(0, |name| name.len() as u64);
    member
        .wrapping_add(destination)
        .wrapping_add(facts.arguments.len() as u64)
}

/// A number that depends on what is seen of a message, whose arguments are found as a router finds
/// them.
fn weight(message: &Message) -> u64 {
    let mut few = ArrayVec::<Argument<'_>, 8>::new();
    put_arguments(message, &mut few);
    if few.is_full() {
        return weight_with(message, first_arguments(message).as_slice());
    }
    weight_with(message, few.as_slice())
}

#[derive(Drop)]
struct Looking<'a> {
    name: &'static str,
    message: &'a Message,
}

impl Work for Looking<'_> {
    fn name(&self) -> &'static str {
        self.name
    }

    fn once(&mut self, _round: u64) -> u64 {
        weight(self.message)
    }
}

#[derive(Drop)]
struct Relaying<'a> {
    name: &'static str,
    message: &'a Message,
    sender: ConnectionName,
    output: Vec<u8>,
}

impl Work for Relaying<'_> {
    fn name(&self) -> &'static str {
        self.name
    }

    fn once(&mut self, _round: u64) -> u64 {
        self.output.clear();
        match message::relay(self.message, &self.sender, &mut self.output) {
            Ok(()) => self.output.len() as u64,
            Err(_) => 0,
        }
    }
}

/// What a bus does with a message that it passes on.
#[derive(Drop)]
struct Passing<'a> {
    name: &'static str,
    framer: Framer,
    bytes: &'a [u8],
    sender: ConnectionName,
    output: Vec<u8>,
}

impl Work for Passing<'_> {
    fn name(&self) -> &'static str {
        self.name
    }

    fn once(&mut self, _round: u64) -> u64 {
        self.output.clear();
        if self.framer.feed(self.bytes).is_err() {
            return 0;
        }
        let Ok(Some(message)) = self.framer.next() else {
            return 1;
        };
        let weight = weight(&message);
        match message::relay(&message, &self.sender, &mut self.output) {
            Ok(()) => weight.wrapping_add(self.output.len() as u64),
            Err(_) => 2,
        }
    }
}
