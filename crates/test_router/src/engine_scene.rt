//! An engine of a plain bus, which no host serves: which connection has which key, slot and number,
//! and what each event brings.
//!
//! A connection stands as its key. What is put waits as mail until a row brings it.
//!
//! - `engine [SERVICE..]`: the bus has these services.
//! - `opens K [asked]`: a connection comes, and may be asked who it is. `hello K`, `sends K BYTES`:
//!   it sends the call of Hello with serial 1, or bytes. `calls K SERIAL MEMBER ..`, `says K TYPE
//!   SERIAL ..`: it sends a call to the bus, or any message, as [`scene`](crate::scene) has them.
//!   `serves K`: its next message is served. `turn K..`: the next messages of these are served, of
//!   each as many as it stands there. `leaves K`: it is gone.
//! - `ends START SERVICE exit STATUS`, or `killed`, `exec` or `timeout` for the last two words: a
//!   start of a service ended so.
//! - `mail`: the oldest mail comes. `fills N`: connection number N takes no more mail. `tick`: time
//!   passes.
//! - `next`: the key of the next connection. `free K`: whether that is K. `ready K`: whether K has
//!   something to be served. `number K`: its number. `slot N`: the key of the connection that has
//!   this slot. `unnamed`: how many have no name.
//! - `comers N`: so many come and go, one after the other; tells how many had the key 0.
//! - `run`: all that has happened is run once more as a list of events; tells the bytes that go to
//!   each connection, or why it ends early.
//! - `to N.. monitors N..`: who a message is put to. `fault`: what is said of a run without memory.
//! - `N times ROW`: the row is done so many times.
//!
//! Of what is written the message is told; of what is put, whom it is for, and what rules see of it
//! where it is the bus's own.

ghost use Rattle.std.specs.Prelude.{IsTrue};
ghost use Rattle.router_core.specs.Acts.{CanHappen};

use crate::happening::{event_of, mail};
use crate::journal::Journal;
use crate::shown::{put_bytes, put_own};
use crate::words::Words;
use anyhow::{Context, Result, bail, ensure};
use bus_view::can_open;
use names::WellKnown;
use outbox_core::{Content, Deliveries};
use owner_queues::Profile;
use router::Engine;
use router_core::{Action, Addressees, Event, OpenGate};
use router_laws::{EventFault, run};
use seq_bus::SeqBus;
use seq_bus_core::limits::MAX_BATCH;
use seq_bus_core::{Conn, Recipients, Verdict};
use std::alloc::{AllocError, Global};
use std::collections::VecDeque;
use std::mem;
use test_support::Escaped;

type Plain = Engine<SeqBus, OpenGate>;

/// The services that the rows of a scenario name.
fn services(alloc: Global, rows: &[String]) -> Result<Vec<WellKnown>> {
    let mut services = Vec::new(alloc);
    for row in rows {
        if let Some(names) = row.strip_prefix("engine ") {
            for name in names.split(' ') {
                let name = WellKnown::parse(name).ok();
                services.push(name.context("no name of a service")?)?;
            }
        }
    }
    Ok(services)
}

/// A plain bus with these services, for one router.
fn bus(alloc: Global, services: &[WellKnown]) -> Result<SeqBus> {
    if !can_open(services, 1) {
        bail!("no bus can be opened");
    }
    Ok(SeqBus::new(alloc, services, 1, Profile::Two)?)
}

/// Whether an event can happen to an engine: a connection comes with the key that is the next.
/// Mail brings no note here.
fn can_happen(engine: &Plain, event: &Event<()>) -> bool
    ensures { IsTrue result
        → CanHappen (λ _. 0) engine.now event.now }
{
    match event {
        Event::Opened {
            key,
            challenge: None,
        } => *key == engine.free_key(),
        Event::Opened {
            key: _,
            challenge: Some(_),
        } => false,
        Event::Mail { slot: _, envelope } => envelope.note.is_none(),
        Event::Turn { keys } => !keys.is_empty() && keys.len() <= MAX_BATCH,
        _ => true,
    }
}

/// A message on its way to a connection.
#[derive(Drop)]
struct Letter {
    to: Conn,
    content: Content,
}

/// An engine, what it put, and all that happened to it.
#[derive(Drop)]
struct EngineScene {
    alloc: Global,
    services: Vec<WellKnown>,
    engine: Plain,
    letters: VecDeque<Letter>,
    events: Vec<Event<()>>,
}

/// The answers to the rows of a scenario, a line to each.
pub fn play(alloc: Global, rows: &[String]) -> Result<String> {
    let services = services(alloc, rows)?;
    let mut scene = EngineScene {
        alloc,
        engine: Engine::new(alloc, bus(alloc, &services)?, OpenGate, None)?,
        services,
        letters: VecDeque::new(alloc),
        events: Vec::new(alloc),
    };
    let answers = scene.answer_all(rows);
    drop(scene);
    answers
}

fn put_numbers(conns: &[Conn], text: &mut String) -> Result<()> {
    for conn in conns {
        write!(text, " {}", conn.number)?;
    }
    Ok(())
}

/// Those that a message is put to.
fn put_addressees(to: &[Conn], monitors: &[Conn], text: &mut String) -> Result<()> {
    write!(text, "to")?;
    put_numbers(to, text)?;
    if !monitors.is_empty() {
        write!(text, " monitors")?;
        put_numbers(monitors, text)?;
    }
    Ok(())
}

/// One more, if there is room.
fn add(recipients: &mut Recipients, conn: Conn) {
    if recipients.as_slice().len() < Recipients::MAX {
        recipients.push(conn);
    }
}

/// `N.. monitors N..`: those that a message is put to.
fn addressees(alloc: Global, mut words: Words<'_>) -> Result<Addressees, AllocError> {
    let Ok(mut verdict) = Box::new(alloc, Verdict::new()) else {
        return Err(AllocError);
    };
    let mut is_monitor = false;
    for _word in 0..words.rest.len() {
        match words.next() {
            "" => break,
            "monitors" => is_monitor = true,
            number => {
                let conn = Conn {
                    number: number.parse().unwrap_or(0),
                    slot: 0,
                    router: 1,
                };
                if is_monitor {
                    add(&mut verdict.monitors, conn);
                } else {
                    add(&mut verdict.to, conn);
                }
            }
        }
    }
    Ok(Addressees::shown(verdict))
}

impl EngineScene {
    /// What the rows bring, a line to each.
    fn answer_all(&mut self, rows: &[String]) -> Result<String> {
        let mut answers = String::new(self.alloc);
        for row in rows {
            self.answer(row.as_str(), &mut answers)?;
        }
        Ok(answers)
    }

    /// Writes what a row brings. Empty ones and headings stand as they are.
    fn answer(&mut self, row: &str, answers: &mut String) -> Result<()> {
        if row.is_empty() || row.starts_with('#') {
            writeln!(answers, "{row}")?;
            return Ok(());
        }
        let mut journal = Journal::new(self.alloc);
        let (count, row) = row.split_once(" times ").unwrap_or(("1", row));
        for _time in 0..count.parse::<u32>()? {
            self.act(row, &mut journal)?;
        }
        if journal.text.is_empty() {
            journal.begin("-")?;
        }
        writeln!(answers, "{}", journal.text)?;
        Ok(())
    }

    /// Does what a row asks.
    fn act(&mut self, row: &str, journal: &mut Journal) -> Result<()> {
        let mut words = Words::of(row);
        match words.next() {
            "engine" => Ok(()),
            "mail" => self.dispatch_mail(journal),
            "comers" => self.come(words.number(), journal),
            "run" => self.run(journal),
            "to" => {
                journal.begin("")?;
                let to = addressees(self.alloc, words)?;
                put_addressees(to.to(), to.monitors(), &mut journal.text)
            }
            "fault" => {
                write!(journal.text, "{}", EventFault::from(AllocError))?;
                Ok(())
            }
            "next" | "free" | "ready" | "number" | "slot" | "unnamed" => self.tell(row, journal),
            _ => self.happen(row, journal),
        }
    }

    /// Tells what a row asks of the engine.
    fn tell(&self, row: &str, journal: &mut Journal) -> Result<()> {
        let mut words = Words::of(row);
        let asked = words.next();
        let number = words.number();
        let key = number as usize;
        let found = match asked {
            "next" => Some(self.engine.free_key() as u64),
            "number" => self.engine.number_of(key),
            "slot" => match self.engine.key_of(u16::try_from(number)?) {
                Some(key) => Some(key as u64),
                None => None,
            },
            "free" => Some(u64::from(key == self.engine.free_key())),
            "ready" => Some(u64::from(self.engine.has_next(key))),
            _ => Some(self.engine.unnamed() as u64),
        };
        match found {
            Some(number) => write!(journal.text, "{number}")?,
            None => write!(journal.text, "none")?,
        }
        Ok(())
    }

    /// What a row says happens, where it can, and is noted.
    fn happen(&mut self, row: &str, journal: &mut Journal) -> Result<()> {
        self.events.push(event_of(self.alloc, row)?)?;
        let event = event_of(self.alloc, row)?;
        self.dispatch(event, journal)
    }

    /// The oldest mail comes, and is noted.
    fn dispatch_mail(&mut self, journal: &mut Journal) -> Result<()> {
        let Some(letter) = self.letters.pop_front() else {
            bail!("there is no mail");
        };
        self.events
            .push(mail(letter.to, Some(()), &letter.content)?)?;
        self.dispatch(mail(letter.to, None, &letter.content)?, journal)
    }

    /// An event happens, where it can.
    fn dispatch(&mut self, event: Event<()>, journal: &mut Journal) -> Result<()> {
        let mut event = event;
        let brought = self.serve(&mut event, journal);
        drop(event);
        brought
    }

    fn serve(&mut self, event: &mut Event<()>, journal: &mut Journal) -> Result<()> {
        if !can_happen(&self.engine, event) {
            journal.begin("can't happen")?;
            return Ok(());
        }
        let actions = self.engine.event(&(), event)?;
        let taken = self.take_all(&actions, journal);
        self.engine.give_back(actions);
        taken
    }

    fn take_all(&mut self, actions: &[Action<()>], journal: &mut Journal) -> Result<()> {
        for action in actions {
            self.take(action, journal)?;
        }
        Ok(())
    }

    /// Tells an action. What is put waits as mail.
    fn take(&mut self, action: &Action<()>, journal: &mut Journal) -> Result<()> {
        match action {
            Action::Write { key, bytes } => {
                journal.begin("write")?;
                write!(journal.text, " {key}: ")?;
                put_bytes(self.alloc, bytes.as_slice(), &mut journal.text)
            }
            Action::Put {
                to,
                note: _,
                content,
            } => self.put(to.to(), to.monitors(), content, journal),
            Action::Close { key, cause } => {
                journal.begin("close")?;
                write!(journal.text, " {key}: {cause}")?;
                Ok(())
            }
            Action::Run { name, start } => {
                journal.begin("run")?;
                write!(journal.text, " {} {start}", name.as_str())?;
                Ok(())
            }
        }
    }

    /// Tells what is put, and to whom. It waits as mail.
    fn put(
        &mut self,
        to: &[Conn],
        monitors: &[Conn],
        content: &Content,
        journal: &mut Journal,
    ) -> Result<()> {
        let mut others: Vec<Conn> = Deliveries::new(to, monitors).collect(self.alloc)?;
        others.truncate(others.len().saturating_sub(to.len()));
        if to.is_empty() && others.is_empty() {
            return Ok(());
        }
        journal.begin("put ")?;
        put_addressees(to, &others, &mut journal.text)?;
        write!(journal.text, ": ")?;
        match content {
            Content::Relayed(bytes) => {
                put_bytes(self.alloc, bytes.as_slice(), &mut journal.text)?;
            }
            Content::Own(message) => put_own(message, &mut journal.text)?,
        }
        for conn in Deliveries::new(to, monitors) {
            self.letters.push_back(Letter {
                to: conn,
                content: content.try_clone()?,
            })?;
        }
        Ok(())
    }

    /// So many connections come and go. Tells how many of them had the key 0.
    fn come(&mut self, count: u32, journal: &mut Journal) -> Result<()> {
        let mut same = 0u32;
        for _comer in 0..count {
            let key = self.engine.free_key();
            if key == 0 {
                same = same.saturating_add(1);
            }
            let mut comes = Event::Opened {
                key,
                challenge: None,
            };
            self.engine.event(&(), &mut comes)?;
            self.engine.event(&(), &mut Event::Closed { key })?;
        }
        write!(journal.text, "{same}")?;
        Ok(())
    }

    /// Runs all that has happened once more.
    fn run(&mut self, journal: &mut Journal) -> Result<()> {
        let bus = bus(self.alloc, &self.services)?;
        let events = mem::replace(&mut self.events, Vec::new(self.alloc));
        match run(self.alloc, bus, OpenGate, None, events) {
            Ok(outputs) => {
                for (place, bytes) in outputs.iter().enumerate() {
                    journal.begin("")?;
                    write!(journal.text, "{place}: {}", Escaped(bytes.as_slice()))?;
                }
            }
            Err(fault) => {
                ensure!(fault != EventFault::NoMemory, "out of memory");
                write!(journal.text, "{fault}")?;
            }
        }
        Ok(())
    }
}
