//! The stage on which a scenario is played: the routers of a bus, and their clients.
//!
//! A client stands as its name. Each row is done to its end: until no router has anything left to
//! do.
//!
//! - `open A [at N] [asked]`: a client comes to router N, which is 1 where none is named, and may
//!   be asked who it is.
//! - `crowd N [at N]`: so many come and send nothing. `crowd N [at N] hello`: so many come and say
//!   Hello, and that is told how many are answered a reply. What comes to them later is not told,
//!   but for the end of a connection.
//! - `A hello`: it sends the call of Hello with serial 1.
//! - `A calls SERIAL MEMBER [SIGNATURE ARGUMENT..]`: it calls a method of the bus. An array of
//!   texts is written as their count and they.
//! - `A sends TYPE SERIAL [FIELD VALUE ..] [args SIGNATURE ARGUMENT..]`: it sends any message;
//!   fields are `path`, `interface`, `member`, `name` (of an error), `to`, `from`, `answers` (a
//!   serial), `flags`, and `order big`.
//! - `A writes BYTES`: it sends bytes, written as in Rust's literals.
//! - `A repeats N ..`: it sends so many of a message at once; behind the number stands what it sends
//!   as above.
//! - `A takes N`, `A takes all`: its socket takes so many bytes more. `A fails after N`: behind so
//!   many it can't be written any more; `A hangs up after N`: since the other side hung up.
//! - `A ends`: it sends no more. `A breaks`: its socket can't be read any more.
//! - `tick`: time passes. `late`: the time in which who connects is to have a name passes.
//! - `refused SLOT`: tells each router that refused the client of this slot a message, and why.
//! - `N times ROW`: the row is done so many times.
//! - `show bytes`, `show words`: what comes from now on is told so.

ghost use Rattle.std.specs.Prelude.{◌≡◌};

use crate::client::Client;
use crate::happening::CHALLENGE;
use crate::journal::Journal;
use crate::scenario::{Pieces, Scenario};
use crate::script::{Beyond, Script, Wire};
use crate::sent;
use crate::watch::Findings;
use crate::words::Words;
use anyhow::{Context, Result, bail};
use bus_view::BusView;
use router::{Engine, Login};
use router_core::Gate;
use router_host::{Ended, Host, Post, Refusal};
use std::alloc::{AllocError, Global};
use std::cell::RefCell;
use std::rc::Rc;
use test_support::messages::HELLO;
use test_support::unescaped;

/// How many turns the routers take at most until they have nothing left to do.
const MOST_TURNS: usize = 10_000;

/// How many places for connections a bus has.
const PLACES: usize = 256;

/// A router of a stage.
pub type StageHost<V, G, P> = Host<V, G, P, Script>;

/// The connections of a router: the first of its places, and how many it has.
#[derive(Clone, Copy)]
pub struct Places {
    pub first: u16,
    pub count: u16,
}

/// A router over a view, by whose login connections are let in.
pub fn host<V: BusView + Drop, G: Gate + Drop, P: Post<V>>(
    alloc: Global,
    view: V,
    gate: G,
    login: Result<Option<Login>, AllocError>,
    post: P,
    places: Places,
) -> Result<StageHost<V, G, P>, AllocError>
    requires { P.registry post ≡ (V.knows view).registry }
{
    let engine = Engine::new(alloc, view, gate, login?)?;
    Host::new(alloc, engine, post, places.first, places.count)
}

/// One more router, where it could be made.
pub fn add<T: Drop>(hosts: &mut Vec<T>, host: Result<T, AllocError>) -> Result<(), AllocError> {
    match hosts.push(host?) {
        Ok(()) => Ok(()),
        Err(_) => Err(AllocError),
    }
}

/// The routers of a bus and their clients.
#[derive(Drop)]
pub struct Scene<V: BusView, G: Gate, P: Post<V>> {
    alloc: Global,
    hosts: Vec<StageHost<V, G, P>>,
    clients: Vec<Client>,
    findings: Findings,
    pieces: Pieces,
    /// What comes is told as bytes.
    shows_bytes: bool,
}

/// The answers to the rows of a scenario, a line to each.
pub fn play<V: BusView + Drop, G: Gate + Drop, P: Post<V>>(
    alloc: Global,
    hosts: Vec<StageHost<V, G, P>>,
    findings: Findings,
    right: &V::Right,
    scenario: Scenario<'_>,
) -> Result<String> {
    let mut scene = Scene {
        alloc,
        hosts,
        clients: Vec::new(alloc),
        findings,
        pieces: scenario.pieces,
        shows_bytes: false,
    };
    let answers = scene.answer_all(right, scenario.rows);
    drop(scene);
    answers
}

impl<V: BusView, G: Gate, P: Post<V>> Scene<V, G, P> {
    /// What the rows bring, a line to each.
    fn answer_all(&mut self, right: &V::Right, rows: &[String]) -> Result<String> {
        let mut answers = String::new(self.alloc);
        for row in rows {
            self.answer_row(right, row.as_str(), &mut answers)?;
        }
        Ok(answers)
    }

    /// Writes what a row brings. Empty ones and headings stand as they are.
    fn answer_row(&mut self, right: &V::Right, row: &str, answers: &mut String) -> Result<()> {
        if row.is_empty() || row.starts_with('#') {
            writeln!(answers, "{row}")?;
            return Ok(());
        }
        let answer = self.answer(right, row)?;
        writeln!(answers, "{answer}")?;
        Ok(())
    }

    /// What a row brings.
    fn answer(&mut self, right: &V::Right, row: &str) -> Result<String> {
        let mut journal = Journal::new(self.alloc);
        let (count, row) = row.split_once(" times ").unwrap_or(("1", row));
        for _time in 0..count.parse::<u32>()? {
            self.act(right, row, &mut journal)?;
            self.findings.tell(&mut journal)?;
            self.check_refusals()?;
            for client in self.clients.iter_mut() {
                client.tell(self.shows_bytes, &mut journal)?;
            }
        }
        if journal.text.is_empty() {
            journal.begin("-")?;
        }
        Ok(journal.text)
    }

    /// Does what a row asks.
    fn act(&mut self, right: &V::Right, row: &str, journal: &mut Journal) -> Result<()> {
        let mut words = Words::of(row);
        match words.next() {
            "bus" | "login" | "watch" | "again" => Ok(()),
            "open" => self.open(right, words, journal),
            "crowd" => self.crowd(right, words, journal),
            "tick" => self.tick(right),
            "late" => self.end_login_time(right),
            "refused" => self.tell_refused(words, journal),
            "show" => {
                self.shows_bytes = words.next() == "bytes";
                Ok(())
            }
            name => {
                let place = self.clients.iter().position(|it| it.name.as_str() == name);
                let place = place.context("no such client")?;
                self.act_as(right, place, words)
            }
        }
    }

    /// Does what a client is to do.
    fn act_as(&mut self, right: &V::Right, place: usize, mut words: Words<'_>) -> Result<()> {
        let alloc = self.alloc;
        match words.next() {
            "hello" => self.send(right, place, HELLO),
            "calls" => self.send(right, place, &sent::call(alloc, words)?),
            "sends" => self.send(right, place, &sent::message(alloc, words)?),
            "writes" => self.send(right, place, &unescaped(alloc, words.rest)?),
            "repeats" => {
                let count = words.next().parse().unwrap_or(0);
                let message = match words.next() {
                    "calls" => sent::call(alloc, words)?,
                    _ => sent::message(alloc, words)?,
                };
                self.send(right, place, &message.as_slice().repeat(alloc, count)?)
            }
            "takes" => self.take(right, place, words.next(), Beyond::Waits),
            "fails" => {
                let _after = words.next();
                self.take(right, place, words.next(), Beyond::Fails)
            }
            "hangs" => {
                let (_up, _after) = (words.next(), words.next());
                self.take(right, place, words.next(), Beyond::HungUp)
            }
            "ends" => self.stop(right, place, false),
            "breaks" => self.stop(right, place, true),
            _ => bail!("no such row"),
        }
    }

    /// Connects a client. It is told where it is refused.
    fn connect(
        &mut self,
        right: &V::Right,
        name: &str,
        router: usize,
        is_asked: bool,
        journal: &mut Journal,
    ) -> Result<()> {
        let alloc = self.alloc;
        let wire = Rc::new(alloc, RefCell::new(Wire::new(alloc)))?;
        let socket = Script::new(Rc::clone(&wire)?);
        let challenge = if is_asked { Some(CHALLENGE) } else { None };
        let host = self.hosts.get_mut(router).context("no such router")?;
        match host.open(right, socket, challenge) {
            Ok(key) => {
                let name = String::from_str(alloc, name)?;
                let client = Client::new(alloc, name, router, key, wire, is_asked);
                self.clients.push(client)?;
            }
            Err(fault) => {
                journal.begin(name)?;
                write!(journal.text, " refused: {fault}")?;
            }
        }
        Ok(())
    }

    fn open(
        &mut self,
        right: &V::Right,
        mut words: Words<'_>,
        journal: &mut Journal,
    ) -> Result<()> {
        let name = words.next();
        let mut word = words.next();
        let mut router = 1;
        if word == "at" {
            router = words.number();
            word = words.next();
        }
        let router = router.saturating_sub(1) as usize;
        self.connect(right, name, router, word == "asked", journal)?;
        self.drive(right)
    }

    fn crowd(
        &mut self,
        right: &V::Right,
        mut words: Words<'_>,
        journal: &mut Journal,
    ) -> Result<()> {
        let count = words.number();
        let mut word = words.next();
        let mut router = 1;
        if word == "at" {
            router = words.number();
            word = words.next();
        }
        let router = router.saturating_sub(1) as usize;
        let mut answered = 0u32;
        for _client in 0..count {
            let place = self.clients.len();
            self.connect(right, "", router, false, journal)?;
            if word == "hello" {
                self.send(right, place, HELLO)?;
                if self.is_answered(place) {
                    answered = answered.saturating_add(1);
                }
            }
        }
        if word == "hello" {
            journal.begin("")?;
            write!(journal.text, "{answered} answered")?;
        }
        Ok(())
    }

    /// Whether what came to a client begins with a reply.
    fn is_answered(&self, place: usize) -> bool {
        let Some(client) = self.clients.get(place) else {
            return false;
        };
        match client.wire.try_borrow() {
            Ok(wire) => wire.written.starts_with(b"l\x02"),
            Err(_) => false,
        }
    }

    /// A client sends bytes.
    fn send(&mut self, right: &V::Right, place: usize, bytes: &[u8]) -> Result<()> {
        let cut = self.pieces.cut(bytes.len());
        let (front, rest) = bytes.split_at(cut);
        self.send_piece(right, place, front)?;
        for piece in rest.chunks(self.pieces.longest()) {
            self.send_piece(right, place, piece)?;
        }
        Ok(())
    }

    fn send_piece(&mut self, right: &V::Right, place: usize, piece: &[u8]) -> Result<()> {
        let Some(client) = self.clients.get(place) else {
            return Ok(());
        };
        if let Ok(mut wire) = client.wire.try_borrow_mut() {
            wire.sent.extend_from_slice(piece)?;
        }
        self.wake(place, false);
        self.drive(right)
    }

    /// A client sends no more, or its socket can't be read any more.
    fn stop(&mut self, right: &V::Right, place: usize, breaks: bool) -> Result<()> {
        if let Some(client) = self.clients.get(place) {
            if let Ok(mut wire) = client.wire.try_borrow_mut() {
                wire.ends = true;
                wire.breaks = breaks;
            }
        }
        self.wake(place, true);
        self.drive(right)
    }

    /// The socket of a client takes so many bytes more, and what comes behind them waits or fails.
    fn take(&mut self, right: &V::Right, place: usize, room: &str, beyond: Beyond) -> Result<()> {
        let Some(client) = self.clients.get(place) else {
            return Ok(());
        };
        if let Ok(mut wire) = client.wire.try_borrow_mut() {
            wire.room = room.parse().unwrap_or(usize::MAX);
            wire.beyond = beyond;
        }
        if !client.is_over {
            if let Some(host) = self.hosts.get_mut(client.router) {
                host.writable(client.key);
            }
        }
        self.drive(right)
    }

    /// The socket of a client may be read.
    fn wake(&mut self, place: usize, closing: bool) {
        let Some(client) = self.clients.get(place) else {
            return;
        };
        if !client.is_over {
            if let Some(host) = self.hosts.get_mut(client.router) {
                host.readable(client.key, closing);
            }
        }
    }

    /// Time passes.
    fn tick(&mut self, right: &V::Right) -> Result<()> {
        for host in self.hosts.iter_mut() {
            host.check_came();
            host.tick(right)?;
        }
        self.drive(right)
    }

    /// The time in which who connects is to have a name passes, at each router that has connections
    /// without one.
    fn end_login_time(&mut self, right: &V::Right) -> Result<()> {
        for host in self.hosts.iter_mut() {
            if host.has_unnamed() {
                host.end_login_time();
            }
        }
        self.drive(right)
    }

    /// Tells which routers refused the client of a slot a message, and why.
    fn tell_refused(&self, mut words: Words<'_>, journal: &mut Journal) -> Result<()> {
        let slot = u16::try_from(words.number())?;
        for (router, host) in self.hosts.iter().enumerate() {
            if let Some(refusal) = host.refusal(slot) {
                journal.begin("")?;
                write!(journal.text, "{} {refusal:?}", router.saturating_add(1))?;
            }
        }
        Ok(())
    }

    /// Nobody is refused a message but for want of room.
    fn check_refusals(&self) -> Result<()> {
        for host in self.hosts.iter() {
            for slot in 0..PLACES {
                let slot = u16::try_from(slot)?;
                if host.refusal(slot) == Some(Refusal::NoMemory) {
                    bail!("a message is refused for want of memory");
                }
            }
        }
        Ok(())
    }

    /// The routers take turns until none has anything left to do, and once more, for the mail that
    /// the last of them brought the first.
    fn drive(&mut self, right: &V::Right) -> Result<()> {
        let mut was_quiet = false;
        for _turn in 0..MOST_TURNS {
            let is_quiet = self.turn(right)?;
            if is_quiet && was_quiet {
                return Ok(());
            }
            was_quiet = is_quiet;
        }
        bail!("the routers go on for ever")
    }

    /// Each router takes a turn. Tells whether none has anything left to do.
    fn turn(&mut self, right: &V::Right) -> Result<bool> {
        let places = PLACES / self.hosts.len().max(1);
        let is_shared = self.hosts.len() > 1;
        let mut is_quiet = true;
        for (router, host) in self.hosts.iter_mut().enumerate() {
            let first = router.saturating_mul(places);
            if is_shared {
                for slot in first..first.saturating_add(places) {
                    host.mail_came(u16::try_from(slot).unwrap_or(0));
                }
            }
            host.turn(right)?;
            is_quiet = is_quiet && !host.is_busy();
            for ended in host.take_ended() {
                note_end(&mut self.clients, router, ended);
            }
        }
        Ok(is_quiet)
    }
}

/// The connection of a client is over.
fn note_end(clients: &mut [Client], router: usize, ended: Ended) {
    for client in clients.iter_mut() {
        if client.router == router && client.key == ended.key && !client.is_over {
            client.end = Some(ended.cause);
            client.is_over = true;
        }
    }
}
