//! The connections of a router.

ghost use Rattle.std.specs.Prelude.{◌≡◌, ◌++◌, ◌<◌, [], ℕ, List, None, false, true, OnOk, length, replicate};
ghost use Rattle.router_host_core.specs.Carrying.{Each, line_at, with_line, IsWrittenAt, ended_at, IsBlockedAt, IsDrained};
ghost use Rattle.router_host_core.specs.Sockets.{IsFlushedAt, IsPulledAt, cause_of, let_go, unblocked_at};
ghost use Rattle.router_host_core.specs.States.{new_line};

use crate::ending::EndCause;
use crate::hints::Hints;
use crate::line::{Line, Pulled};
use crate::socket::Socket;
use router_core::WrittenBytes;
use std::alloc::{AllocError, Global};
use std::marker::Model;

/// The connections of a router by their keys, and which of them are to be looked at.
#[derive(Drop)]
pub struct Lines<S: Socket> {
    alloc: Global,
    table: Vec<Option<Line<S>>>,
    /// Those to be served.
    ready: Hints,
    /// Those to be flushed.
    dirty: Hints,
    /// Those that are over.
    over: Hints,
    /// A connection came since all had names.
    has_newcomers: bool,
}

impl<S: Socket> Model for Lines<S> {
    ghost use Rattle.std.specs.Prelude.{List, Option};
    ghost use Rattle.router_host_core.specs.States.{LineState};

    ghost Value = { List (Option LineState) };

    ghost view = { λ l. l.table.items };
}

impl<S: Socket> Lines<S> {
    /// No connections.
    pub fn new(alloc: Global) -> Lines<S>
        ensures { result ≡ [] }
    {
        Lines {
            alloc,
            table: Vec::new(alloc),
            ready: Hints::new(alloc),
            dirty: Hints::new(alloc),
            over: Hints::new(alloc),
            has_newcomers: false,
        }
    }

    /// The keys are below this.
    pub fn len(&self) -> usize {
        self.table.len()
    }

    /// Whether nothing is to be looked at.
    pub fn is_quiet(&self) -> bool {
        self.ready.is_empty() && self.dirty.is_empty() && self.over.is_empty()
    }

    /// The socket of a connection.
    pub fn socket(&self, key: usize) -> Option<&S> {
        match self.table.get(key) {
            Some(Some(line)) => Some(line.socket()),
            _ => None,
        }
    }

    /// Makes room for the connection of a key.
    pub fn make_room(&mut self, key: usize) -> Result<(), AllocError>
        ensures places { (count : ℕ) × (self.new ≡ self.old ++ replicate count None) }
        ensures ok { OnOk result (key < length self.new) }
    {
        for _key in self.table.len()..key.saturating_add(1) {
            self.table.push(None)?;
        }
        Ok(())
    }

    /// A connection came, which there is room for.
    pub fn open(&mut self, key: usize, socket: S)
        ensures { self.new ≡ with_line self.old key
            (new_line (S.remaining socket) (S.taken socket)) }
    {
        let alloc = self.alloc;
        if key < self.table.len() {
            self.table[key] = Some(Line::new(alloc, socket));
            self.ready.add(key);
            self.has_newcomers = true;
        }
    }

    /// The socket of a connection may be read.
    pub fn note_readable(&mut self, key: usize, closing: bool)
        ensures { self.new ≡ self.old }
    {
        if key >= self.table.len() {
            return;
        }
        if let Some(line) = &mut self.table[key] {
            line.note_readable(closing);
            if line.mark_listed() {
                self.ready.add(key);
            }
        }
    }

    /// The socket of a connection takes bytes again. Tells its slot, which mail may wait for.
    pub fn note_writable(&mut self, key: usize) -> Option<u16>
        ensures { self.new ≡ unblocked_at self.old key (line_at self.old key) }
    {
        if key >= self.table.len() {
            return None;
        }
        let Some(line) = &mut self.table[key] else {
            return None;
        };
        if !line.is_blocked() {
            return None;
        }
        line.unblock();
        if line.mark_dirty() {
            self.dirty.add(key);
        }
        line.slot()
    }

    /// All are to be looked at.
    pub fn note_all(&mut self)
        ensures { self.new ≡ self.old }
    {
        self.ready.add_all();
        self.dirty.add_all();
        self.over.add_all();
    }

    /// Begins to look at those that are to be served. Tells how many they are.
    pub fn begin_ready(&mut self) -> usize
        ensures { self.new ≡ self.old }
    {
        self.ready.begin(0, self.table.len())
    }

    /// The next of those that are to be served.
    pub fn next_ready(&mut self) -> Option<usize>
        ensures { self.new ≡ self.old }
    {
        self.ready.next()
    }

    /// Begins to look at those that may be over. Tells how many they are.
    pub fn begin_over(&mut self) -> usize
        ensures { self.new ≡ self.old }
    {
        self.over.begin(0, self.table.len())
    }

    /// The next of those that may be over.
    pub fn next_over(&mut self) -> Option<usize>
        ensures { self.new ≡ self.old }
    {
        self.over.next()
    }

    /// Whether the connection of a key is to be served now, which may have a name.
    pub fn begin(&mut self, key: usize, named: bool) -> bool
        ensures same { self.new ≡ self.old }
        ensures drained { result ≡ true → named ≡ false → IsDrained self.old key }
    {
        if key >= self.table.len() {
            return false;
        }
        match &mut self.table[key] {
            Some(line) => line.begin(named),
            None => false,
        }
    }

    /// Reads from the socket of a connection, once.
    pub fn pull(&mut self, key: usize, room: &mut [u8]) -> Pulled
        ensures { IsPulledAt key self.old result room.new self.new }
    {
        if key >= self.table.len() {
            return Pulled::Nothing;
        }
        match &mut self.table[key] {
            Some(line) => line.pull(room),
            None => Pulled::Nothing,
        }
    }

    /// A connection was served. It is to be served again where it has more.
    pub fn serve_again(&mut self, key: usize, has_more: bool)
        ensures { self.new ≡ self.old }
    {
        if key >= self.table.len() {
            return;
        }
        if let Some(line) = &mut self.table[key] {
            let goes_on = has_more || line.is_readable();
            if goes_on && line.mark_listed() {
                self.ready.add(key);
            }
        }
    }

    /// A connection that was to be served now is to be served in the next turn.
    pub fn serve_later(&mut self, key: usize)
        ensures { self.new ≡ self.old }
    {
        self.ready.add(key);
    }

    /// A connection that was to be let go of now, where it is over, is to be let go of in the next
    /// turn.
    pub fn let_go_later(&mut self, key: usize)
        ensures { self.new ≡ self.old }
    {
        self.over.add(key);
    }

    /// Bytes are written to a connection.
    pub fn write(&mut self, key: usize, bytes: WrittenBytes)
        ensures { IsWrittenAt self.old key bytes (line_at self.old key) self.new }
    {
        if key >= self.table.len() {
            return;
        }
        let Some(line) = &mut self.table[key] else {
            return;
        };
        let was_over = line.ended().is_some();
        line.write(bytes);
        let is_over = line.ended().is_some();
        let is_new = line.mark_dirty();
        if is_over && !was_over {
            self.over.add(key);
        }
        if is_new {
            self.dirty.add(key);
        }
    }

    /// A connection is over.
    pub fn end(&mut self, key: usize, cause: EndCause)
        ensures { self.new ≡ ended_at self.old key cause (line_at self.old key) }
    {
        if key >= self.table.len() {
            return;
        }
        if let Some(line) = &mut self.table[key] {
            let was_over = line.ended().is_some();
            line.end(cause);
            if !was_over {
                self.over.add(key);
            }
        }
    }

    /// Whether a connection came since all had names.
    pub fn has_newcomers(&self) -> bool {
        self.has_newcomers
    }

    /// All connections have names.
    pub fn note_all_named(&mut self)
        ensures { self.new ≡ self.old }
    {
        self.has_newcomers = false;
    }

    /// A login time passes for a connection. Tells whether one did before, since that came.
    pub fn age(&mut self, key: usize) -> bool
        ensures { self.new ≡ self.old }
    {
        if key >= self.table.len() {
            return false;
        }
        match &mut self.table[key] {
            Some(line) => line.age(),
            None => false,
        }
    }

    /// Whether mail for a connection is to wait until its socket takes bytes again.
    pub fn is_blocked(&self, key: usize) -> bool
        ensures { IsBlockedAt self.now key → result ≡ true }
    {
        match self.table.get(key) {
            Some(Some(line)) => line.is_blocked(),
            _ => false,
        }
    }

    /// Whether enough bytes wait for the socket of a connection.
    pub fn has_enough(&self, key: usize) -> bool {
        match self.table.get(key) {
            Some(Some(line)) => line.has_enough(),
            _ => false,
        }
    }

    /// The slot of a connection, once mail was looked for there.
    pub fn slot(&self, key: usize) -> Option<u16> {
        match self.table.get(key) {
            Some(Some(line)) => line.slot(),
            _ => None,
        }
    }

    /// A connection has a name, and this slot.
    pub fn know_slot(&mut self, key: usize, slot: u16)
        ensures { self.new ≡ self.old }
    {
        if key >= self.table.len() {
            return;
        }
        if let Some(line) = &mut self.table[key] {
            line.know_slot(slot);
        }
    }

    /// Gives the sockets what waits for them.
    pub fn flush_all(&mut self)
        ensures { (keys : List ℕ) × Each IsFlushedAt keys self.old self.new }
    {
        for _ in 0..self.begin_dirty() {
            if let Some(key) = self.next_dirty() {
                self.flush(key);
            }
        }
    }

    /// Begins to look at those that are to be flushed. Tells how many they are.
    fn begin_dirty(&mut self) -> usize
        ensures { self.new ≡ self.old }
    {
        self.dirty.begin(0, self.table.len())
    }

    /// The next of those that are to be flushed.
    fn next_dirty(&mut self) -> Option<usize>
        ensures { self.new ≡ self.old }
    {
        self.dirty.next()
    }

    /// Gives the socket of a connection what waits for it.
    pub fn flush(&mut self, key: usize)
        ensures { IsFlushedAt key self.old self.new }
    {
        if key >= self.table.len() {
            return;
        }
        let Some(line) = &mut self.table[key] else {
            return;
        };
        let was_over = line.ended().is_some();
        line.flush();
        if line.ended().is_some() && !was_over {
            self.over.add(key);
        }
        if line.is_released() && line.mark_listed() {
            self.ready.add(key);
        }
    }

    /// Lets go of the connection of a key, where it is over. Tells why.
    pub fn let_go(&mut self, key: usize) -> Option<EndCause>
        ensures cause { result ≡ cause_of (line_at self.old key) }
        ensures gone { self.new ≡ let_go self.old key result }
    {
        if key >= self.table.len() {
            return None;
        }
        let Some(line) = &self.table[key] else {
            return None;
        };
        let cause = line.ended()?;
        self.table[key] = None;
        Some(cause)
    }
}
