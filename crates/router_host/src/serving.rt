//! The share of a connection in a turn.

ghost use Rattle.std.specs.Prelude.{◌≡◌, None, OnOk};
ghost use Rattle.router_host.specs.Doing.{DoesBy, MayBeRead};

use crate::host::Host;
use crate::kept::Kept;
use bus_view::BusView;
use router_core::{Event, Gate};
use router_host_core::{Post, Pulled, Socket};
use seq_bus_core::limits::MAX_BATCH;
use std::alloc::AllocError;

/// How many messages of a connection are served before mail is taken: what they bring for one
/// connection there is room for.
const MESSAGES_A_PART: usize = 32;

/// How many such parts of a connection are served in a turn.
const PARTS_A_TURN: u8 = 2;

/// How many connections are served before the other routers are told of their mail: so many have
/// less for one connection than an outbox has room for.
const CONNECTIONS_UNTOLD: u8 = 2;

impl<V: BusView, G: Gate, P: Post<V>, S: Socket> Host<V, G, P, S> {
    /// Serves each connection that is ready.
    pub(crate) fn serve_ready(&mut self, right: &V::Right) -> Result<(), AllocError>
        requires none { self.old.kept ≡ None }
        ensures does { DoesBy V.BusView G.Gate P.Post self.old self.new }
        ensures ok { OnOk result (self.new.kept ≡ None) }
    {
        for _ in 0..self.carrier.lines.begin_ready() {
            if let Some(key) = self.carrier.lines.next_ready() {
                self.serve_in_turn(right, key)?;
            }
        }
        Ok(())
    }

    /// Serves a connection, but in the next turn where another router is behind: what is served now
    /// could put more into an outbox than it has room for.
    fn serve_in_turn(&mut self, right: &V::Right, key: usize) -> Result<(), AllocError>
        requires none { self.old.kept ≡ None }
        ensures does { DoesBy V.BusView G.Gate P.Post self.old self.new }
        ensures ok { OnOk result (self.new.kept ≡ None) }
    {
        if self.carrier.post.is_behind() {
            self.carrier.lines.serve_later(key);
            return Ok(());
        }
        self.serve_one(right, key)
    }

    /// Serves a connection, and takes the mail that it brought: else some could put more for one
    /// connection in one turn than there is room for.
    fn serve_one(&mut self, right: &V::Right, key: usize) -> Result<(), AllocError>
        requires none { self.old.kept ≡ None }
        ensures does { DoesBy V.BusView G.Gate P.Post self.old self.new }
        ensures ok { OnOk result (self.new.kept ≡ None) }
    {
        self.serve_line(right, key)?;
        self.tell_others(right);
        self.take_mail(right)
    }

    /// Every few connections that are served the other routers are told of their mail.
    fn tell_others(&mut self, right: &V::Right)
        ensures { self.new ≡ self.old }
    {
        self.untold = self.untold.saturating_add(1);
        if self.untold >= CONNECTIONS_UNTOLD {
            self.untold = 0;
            self.carrier.post.wake_others(right);
        }
    }

    /// Serves a connection: its whole messages, up to its share of a turn. Where there is none, it
    /// is read first.
    fn serve_line(&mut self, right: &V::Right, key: usize) -> Result<(), AllocError>
        requires none { self.old.kept ≡ None }
        ensures does { DoesBy V.BusView G.Gate P.Post self.old self.new }
        ensures ok { OnOk result (self.new.kept ≡ None) }
    {
        let named = self.engine.number_of(key).is_some();
        if !self.carrier.lines.begin(key, named) {
            return Ok(());
        }
        if !self.engine.has_next(key) {
            self.read(right, key)?;
        }
        self.serve_share(right, key)?;
        let has_more = self.engine.has_next(key);
        self.carrier.lines.serve_again(key, has_more);
        Ok(())
    }

    /// Serves whole messages of a connection, up to its share of a turn, and takes the mail that
    /// they brought.
    fn serve_share(&mut self, right: &V::Right, key: usize) -> Result<(), AllocError>
        requires none { self.old.kept ≡ None }
        ensures does { DoesBy V.BusView G.Gate P.Post self.old self.new }
        ensures ok { OnOk result (self.new.kept ≡ None) }
    {
        for _ in 0..PARTS_A_TURN {
            if !self.engine.has_next(key) {
                break;
            }
            self.serve_part(right, key)?;
            self.take_mail(right)?;
        }
        Ok(())
    }

    /// Serves some whole messages of a connection, until another router is behind: one by one, but
    /// twice as many at once each time that those before seem to have changed rules.
    fn serve_part(&mut self, right: &V::Right, key: usize) -> Result<(), AllocError>
        requires none { self.old.kept ≡ None }
        ensures does { DoesBy V.BusView G.Gate P.Post self.old self.new }
        ensures ok { OnOk result (self.new.kept ≡ None) }
    {
        let mut left = MESSAGES_A_PART;
        let mut count = 1;
        for _ in 0..MESSAGES_A_PART {
            if left == 0 || !self.engine.has_next(key) || self.carrier.post.is_behind() {
                break;
            }
            self.serve_up_to(right, key, count)?;
            left = left.saturating_sub(count);
            count = if self.changes_rules {
                count.saturating_mul(2).min(left)
            } else {
                1
            };
        }
        Ok(())
    }

    /// Serves the next messages of a connection, so many at most.
    fn serve_up_to(&mut self, right: &V::Right, key: usize, count: usize) -> Result<(), AllocError>
        requires none { self.old.kept ≡ None }
        ensures does { DoesBy V.BusView G.Gate P.Post self.old self.new }
        ensures ok { OnOk result (self.new.kept ≡ None) }
    {
        if count < 2 {
            return self.serve(right, Event::Next { key });
        }
        let keys = Vec::from_elem(self.alloc, key, count.min(MAX_BATCH))?;
        self.serve(right, Event::Turn { keys })
    }

    /// Reads from a connection, once.
    fn read(&mut self, right: &V::Right, key: usize) -> Result<(), AllocError>
        requires none { self.old.kept ≡ None }
        requires may { MayBeRead self.old key }
        ensures does { DoesBy V.BusView G.Gate P.Post self.old self.new }
        ensures ok { OnOk result (self.new.kept ≡ None) }
    {
        match self.carrier.lines.pull(key, &mut self.room) {
            Pulled::Bytes(count) => {
                self.kept = Some(Kept::Piece { key, count });
                self.serve_kept(right)
            }
            Pulled::Nothing => Ok(()),
            Pulled::Over(cause) => {
                self.carrier.lines.end(key, cause);
                Ok(())
            }
        }
    }
}
