//! Connections that are over, or take no more mail.

ghost use Rattle.std.specs.Prelude.{◌≡◌, None, OnOk, OnErr};
ghost use Rattle.router_core.specs.declared.event.Event.TheVariants.{Full};
ghost use Rattle.router_host.specs.Doing.{DoesBy};
ghost use Rattle.router_host.specs.Happening.{CatchesUp, HappensBy};

use crate::host::Host;
use bus_view::BusView;
use router_core::{Event, Gate};
use router_host_core::{EndCause, Ended, Post, SLOTS, Socket};
use seq_bus_core::Conn;
use std::alloc::AllocError;

/// How many connections that are over are noted until they are asked for.
const MOST_ENDED: usize = 1024;

impl<V: BusView, G: Gate, P: Post<V>, S: Socket> Host<V, G, P, S> {
    /// Lets go of the connections that are over.
    pub(crate) fn close_over(&mut self, right: &V::Right) -> Result<(), AllocError>
        requires none { self.old.kept ≡ None }
        ensures does { DoesBy V.BusView G.Gate P.Post self.old self.new }
        ensures ok { OnOk result (self.new.kept ≡ None) }
    {
        for _ in 0..self.carrier.lines.begin_over() {
            if let Some(key) = self.carrier.lines.next_over() {
                self.close_in_turn(right, key)?;
            }
        }
        Ok(())
    }

    /// Lets go of a connection, where it is over, but in the next turn where another router is
    /// behind: a connection with many names has much to tell.
    fn close_in_turn(&mut self, right: &V::Right, key: usize) -> Result<(), AllocError>
        requires none { self.old.kept ≡ None }
        ensures does { DoesBy V.BusView G.Gate P.Post self.old self.new }
        ensures ok { OnOk result (self.new.kept ≡ None) }
    {
        if self.carrier.post.is_behind() {
            self.carrier.lines.let_go_later(key);
            return Ok(());
        }
        self.close_and_drain(right, key)
    }

    /// Lets go of a connection, where it is over, and takes the mail that this brought, and that
    /// which came for it: whoever has its slot next is to find room there.
    fn close_and_drain(&mut self, right: &V::Right, key: usize) -> Result<(), AllocError>
        requires none { self.old.kept ≡ None }
        ensures does { DoesBy V.BusView G.Gate P.Post self.old self.new }
        ensures ok { OnOk result (self.new.kept ≡ None) }
    {
        self.note_slot(key);
        self.close(right, key)?;
        self.take_mail(right)
    }

    /// The mail of the slot of a connection is to be looked at.
    fn note_slot(&mut self, key: usize)
        ensures { self.new ≡ self.old }
    {
        if let Some(slot) = self.carrier.lines.slot(key) {
            self.carrier.slots.note(slot);
        }
    }

    /// Lets go of a connection, where it is over.
    fn close(&mut self, right: &V::Right, key: usize) -> Result<(), AllocError>
        requires none { self.old.kept ≡ None }
        ensures does { DoesBy V.BusView G.Gate P.Post self.old self.new }
        ensures ok { OnOk result (self.new.kept ≡ None) }
    {
        let Some(cause) = self.carrier.lines.let_go(key) else {
            return Ok(());
        };
        self.note_ended(key, cause);
        self.serve(right, Event::Closed { key })
    }

    /// Notes that a connection is over.
    fn note_ended(&mut self, key: usize, cause: EndCause)
        ensures { self.new ≡ self.old }
    {
        self.gone = self.gone.saturating_add(1);
        if self.ended.len() < MOST_ENDED {
            let number = self.engine.number_of(key);
            let _unnoted = self.ended.push(Ended { key, number, cause });
        }
    }

    /// Puts out whoever took no more mail, and takes the mail that this brings. What that announces
    /// may put out more.
    pub(crate) fn put_out_all(&mut self, right: &V::Right) -> Result<(), AllocError>
        requires none { self.old.kept ≡ None }
        ensures does { DoesBy V.BusView G.Gate P.Post self.old self.new }
        ensures ok { OnOk result (self.new.kept ≡ None) }
    {
        for _ in 0..SLOTS {
            if !self.put_out_one(right)? {
                return Ok(());
            }
            self.take_mail(right)?;
        }
        Ok(())
    }

    /// Puts out one who took no more mail. Tells whether there was one.
    fn put_out_one(&mut self, right: &V::Right) -> Result<bool, AllocError>
        ensures does { DoesBy V.BusView G.Gate P.Post self.old self.new }
        ensures same { self.new.kept ≡ self.old.kept }
    {
        let Some(conn) = self.carrier.put_out.first_untold() else {
            return Ok(false);
        };
        self.tell_full(right, conn)?;
        self.carrier.put_out.note_told(conn);
        self.ask_check(right, conn);
        Ok(true)
    }

    /// The engine is told that a connection took no more mail.
    fn tell_full(&mut self, right: &V::Right, conn: Conn) -> Result<(), AllocError>
        ensures happens { OnOk result
            (HappensBy V.BusView G.Gate P.Post self.old (Full conn.number) self.new) }
        ensures err { OnErr result (CatchesUp P.puts P.refuses P.starts self.old self.new) }
    {
        self.dispatch(
            right,
            &mut Event::Full {
                number: conn.number,
            },
        )
    }

    /// The router of a connection is asked to check whether it is present.
    fn ask_check(&mut self, right: &V::Right, conn: Conn)
        ensures { self.new ≡ self.old }
    {
        if self.carrier.slots.contains(conn.slot) {
            self.check_due = true;
        } else {
            self.carrier.post.ask_check(right, conn);
        }
    }
}
