//! A turn.

ghost use Rattle.std.specs.Prelude.{◌≡◌, None, OnOk, OnErr};
ghost use Rattle.router_core.specs.declared.event.Event.TheVariants.{Tick};
ghost use Rattle.router_host.specs.Doing.{DoesBy};
ghost use Rattle.router_host.specs.Happening.{CatchesUp, HappensBy};

use crate::host::Host;
use bus_view::BusView;
use router_core::{Event, Gate};
use router_host_core::{Post, Socket};
use std::alloc::AllocError;

impl<V: BusView, G: Gate, P: Post<V>, S: Socket> Host<V, G, P, S> {
    /// Serves what is ready, takes mail, gives each socket what waits for it, and lets go of the
    /// connections that are over.
    ///
    /// # Errors
    ///
    /// There was no memory for something, or no room for a start. It is done first in the next
    /// turn, which is to come some time later.
    pub fn turn(&mut self, right: &V::Right) -> Result<(), AllocError>
        ensures does { DoesBy V.BusView G.Gate P.Post self.old self.new }
        ensures ok { OnOk result (self.new.kept ≡ None) }
    {
        let done = self.do_all(right);
        self.end_turn(right, done.is_err());
        done
    }

    /// All of a turn but its end. What waits for sockets is written even where serving failed.
    fn do_all(&mut self, right: &V::Right) -> Result<(), AllocError>
        ensures does { DoesBy V.BusView G.Gate P.Post self.old self.new }
        ensures ok { OnOk result (self.new.kept ≡ None) }
    {
        let served = self.serve_all(right);
        self.flush_all();
        served?;
        self.let_go_all(right)
    }

    /// Gives each socket what waits for it.
    fn flush_all(&mut self)
        ensures does { DoesBy V.BusView G.Gate P.Post self.old self.new }
        ensures same { self.new.kept ≡ self.old.kept }
    {
        self.carrier.lines.flush_all();
    }

    /// Ends a turn. After a failure all is looked at in the next one; whoever was brought something is
    /// woken.
    fn end_turn(&mut self, right: &V::Right, failed: bool)
        ensures { self.new ≡ self.old }
    {
        if failed {
            self.carrier.lines.note_all();
            self.carrier.slots.note_all();
        }
        self.carrier.post.wake_others(right);
    }

    /// Time has passed.
    ///
    /// # Errors
    ///
    /// There was no memory for it, or no room for what events before it brought. A tick is wanted
    /// still.
    pub fn tick(&mut self, right: &V::Right) -> Result<(), AllocError>
        ensures happens { OnOk result
            (HappensBy V.BusView G.Gate P.Post self.old Tick self.new) }
        ensures err { OnErr result (CatchesUp P.puts P.refuses P.starts self.old self.new) }
    {
        let leaves = self.engine.ticks();
        self.dispatch(right, &mut Event::Tick)?;
        self.check_due = false;
        self.end_tick(right, leaves);
        Ok(())
    }

    /// Where Leaves were due, the other routers are asked to check their connections, since they may
    /// be of any. Whoever was brought something is woken.
    fn end_tick(&mut self, right: &V::Right, leaves: bool)
        ensures { self.new ≡ self.old }
    {
        if leaves {
            self.carrier.post.ask_checks(right);
        }
        self.carrier.post.wake_others(right);
    }

    /// Serves what was left, lets go of who is over, takes mail, and serves what is ready, in this
    /// order.
    fn serve_all(&mut self, right: &V::Right) -> Result<(), AllocError>
        ensures does { DoesBy V.BusView G.Gate P.Post self.old self.new }
        ensures ok { OnOk result (self.new.kept ≡ None) }
    {
        self.catch_up(right)?;
        self.serve_kept(right)?;
        self.flush_all();
        self.close_over(right)?;
        self.take_mail(right)?;
        self.serve_ready(right)
    }

    /// Lets go of the connections that are over, and puts out those that took no more mail.
    fn let_go_all(&mut self, right: &V::Right) -> Result<(), AllocError>
        requires none { self.old.kept ≡ None }
        ensures does { DoesBy V.BusView G.Gate P.Post self.old self.new }
        ensures ok { OnOk result (self.new.kept ≡ None) }
    {
        self.close_over(right)?;
        self.put_out_all(right)
    }
}
