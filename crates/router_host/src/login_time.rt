//! The login time: within it who connects is to log in and say Hello.

ghost use Rattle.std.specs.Prelude.{◌≡◌, None};
ghost use Rattle.router.specs.Numbers.{number_at};
ghost use Rattle.router_host.specs.Expiring.{LoginTimeEnds};

use crate::host::Host;
use bus_view::BusView;
use router_core::Gate;
use router_host_core::{EndCause, Post, Socket};

impl<V: BusView, G: Gate, P: Post<V>, S: Socket> Host<V, G, P, S> {
    /// Whether there are connections without a name: else that time need not run. They are counted
    /// only where one came since there were none.
    pub fn has_unnamed(&mut self) -> bool
        ensures { self.new ≡ self.old }
    {
        if !self.carrier.lines.has_newcomers() {
            return false;
        }
        if self.engine.unnamed() > 0 {
            return true;
        }
        self.carrier.lines.note_all_named();
        false
    }

    /// The login time has passed once more. Each connection
    /// without one that was there already when it passed last is over; one that came since has
    /// until it passes next. The next turn lets go of those that are over.
    pub fn end_login_time(&mut self)
        ensures { LoginTimeEnds self.old self.new }
    {
        for key in 0..self.carrier.lines.len() {
            self.expire(key);
        }
    }

    /// That time has passed for a connection.
    fn expire(&mut self, key: usize)
        ensures { LoginTimeEnds self.old self.new }
    {
        match self.engine.number_of(key) {
            Some(_has_name) => {}
            None => self.expire_unnamed(key),
        }
    }

    /// That time has passed for a connection without a name.
    fn expire_unnamed(&mut self, key: usize)
        requires { number_at self.old.engine.standing key ≡ None }
        ensures { LoginTimeEnds self.old self.new }
    {
        if !self.carrier.lines.age(key) {
            return;
        }
        self.carrier.lines.end(key, EndCause::Silent);
    }
}
