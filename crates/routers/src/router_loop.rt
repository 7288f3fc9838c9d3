//! One router, as long as it serves.

ghost use Rattle.std.specs.Prelude.{◌≡◌};
ghost use Rattle.routers.specs.Serving.{WorksOnBy};
ghost use Rattle.routers.specs.Sources.{IsBrought};

use crate::source::{Source, SourceEvent, Timeout};
use crate::trace_sink::TraceWriter;
use bus_view::BusView;
use router_core::Gate;
use router_host::{Host, Post, Socket};
use routers_core::{Coordinator, Fault, Wake};
use std::alloc::AllocError;
use std::marker::Model;
use std::sync::Wait;

/// A router: a host, and where it hears of what happens. Contracts see the host.
#[derive(Drop)]
pub struct Router<'a, V: BusView, G: Gate, P: Post<V>, S: Socket, E: Source<S>, W: Wake + Drop> {
    me: usize,
    coordinator: &'a Coordinator<W>,
    host: Host<V, G, P, S>,
    source: E,
    /// The last turn left something undone, for want of memory or of room for a start.
    must_retry: bool,
}

impl<'a, V: BusView, G: Gate, P: Post<V>, S: Socket, E: Source<S>, W: Wake + Drop> Model
    for Router<'a, V, G, P, S, E, W> {
    ghost use Rattle.router_host.specs.States.{Hosted};

    ghost Value = { Hosted P G V.Note };

    ghost view = { λ r. r.host };
}

impl<'a, V: BusView, G: Gate, P: Post<V>, S: Socket, E: Source<S>, W: Wake + Drop> Router<
    'a,
    V,
    G,
    P,
    S,
    E,
    W,
> {
    /// Router `me` of the coordinator.
    pub fn new(
        me: usize,
        coordinator: &'a Coordinator<W>,
        host: Host<V, G, P, S>,
        source: E,
    ) -> Router<'a, V, G, P, S, E, W>
        ensures { result ≡ host }
    {
        Router {
            me,
            coordinator,
            host,
            source,
            must_retry: false,
        }
    }

    /// Serves until all are to end, or nothing happens any more. What a turn recorded is written at
    /// its end: so all of it is written while the router waits.
    ///
    /// # Errors
    ///
    /// Its source fails, or what it recorded can't be written.
    pub fn run<R: Wait, T: TraceWriter<V, G, P, S>>(
        &mut self,
        rt: &R,
        right: &V::Right,
        trace_writer: &mut T,
    ) -> Result<(), Fault>
        ensures serves { WorksOnBy V.BusView G.Gate P.Post E.Source S.Sink
            self.old self.new }
    {
        for _ in rt.forever() {
            self.rest(right)?;
            if self.coordinator.is_over() {
                return Ok(());
            }
            if self.take_events(rt, right) {
                return Ok(());
            }
            self.turn(right);
            trace_writer.record(&mut self.host)?;
        }
        unreachable!()
    }

    /// Waits for what happens next, unless there is something to do. Routers that are behind go
    /// first.
    fn rest(&mut self, right: &V::Right) -> Result<(), Fault>
        ensures same { self.new ≡ self.old }
    {
        self.coordinator.end_turn(self.me);
        self.host.let_others_go_first(right);
        let timeout = self.timeout();
        if timeout == Timeout::Zero {
            return self.source.wait(Timeout::Zero);
        }
        let may_sleep = self.coordinator.try_sleep(self.me);
        let waited = self
            .source
            .wait(if may_sleep { timeout } else { Timeout::Zero });
        self.coordinator.end_sleep(self.me);
        waited
    }

    fn timeout(&self) -> Timeout {
        if self.must_retry {
            return Timeout::Short;
        }
        if self.host.is_busy() {
            return Timeout::Zero;
        }
        if self.host.wants_tick() {
            return Timeout::Short;
        }
        Timeout::Never
    }

    /// Tells the host what happened, and whether nothing happens any more.
    fn take_events<R: Wait>(&mut self, rt: &R, right: &V::Right) -> bool
        ensures serves { WorksOnBy V.BusView G.Gate P.Post E.Source S.Sink
            self.old self.new }
    {
        self.coordinator.lower_newcomers_flag(self.me);
        for _ in rt.forever() {
            let Some(event) = self.source.next(rt) else {
                return false;
            };
            if self.take_event(right, event) {
                return true;
            }
        }
        unreachable!()
    }

    /// Tells the host of an event, and whether it is the last.
    fn take_event(&mut self, right: &V::Right, event: SourceEvent<S>) -> bool
        requires { IsBrought E.asks event }
        ensures serves { WorksOnBy V.BusView G.Gate P.Post E.Source S.Sink
            self.old self.new }
    {
        match event {
            SourceEvent::Accepted { socket, challenge } => {
                self.open(right, socket, challenge);
                false
            }
            SourceEvent::Readable { key, closing } => {
                self.host.readable(key, closing);
                false
            }
            SourceEvent::Writable { key } => {
                self.host.writable(key);
                false
            }
            SourceEvent::Ended => true,
        }
    }

    /// A connection came. It is closed where it can't be served.
    fn open(&mut self, right: &V::Right, mut socket: S, challenge: Option<[u8; 16]>)
        requires { E.asks socket challenge }
        ensures serves { WorksOnBy V.BusView G.Gate P.Post E.Source S.Sink
            self.old self.new }
    {
        if !self.source.watch(self.host.free_key(), &mut socket) {
            self.coordinator.note_gone(self.me, 1);
            return;
        }
        let opened = self.host.open(right, socket, challenge);
        if let Err(fault) = opened {
            self.source.refused(fault);
            self.coordinator.note_gone(self.me, 1);
        }
    }

    /// Does what there is to do.
    fn turn(&mut self, right: &V::Right)
        ensures serves { WorksOnBy V.BusView G.Gate P.Post E.Source S.Sink
            self.old self.new }
    {
        self.take_flags();
        let ticked = self.tick(right);
        let turned = self.host.turn(right);
        self.must_retry = ticked.is_err() || turned.is_err();
        self.end_login_time();
        self.tell_ended();
    }

    /// The login time passes, where there is anyone without a name. That is looked at behind what
    /// the turn served, so that it does not run once all have their names.
    fn end_login_time(&mut self)
        ensures serves { WorksOnBy V.BusView G.Gate P.Post E.Source S.Sink
            self.old self.new }
    {
        let is_wanted = self.host.has_unnamed();
        if !self.source.login_time_passes(is_wanted) {
            return;
        }
        self.host.end_login_time();
    }

    /// Time has passed, where a tick is wanted.
    fn tick(&mut self, right: &V::Right) -> Result<(), AllocError>
        ensures serves { WorksOnBy V.BusView G.Gate P.Post E.Source S.Sink
            self.old self.new }
    {
        if !self.host.wants_tick() {
            return Ok(());
        }
        self.host.tick(right)
    }

    /// Tells the source which connections are over, and that their places are free.
    fn tell_ended(&mut self)
        ensures same { self.new ≡ self.old }
    {
        for ended in self.host.take_ended() {
            self.source.ended(ended);
        }
        self.coordinator.note_gone(self.me, self.host.take_gone());
    }

    /// Tells the host what other routers brought.
    fn take_flags(&mut self)
        ensures same { self.new ≡ self.old }
    {
        if self.coordinator.take_any_mail_flag(self.me) {
            self.take_mail_flags();
        }
        if self.coordinator.take_check_flag(self.me) {
            self.host.check_came();
        }
    }

    /// Tells the host which of its places have mail from other routers.
    fn take_mail_flags(&mut self)
        ensures same { self.new ≡ self.old }
    {
        let first = self.coordinator.first_slot(self.me);
        for slot in first..first.saturating_add(self.coordinator.places()) {
            if self.coordinator.take_mail_flag(slot) {
                if let Ok(slot) = u16::try_from(slot) {
                    self.host.mail_came(slot);
                }
            }
        }
    }
}
