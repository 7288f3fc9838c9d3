//! What becomes of actions.

ghost use Rattle.std.specs.Prelude.{◌≡◌, ◌<◌, ◌++◌, ◌∷◌, [], ◌↔◌, IfErr, IsTrue, OnOk, OnErr, reverse, vec_capacity, vec_len};
ghost use Rattle.std.specs.List.{AllByRecursion};
ghost use Rattle.router_core.specs.declared.action.Action.TheVariants.{Run};
ghost use Rattle.router_core.specs.Deeds.{CarriesOwn, IsOwnNote};
ghost use Rattle.router_host_core.specs.Carrying.{GoesOn, IsCarriedOut, IsStart, ArePut, IsPut};
ghost use Rattle.router_host_core.specs.States.{idle};

use crate::ending::EndCause;
use crate::lines::Lines;
use crate::post::{NoRoom, Post, StartRequest, TooManyStarts};
use crate::put_out::{PutOut, Refusal};
use crate::slots::Slots;
use crate::socket::Socket;
use bus_view::{BusView, CheapCopy};
use names::BusName;
use outbox_core::{Content, Deliveries, Envelope};
use router_core::Action;
use seq_bus_core::Conn;
use std::alloc::Global;
use std::marker::{Model, PhantomData};

/// What actions are carried out on: the connections, the ways to other routers, and who took no
/// more mail.
#[derive(Drop)]
pub struct Carrier<V: BusView, P: Post<V>, S: Socket> {
    pub lines: Lines<S>,
    pub post: P,
    pub slots: Slots,
    pub put_out: PutOut,
    view: PhantomData<V>,
}

impl<V: BusView, P: Post<V>, S: Socket> Model for Carrier<V, P, S> {
    ghost use Rattle.router_host_core.specs.States.{Carried};

    ghost Value = { Carried P };

    ghost view = { λ c. record { lines = c.lines; post = c.post; full = c.put_out } };
}

/// An element that was taken from the end stands there again.
fn push_back<T: Drop>(elements: &mut Vec<T>, element: T)
    requires { vec_len elements.old < vec_capacity elements.old }
    ensures { elements.new.items ≡ elements.old.items ++ element ∷ [] }
{
    let _ = elements.push(element);
}

/// A copy of the note, if there is one.
fn copy_of<N: CheapCopy>(note: &Option<N>) -> Option<N>
    ensures { result ≡ note.now }
{
    match note {
        Some(note) => Some(note.copy()),
        None => None,
    }
}

impl<V: BusView, P: Post<V>, S: Socket> Carrier<V, P, S> {
    /// No connections.
    pub fn new(alloc: Global, post: P, slots: Slots) -> Self
        ensures { result ≡ idle post }
    {
        Carrier {
            lines: Lines::new(alloc),
            post,
            slots,
            put_out: PutOut::new(),
            view: PhantomData,
        }
    }

    /// Carries out actions, the last first, until none is left or there is no room for a start:
    /// that action and those before it are left. Tells whether none is.
    pub fn carry_out(&mut self, right: &V::Right, actions: &mut Vec<Action<V::Note>>) -> bool
        requires { AllByRecursion (CarriesOwn V.registry_of (P.registry self.old.post))
            (reverse actions.old.items) }
        ensures done { GoesOn P.puts P.refuses P.starts (reverse actions.old.items) self.old
            (reverse actions.new.items) self.new }
        ensures all { IsTrue result ↔ (actions.new.items ≡ []) }
        ensures own { AllByRecursion (CarriesOwn V.registry_of (P.registry self.new.post))
            (reverse actions.new.items) }
        ensures registry { P.registry self.new.post ≡ P.registry self.old.post }
    {
        while let Some(action) = actions.pop() {
            if let Err(action) = self.act(right, action) {
                push_back(actions, action);
                return false;
            }
        }
        true
    }

    /// Carries out an action. A start that there is no room for comes back, and nothing is done.
    fn act(&mut self, right: &V::Right, action: Action<V::Note>) -> Result<(), Action<V::Note>>
        requires { CarriesOwn V.registry_of (P.registry self.old.post) action }
        ensures done { OnOk result (IsCarriedOut P.puts P.refuses P.starts action self.old self.new) }
        ensures refused { OnErr result (self.new ≡ self.old) }
        ensures back { IfErr result (λ later. (later ≡ action) × IsStart action) }
        ensures registry { P.registry self.new.post ≡ P.registry self.old.post }
    {
        match action {
            Action::Write { key, bytes } => {
                self.lines.write(key, bytes);
                Ok(())
            }
            Action::Put { to, note, content } => {
                self.put(right, to.to(), to.monitors(), &note, &content);
                Ok(())
            }
            Action::Close { key, cause } => {
                self.lines.end(key, EndCause::Closed(cause));
                Ok(())
            }
            Action::Run { name, start } => self.start(right, name, start),
        }
    }

    /// Asks for a start. Where there is no room for it, the action comes back.
    fn start(
        &mut self,
        right: &V::Right,
        name: Box<BusName>,
        start: u64,
    ) -> Result<(), Action<V::Note>>
        ensures done { OnOk result (IsCarriedOut P.puts P.refuses P.starts
            (Run name start) self.old self.new) }
        ensures refused { OnErr result (self.new ≡ self.old) }
        ensures back { IfErr result (λ later. later ≡ Run name start) }
        ensures registry { P.registry self.new.post ≡ P.registry self.old.post }
    {
        let request = StartRequest { name: *name, start };
        match self.post.start(right, request) {
            Ok(()) => Ok(()),
            Err(TooManyStarts) => Err(Action::Run { name, start }),
        }
    }

    /// Puts a message to the monitors that are none of its recipients, and then to these.
    fn put(
        &mut self,
        right: &V::Right,
        to: &[Conn],
        monitors: &[Conn],
        note: &Option<V::Note>,
        content: &Content,
    )
        requires { IsOwnNote V.registry_of (P.registry self.old.post) note.now }
        ensures done { ArePut P.puts P.refuses note.now content.now to.now monitors.now
            self.old self.new }
        ensures registry { P.registry self.new.post ≡ P.registry self.old.post }
    {
        for conn in Deliveries::new(to, monitors) {
            self.put_to(right, conn, note, content);
        }
    }

    /// Puts a message to one connection. Where that can't be, it is to be put out, and gets no
    /// later ones: what it gets has no gap.
    fn put_to(&mut self, right: &V::Right, to: Conn, note: &Option<V::Note>, content: &Content)
        requires { IsOwnNote V.registry_of (P.registry self.old.post) note.now }
        ensures done { IsPut P.puts P.refuses note.now content.now to self.old self.new }
        ensures registry { P.registry self.new.post ≡ P.registry self.old.post }
    {
        if self.put_out.contains(to) {
            return;
        }
        let Ok(content) = content.try_clone() else {
            self.put_out.add(to, Refusal::NoMemory);
            return;
        };
        let envelope = Envelope {
            number: to.number,
            note: copy_of(note),
            content,
        };
        match self.post.put(right, to, envelope) {
            Ok(()) => self.slots.note_own(to.slot),
            Err(NoRoom) => self.put_out.add(to, Refusal::NoRoom),
        }
    }
}
