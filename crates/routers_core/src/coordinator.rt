//! What the threads of a bus share, besides its registry and the queues between them.

ghost use Rattle.std.specs.Prelude.{◌≡◌, ◌-◌, ◌*◌, ◌^◌, min, IfOk, length};
ghost use Rattle.routers_core.specs.Posts.{places_of};

use crate::fault::Fault;
use crate::flag::{lower, raise};
use crate::telling::Tellings;
use crossbeam_utils::CachePadded;
use seq_bus_core::limits::MAX_CONNECTIONS;
use std::alloc::{AllocError, Global};
use std::marker::Model;
use std::sync::atomic::{AtomicBool, AtomicU64, Ordering};
use std::sync::{OnceLock, Wait};
use std::time::Duration;

/// The number of the main thread where threads are told apart by numbers: those of the routers are
/// smaller.
pub const MAIN_THREAD: usize = usize::MAX;

/// How long a router waits at most until another one ends a turn, in milliseconds.
const TURN_WAIT_MILLIS: u64 = 2;

/// How often the end of a turn is waited for at most by who waits for a router to have had one.
const MAX_TURN_WAITS: u32 = 100;

/// A router that ends so many turns has had one that it began after they were counted: it may have
/// been in one then.
const TURNS_APART: u64 = 2;

/// Ends the wait of one thread.
pub trait Wake {
    /// The thread's wait ends, or its next one at once. Where the system refuses that, nothing
    /// happens.
    fn wake(&self);
}

/// What a router and the other threads tell each other.
#[derive(Drop)]
struct RouterState<W: Wake + Drop> {
    waker: W,
    /// It waits, or is about to: whoever has something for it wakes it.
    is_sleeping: AtomicBool,
    /// There is mail from another router for a slot of it: which one, the flag of the slot says.
    has_mail: AtomicBool,
    /// It is to check which of its connections are present: one was full for another router, or
    /// some left late.
    is_check_due: AtomicBool,
    /// A connection came for it.
    has_newcomers: AtomicBool,
    /// Something was brought to it: whoever ends a turn wakes it.
    is_owed: AtomicBool,
    /// It serves.
    is_serving: AtomicBool,
    /// How many turns it has ended.
    turns: AtomicU64,
    /// Another router waits for the end of its turn.
    is_awaited: AtomicBool,
    /// How many connections that came to it are gone: over, or not served.
    gone: AtomicU64,
}

impl<W: Wake + Drop> RouterState<W> {
    fn new(waker: W) -> RouterState<W> {
        RouterState {
            waker,
            is_sleeping: AtomicBool::new(false),
            has_mail: AtomicBool::new(false),
            is_check_due: AtomicBool::new(false),
            has_newcomers: AtomicBool::new(false),
            is_owed: AtomicBool::new(false),
            is_serving: AtomicBool::new(false),
            turns: AtomicU64::new(0),
            is_awaited: AtomicBool::new(false),
            gone: AtomicU64::new(0),
        }
    }

    fn wake(&self) {
        if self.is_sleeping.swap(false, Ordering::SeqCst) {
            self.waker.wake();
        }
    }

    /// It has ended a turn: whoever waits for that goes on.
    fn end_turn(&self) {
        self.turns.fetch_add(1, Ordering::SeqCst);
        if lower(&self.is_awaited) {
            self.turns.wake_all();
        }
    }

    /// Waits until it ends a turn, but not for long.
    fn await_turn<R: Wait>(&self, rt: &R) {
        let turns = self.turns.load(Ordering::SeqCst);
        // Before it is woken: if it is about to sleep, it sees this.
        raise(&self.is_awaited);
        self.wake();
        self.turns.park_timeout(
            rt,
            (turns & 0xffff_ffff) as u32,
            Duration::from_millis(TURN_WAIT_MILLIS),
        );
    }
}

/// What the threads of a bus share, besides its registry and the queues between them: how to wake
/// each, which slots have mail, what was told of changes, and whether all are to end. Contracts see
/// how many routers there are.
pub struct Coordinator<W: Wake + Drop> {
    /// By routers. Each writes its own at every turn, so no two share a line of the cache.
    states: Vec<CachePadded<RouterState<W>>>,
    tellings: Tellings,
    /// By slots: there is mail from another router.
    mail: Vec<AtomicBool>,
    /// By slots: the connection did not take its mail, though its router had a turn.
    stuck: Vec<AtomicBool>,
    main: W,
    is_over: AtomicBool,
    /// The fault that came first.
    fault: OnceLock<Fault>,
}

impl<W: Wake + Drop> Drop for Coordinator<W> {
    fn drop(self) {
        let Coordinator {
            states,
            tellings,
            mail,
            stuck,
            main,
            is_over,
            fault,
        } = self;
        drop(states);
        drop(tellings);
        drop(mail);
        drop(stuck);
        drop(main);
        drop(is_over);
        drop(fault);
    }
}

/// A state for each waker.
fn states_of<W: Wake + Drop>(
    alloc: Global,
    wakers: Vec<W>,
) -> Result<Vec<CachePadded<RouterState<W>>>, AllocError>
    ensures { IfOk result (λ states. length states.items ≡ length wakers.items) }
{
    let mut states = Vec::with_capacity(alloc, wakers.len())?;
    for waker in wakers {
        states.push(CachePadded::new(RouterState::new(waker)))?;
    }
    Ok(states)
}

/// A flag for each slot.
fn flags(alloc: Global) -> Result<Vec<AtomicBool>, AllocError> {
    let mut flags = Vec::with_capacity(alloc, MAX_CONNECTIONS)?;
    for _slot in 0..MAX_CONNECTIONS {
        flags.push(AtomicBool::new(false))?;
    }
    Ok(flags)
}

impl<W: Wake + Drop> Model for Coordinator<W> {
    ghost use Rattle.std.specs.Prelude.{ℕ, length};

    ghost Value = { ℕ };

    ghost view = { λ c. length c.states.items };
}

impl<W: Wake + Drop> Coordinator<W> {
    /// The coordinator of as many routers as there are wakers, and of the main thread, whose waker
    /// is `main`.
    ///
    /// # Errors
    ///
    /// There may not be memory for what they share.
    pub fn new(alloc: Global, wakers: Vec<W>, main: W) -> Result<Coordinator<W>, AllocError>
        ensures routers { IfOk result (λ c. c ≡ length wakers.items) }
    {
        let states = states_of(alloc, wakers)?;
        let tellings = Tellings::new(alloc, states.len().saturating_add(1))?;
        let mail = flags(alloc)?;
        let stuck = flags(alloc)?;
        Ok(Coordinator {
            states,
            tellings,
            mail,
            stuck,
            main,
            is_over: AtomicBool::new(false),
            fault: OnceLock::new(),
        })
    }

    /// How many connections each router has places for.
    pub fn places(&self) -> usize
        ensures { result ≡ places_of self.now }
    {
        MAX_CONNECTIONS / self.states.len().max(1)
    }

    /// The slot of a router's first place: those of its other places follow.
    pub fn first_slot(&self, router: usize) -> usize
        ensures { result ≡ min (router * places_of self.now) (2 ^ 64 - 1) }
    {
        router.saturating_mul(self.places())
    }

    /// What a router and the other threads tell each other.
    fn state(&self, router: usize) -> Option<&RouterState<W>> {
        let state: &RouterState<W> = self.states.get(router)?;
        Some(state)
    }

    /// The router of a slot, counted from 0.
    fn router_of(&self, slot: usize) -> usize {
        slot / self.places().max(1)
    }

    /// There is mail for a slot of another router, which is to be woken at the end of the turn.
    pub(crate) fn tell_of_mail(&self, slot: usize) {
        if let Some(flag) = self.mail.get(slot) {
            raise(flag);
        }
        // Behind the slot's flag: whoever sees this one sees that one.
        if let Some(state) = self.state(self.router_of(slot)) {
            raise(&state.has_mail);
            raise(&state.is_owed);
        }
    }

    /// How many turns the router of a slot has ended. None where it does not serve, or where the
    /// connection of the slot did not take its mail though its router had a turn.
    pub(crate) fn turns_of(&self, slot: usize) -> Option<u64> {
        let stuck = self.stuck.get(slot)?;
        let state = self.state(self.router_of(slot))?;
        if stuck.load(Ordering::SeqCst) || !state.is_serving.load(Ordering::SeqCst) {
            return None;
        }
        Some(state.turns.load(Ordering::SeqCst))
    }

    /// Whether the router of a slot has had a turn that began after it had ended so many, or will
    /// have none.
    pub(crate) fn has_had_turn(&self, slot: usize, turns: u64) -> bool {
        match self.state(self.router_of(slot)) {
            Some(state) => {
                !state.is_serving.load(Ordering::SeqCst)
                    || state.turns.load(Ordering::SeqCst) >= turns.saturating_add(TURNS_APART)
            }
            None => true,
        }
    }

    /// Waits until the router of a slot ends a turn, but not for long.
    pub(crate) fn await_turn<R: Wait>(&self, rt: &R, slot: usize) {
        if let Some(state) = self.state(self.router_of(slot)) {
            state.await_turn(rt);
        }
    }

    /// Waits until the router of a slot has had a turn that began after it had ended so many, but
    /// not for ever. Tells whether it had.
    pub(crate) fn await_had_turn<R: Wait>(&self, rt: &R, slot: usize, turns: u64) -> bool {
        for _ in 0..MAX_TURN_WAITS {
            if self.has_had_turn(slot, turns) {
                return true;
            }
            self.await_turn(rt, slot);
        }
        false
    }

    /// The connection of a slot does not take its mail, though its router had a turn.
    pub(crate) fn note_stuck(&self, slot: usize) {
        if let Some(flag) = self.stuck.get(slot) {
            raise(flag);
        }
    }

    /// The connection of a slot takes its mail.
    pub(crate) fn note_taking(&self, slot: usize) {
        if let Some(flag) = self.stuck.get(slot) {
            lower(flag);
        }
    }

    /// A router begins to serve: others may wait for the end of its turns, until it serves no more
    /// ([`end_serving`](Coordinator::end_serving)).
    pub fn begin_serving(&self, router: usize) {
        if let Some(state) = self.state(router) {
            state.is_serving.store(true, Ordering::SeqCst);
        }
    }

    /// A router serves no more: from now on nobody waits for a turn of it.
    pub fn end_serving(&self, router: usize) {
        if let Some(state) = self.state(router) {
            state.is_serving.store(false, Ordering::SeqCst);
        }
    }

    /// What the threads have told of their changes.
    pub(crate) fn tellings(&self) -> &Tellings {
        &self.tellings
    }

    /// A router has ended a turn: whoever waits for that goes on.
    pub fn end_turn(&self, router: usize) {
        if let Some(state) = self.state(router) {
            state.end_turn();
        }
    }

    /// Whether another router put mail for any slot of a router since this was asked last: the flag
    /// is lowered. Those of the slots ([`take_mail_flag`](Coordinator::take_mail_flag)) are to be
    /// lowered after it: mail that comes in between is told once more.
    pub fn take_any_mail_flag(&self, router: usize) -> bool {
        self.state(router)
            .is_some_and(|state| lower(&state.has_mail))
    }

    /// Whether another router put mail for this slot since this was asked last: the flag is
    /// lowered.
    pub fn take_mail_flag(&self, slot: usize) -> bool {
        self.mail.get(slot).is_some_and(|flag| lower(flag))
    }

    /// So many connections that came to a router are gone: over, or not served. So the router has
    /// places for others ([`has_place`](Coordinator::has_place)).
    pub fn note_gone(&self, router: usize, count: u64) {
        if count == 0 {
            return;
        }
        if let Some(state) = self.state(router) {
            state.gone.fetch_add(count, Ordering::SeqCst);
        }
    }

    /// Whether a router that so many connections were handed to has a place for one more.
    pub fn has_place(&self, router: usize, handed: u64) -> bool {
        let Some(state) = self.state(router) else {
            return false;
        };
        let there = handed.saturating_sub(state.gone.load(Ordering::SeqCst));
        usize::try_from(there).unwrap_or(usize::MAX) < self.places()
    }

    /// A connection came for a router, which is to be woken.
    pub fn tell_of_connection(&self, router: usize) {
        if let Some(state) = self.state(router) {
            raise(&state.has_newcomers);
            raise(&state.is_owed);
        }
    }

    /// A router looks now which connections came for it: those that come later raise the flag
    /// again, and it does not sleep before it has looked for them.
    pub fn lower_newcomers_flag(&self, router: usize) {
        if let Some(state) = self.state(router) {
            state.has_newcomers.store(false, Ordering::SeqCst);
        }
    }

    /// The connection of this slot was full for another router than its own, which is to check
    /// whether it is present.
    pub(crate) fn ask_check(&self, slot: usize) {
        if let Some(state) = self.state(self.router_of(slot)) {
            raise(&state.is_check_due);
            raise(&state.is_owed);
        }
    }

    /// Connections that were to leave the bus before have left it: any router may have one, and all
    /// but that of this slot are to check which of theirs are present.
    pub(crate) fn ask_checks_of_others(&self, slot: usize) {
        let own = self.router_of(slot);
        for (router, state) in self.states.iter().enumerate() {
            if router != own {
                raise(&state.is_check_due);
                raise(&state.is_owed);
            }
        }
    }

    /// Whether a router was asked to check which of its connections are present. The flag is
    /// lowered.
    pub fn take_check_flag(&self, router: usize) -> bool {
        self.state(router)
            .is_some_and(|state| lower(&state.is_check_due))
    }

    /// A router is about to wait: until [`end_sleep`](Coordinator::end_sleep) whoever brings
    /// something to it wakes it. False where it is not to wait, since something came for it
    /// meanwhile, or all are to end.
    pub fn try_sleep(&self, router: usize) -> bool {
        let Some(state) = self.state(router) else {
            return false;
        };
        state.is_sleeping.store(true, Ordering::SeqCst);
        let has_work = state.has_mail.load(Ordering::SeqCst)
            || state.is_check_due.load(Ordering::SeqCst)
            || state.has_newcomers.load(Ordering::SeqCst)
            || state.is_awaited.load(Ordering::SeqCst);
        !(has_work || self.is_over())
    }

    /// A router waits no more, or did not wait: it need not be woken.
    pub fn end_sleep(&self, router: usize) {
        if let Some(state) = self.state(router) {
            state.is_sleeping.store(false, Ordering::SeqCst);
        }
    }

    /// Wakes the routers that something was brought to, if they sleep.
    pub fn wake_owed(&self) {
        for state in &self.states {
            if lower(&state.is_owed) {
                state.wake();
            }
        }
    }

    /// Something was brought to the main thread.
    pub(crate) fn wake_main(&self) {
        self.main.wake();
    }

    /// Whether all are to end.
    pub fn is_over(&self) -> bool {
        self.is_over.load(Ordering::SeqCst)
    }

    /// All threads are to end after their turn.
    pub fn stop(&self) {
        self.is_over.store(true, Ordering::SeqCst);
        self.main.wake();
        for state in &self.states {
            state.waker.wake();
        }
    }

    /// A thread can't go on, and all are to end.
    pub fn fail<R: Wait>(&self, rt: &R, fault: Fault) {
        let _ = self.fault.set(rt, fault);
        self.stop();
    }

    /// The fault that came first.
    pub fn fault(&self) -> Option<Fault> {
        self.fault.get().copied()
    }
}
