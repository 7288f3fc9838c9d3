//! Which of their changes the threads of a bus have told.

use crate::flag::lower;
use crossbeam_utils::CachePadded;
use std::alloc::{AllocError, Global};
use std::hint::spin_loop;
use std::sync::Wait;
use std::sync::atomic::{AtomicBool, AtomicU64, Ordering};
use std::time::Duration;

/// How often it is looked whether a thread has told enough before this thread sleeps.
const LOOKS_BEFORE_SLEEP: u32 = 200;

/// How often it is slept at most while no more is told. A thread that takes longer is not waited
/// for.
const MAX_IDLE_SLEEPS: u32 = 50;

/// How long it is slept at a time, in milliseconds.
const SLEEP_MILLIS: u64 = 2;

/// How often it is slept at most, though more is told meanwhile.
const MAX_SLEEPS: u32 = 5000;

/// What one thread has told of the changes that it made: what comes of a change is put for whoever
/// gets it once the change is made. Until then nobody is to put what comes later.
///
/// A position is a number of changes of the bus.
#[derive(Drop)]
struct Telling {
    /// All that the thread made up to this position is told: `u64::MAX` while it serves no event,
    /// when it makes none. Only its own thread writes it.
    told: AtomicU64,
    /// Another thread waits for more.
    is_awaited: AtomicBool,
}

impl Telling {
    fn new() -> Telling {
        Telling {
            told: AtomicU64::new(u64::MAX),
            is_awaited: AtomicBool::new(false),
        }
    }

    fn tell(&self, position: u64) {
        self.told.store(position, Ordering::SeqCst);
        if lower(&self.is_awaited) {
            self.told.wake_all();
        }
    }

    /// From now on the thread may make changes, which come behind this position. Whoever sees one
    /// of them sees this, too.
    fn begin(&self, position: u64) {
        self.told.store(position, Ordering::Release);
    }

    /// All that the thread made is told.
    fn end(&self) {
        if !self.has_told(u64::MAX) {
            self.tell(u64::MAX);
        }
    }

    /// All is told up to a position.
    fn advance(&self, position: u64) {
        if !self.has_told(position) {
            self.tell(position);
        }
    }

    /// Whether all is told up to a position.
    fn has_told(&self, position: u64) -> bool {
        self.told.load(Ordering::SeqCst) >= position
    }

    /// Looks for a while whether all is told up to a position.
    fn tells_soon(&self, position: u64) -> bool {
        for _ in 0..LOOKS_BEFORE_SLEEP {
            if self.has_told(position) {
                return true;
            }
            spin_loop();
        }
        false
    }

    /// Sleeps until more is told than this, but not for long: the low half of the position is what
    /// it sleeps on.
    fn sleep<R: Wait>(&self, rt: &R, told: u64) {
        self.is_awaited.store(true, Ordering::SeqCst);
        self.told.park_timeout(
            rt,
            (told & 0xffff_ffff) as u32,
            Duration::from_millis(SLEEP_MILLIS),
        );
    }

    /// Waits until all is told up to a position, but not for ever.
    fn await_told<R: Wait>(&self, rt: &R, position: u64) {
        if self.tells_soon(position) {
            return;
        }
        let mut sleeps_left = MAX_IDLE_SLEEPS;
        for _ in 0..MAX_SLEEPS {
            let told = self.told.load(Ordering::SeqCst);
            if told >= position || sleeps_left == 0 {
                return;
            }
            self.sleep(rt, told);
            sleeps_left = if self.told.load(Ordering::SeqCst) == told {
                sleeps_left.saturating_sub(1)
            } else {
                MAX_IDLE_SLEEPS
            };
        }
    }
}

/// What the threads of a bus have told of their changes: the routers, by their numbers, and behind
/// them the main thread. A thread whose number is past those of the routers is the main thread.
#[derive(Drop)]
pub(crate) struct Tellings {
    /// By threads. Each writes its own at every event, so no two share a line of the cache.
    tellings: Vec<CachePadded<Telling>>,
    /// There are so many changes, as far as any of them has told.
    latest: AtomicU64,
}

impl Tellings {
    /// What so many threads have told, the main thread among them, before there was a change.
    pub(crate) fn new(alloc: Global, threads: usize) -> Result<Tellings, AllocError> {
        let mut tellings = Vec::with_capacity(alloc, threads)?;
        for _thread in 0..threads {
            tellings.push(CachePadded::new(Telling::new()))?;
        }
        Ok(Tellings {
            tellings,
            latest: AtomicU64::new(0),
        })
    }

    /// Where what a thread has told stands: that of the main thread is the last.
    fn index(&self, thread: usize) -> usize {
        thread.min(self.tellings.len().saturating_sub(1))
    }

    /// What a thread has told.
    fn telling(&self, thread: usize) -> Option<&CachePadded<Telling>> {
        self.tellings.get(self.index(thread))
    }

    /// A thread may make changes from now on, which come behind all that are known.
    pub(crate) fn begin(&self, thread: usize) {
        if let Some(telling) = self.telling(thread) {
            telling.begin(self.latest.load(Ordering::SeqCst));
        }
    }

    /// A thread has put what comes of all changes that it made, and has seen so many.
    pub(crate) fn end(&self, thread: usize, seen: u64) {
        self.note_changes(seen);
        if let Some(telling) = self.telling(thread) {
            telling.end();
        }
    }

    /// There are so many changes.
    fn note_changes(&self, position: u64) {
        if position > self.latest.load(Ordering::SeqCst) {
            self.latest.fetch_max(position, Ordering::SeqCst);
        }
    }

    /// A thread that may have made changes has put what comes of them up to a position.
    pub(crate) fn tell_up_to(&self, thread: usize, position: u64) {
        self.note_changes(position);
        if let Some(telling) = self.telling(thread) {
            telling.advance(position);
        }
    }

    /// Waits until all other threads have put what comes of their changes up to a position, but not
    /// for ever.
    pub(crate) fn await_others<R: Wait>(&self, rt: &R, me: usize, position: u64) {
        let own = self.index(me);
        for (index, telling) in self.tellings.iter().enumerate() {
            if index != own {
                telling.await_told(rt, position);
            }
        }
    }
}
