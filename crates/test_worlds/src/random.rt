//! Steps taken at random.

ghost use Rattle.std.specs.Prelude.{◌<◌};

use crate::plain::is_right;
use crate::samples::{
    Deed, SERVICE, call_to, is_refused, publishes, routes, takes_note, two_routers,
};
use interleave::{Question, Step, run};
use names::BusName;
use rand_core::utils::NextWord;
use rand_pcg::Pcg32;
use seq_bus_core::Query;
use std::alloc::{AllocError, Global};
use test_support::ticked;

const RUNS: u64 = 50;

const STEPS: usize = 200;

const NAMES: [&str; 4] = ["com.example.A", "com.example.B", SERVICE, ":1.2"];

const RULES: [&str; 3] = ["", "sender='com.example.A'", "member='Ticked'"];

#[test]
fn random_steps(rt: HostRuntime) {
    for seed in 0..RUNS {
        assert!(rt; are_logged_right(rt.alloc(), seed) == Ok(true));
    }
}

/// Whether the log of steps that are taken at random says what it has to.
fn are_logged_right(alloc: Global, seed: u64) -> Result<bool, AllocError> {
    let Some(world) = two_routers(alloc) else {
        return Err(AllocError);
    };
    let steps = steps_of(alloc, seed)?;
    let log = run(alloc, &world, steps.as_slice())?;
    is_right(alloc, steps.as_slice(), log.lines.as_slice())
}

/// Dice that fall the same for each seed.
#[derive(Drop)]
struct Dice {
    words: Pcg32,
}

impl Dice {
    /// A number below so many. There is at least one.
    fn roll(&mut self, sides: u32) -> u32
        requires { 0 < sides }
        ensures { result < sides }
    {
        self.words.next_word() % sides
    }

    fn name(&mut self) -> &'static str {
        NAMES[self.roll(4) as usize]
    }

    fn rule(&mut self) -> &'static str {
        RULES[self.roll(3) as usize]
    }

    /// The number of a connection, mostly of one that is there.
    fn connection(&mut self) -> u64 {
        u64::from(self.roll(12)) + 1
    }

    /// The seat of one of the routers, of the main thread, or none that is there.
    fn seat(&mut self) -> u8 {
        match self.roll(8) {
            0 => 0,
            1 | 2 | 3 => 1,
            4 | 5 | 6 => 2,
            _ => 3,
        }
    }

    fn deed(&mut self) -> Deed<'static> {
        match self.roll(14) {
            0 | 1 | 2 => Deed::Hello,
            3 => Deed::Leave(self.connection()),
            4 | 5 => Deed::Request(self.connection(), self.name()),
            6 => Deed::Release(self.connection(), self.name()),
            7 => Deed::Add(self.connection(), self.rule()),
            8 => Deed::Remove(self.connection(), self.rule()),
            9 => Deed::Watch(self.connection()),
            10 => Deed::Start(self.connection(), self.name()),
            11 => Deed::Hold(self.connection(), self.name()),
            12 => Deed::Exited(self.name(), u64::from(self.roll(3))),
            _ => Deed::TimedOut(self.name(), u64::from(self.roll(3))),
        }
    }

    fn question(&mut self) -> Option<Question<'static>> {
        let name = self.name();
        Some(match self.roll(6) {
            0 => Question::Ask(Query::GetNameOwner(BusName::parse(name).ok()?)),
            1 => Question::Ask(Query::ListQueuedOwners(BusName::parse(name).ok()?)),
            2 => Question::Ask(Query::ListNames),
            3 => Question::Route {
                from: self.connection(),
                facts: call_to(name),
            },
            4 => Question::Route {
                from: self.connection(),
                facts: ticked(),
            },
            _ => Question::Present(self.connection()),
        })
    }

    /// A place about the end of what was published.
    fn place(&mut self, published: usize) -> usize {
        published
            .saturating_add(1)
            .saturating_sub(self.roll(8) as usize)
    }

    fn step(&mut self, alloc: Global, published: usize) -> Result<Step<'static>, AllocError> {
        let seat = self.seat();
        match self.roll(9) {
            0 | 1 => publishes(alloc, seat, &[self.deed()]),
            2 => publishes(alloc, seat, &[self.deed(), self.deed(), self.deed()]),
            3 => is_refused(alloc, seat, &[self.deed()]),
            4 => Ok(takes_note(seat, self.place(published))),
            _ => match self.question() {
                Some(question) => Ok(Step::Read {
                    seat,
                    place: self.place(published),
                    question,
                }),
                None => publishes(alloc, seat, &[]),
            },
        }
    }
}

/// The steps of a seed.
fn steps_of(alloc: Global, seed: u64) -> Result<Vec<Step<'static>>, AllocError> {
    let mut dice = Dice {
        words: Pcg32::new(seed, 54),
    };
    let mut steps = Vec::new(alloc);
    let mut published = 0usize;
    for _ in 0..STEPS {
        let step = dice.step(alloc, published)?;
        if let Step::Publish { changes, .. } = &step {
            published = published.saturating_add(changes.len());
        }
        steps.push(step)?;
    }
    Ok(steps)
}
