//! Runs of a world.

ghost use Rattle.std.specs.Prelude.{◌≡◌, IfOk};
ghost use Rattle.interleave.specs.Logs.{AreLines};
ghost use Rattle.interleave_core.specs.Promises.{IsPromised};
ghost use Rattle.interleave_core.specs.Worlds.{first_moment, log_of};

use crate::log::Log;
use crate::play::Play;
use crate::world::World;
use interleave_core::Step;
use std::alloc::{AllocError, Global};

/// Takes these steps of a world, one after the other, and says what the seats are answered.
///
/// A step whose seat is not there or whose place is no end, a read below what its seat has seen,
/// and a publication of no change or of more than 64 change nothing, and nothing is logged of them.
/// It takes memory, and time for each seat once through what is published.
///
/// What is promised holds of the steps whether there was memory to take them or not.
pub fn run<'a>(alloc: Global, world: &World, steps: &'a [Step<'a>]) -> Result<Log<'a>, AllocError>
    ensures promised { IsPromised world.now steps.now }
    ensures logged { IfOk result (λ log.
        AreLines log.lines.items (log_of (first_moment world.now) steps.now)) }
{
    let mut play = Play::new(alloc, world)?;
    for step in steps {
        play.take(alloc, step)?;
    }
    Ok(Log { lines: play.log })
}
