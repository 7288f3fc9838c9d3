//! Who runs programs.

use names::BusName;
use std::sync::Wait;
use supervisor::Event;

/// Who runs the programs of services.
pub trait Programs {
    ghost use Rattle.std.specs.Prelude.{ℕ, Bool, Option};
    ghost use Rattle.names.specs.Texts.{Text};
    ghost use Rattle.supervisor.specs.declared.event.Event.{Event};

    /// What it may be once it was asked to run the program of the service of a name, as the start
    /// of a number, and whether it can be run.
    ghost runs: { Self → Text → ℕ → Bool → Self → Type 0 } = { λ _ _ _ _ _. Unit {0} };

    /// What it may be once it told what happened since, if anything did.
    ghost gives: { Self → Option Event → Self → Type 0 } = { λ _ _ _. Unit {0} };

    /// Runs the program of the service of this name, as the start of this number. It is false where
    /// it can't be run; otherwise it is told later what becomes of it.
    fn run(&mut self, name: &BusName, start: u64) -> bool
        ensures { runs self.old name.now start result self.new };

    /// What happened since, one after another: a start is asked for, a program ended or could not
    /// be run.
    fn next<R: Wait>(&mut self, rt: &R) -> Option<Event>
        ensures { gives self.old result self.new };
}
