//! Laws of the definitions.

ghost use Rattle.outgoing.specs.Laws.{ReachedBeginsPushed};

/// What reached a socket is a beginning of what was pushed, and what waits is the rest, over any
/// list of pushes and flushes, of which some may fail.

#[tactic(auto, using(crate::proofs::Reaching::reached_begins_pushed))]
pub fn reached_begins_pushed()
    ensures { ReachedBeginsPushed }
{}
