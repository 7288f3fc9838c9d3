//! What was made room for.

ghost use Rattle.std.specs.Prelude.{◌≡◌, ◌<◌, ◌≤◌, ◌+◌, ◌++◌, ◌∷◌, [], vec_len, vec_capacity};

use router_core::Action;
use seq_bus_core::Verdict;
use std::alloc::{AllocError, Global};

/// One element more, for which there is room.
pub fn push_reserved<T: Drop>(elements: &mut Vec<T>, element: T)
    requires { vec_len elements.old < vec_capacity elements.old }
    ensures items { elements.new.items ≡ elements.old.items ++ element ∷ [] }
    ensures len { vec_len elements.new ≡ vec_len elements.old + 1 }
    ensures capacity { vec_capacity elements.old ≤ vec_capacity elements.new }
{
    let _ = elements.push(element);
}

/// Room for a verdict. It is large, so it stays in one place.
pub fn blank_verdict(alloc: Global) -> Result<Box<Verdict>, AllocError> {
    match Box::new(alloc, Verdict::new()) {
        Ok(verdict) => Ok(verdict),
        Err(_) => Err(AllocError),
    }
}

/// Keeps a verdict, where there is a place for it.
pub fn keep_verdict(verdict: Box<Verdict>, verdicts: &mut Vec<Box<Verdict>>)
    ensures { vec_len verdicts.old ≤ vec_len verdicts.new }
{
    if verdicts.len() < verdicts.capacity() {
        push_reserved(verdicts, verdict);
    }
}

/// Lets an action go. The verdict of one for several recipients is kept.
fn keep_verdict_of<N: Drop>(action: Action<N>, verdicts: &mut Vec<Box<Verdict>>) {
    if let Action::Put { to, .. } = action {
        if let Some(verdict) = to.into_verdict() {
            keep_verdict(verdict, verdicts);
        }
    }
}

/// Lets actions go that are done. The verdicts of those for several recipients are kept, where
/// there are places for them.
pub fn clear_actions<N: Drop>(actions: &mut Vec<Action<N>>, verdicts: &mut Vec<Box<Verdict>>) {
    while let Some(action) = actions.pop() {
        keep_verdict_of(action, verdicts);
    }
}
