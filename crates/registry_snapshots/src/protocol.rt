//! The rule of the copies that readers take.

use crossbeam_utils::rule::{Outcome, Protocol};
use registry_snapshots_core::{Naming, Snap};
use std::marker::PhantomData;

/// The published copy stands for a beginning of this registry's history.
pub struct CopyRule<J> {
    of: PhantomData<J>,
}

impl<J: Naming> Protocol<Snap, ()> for CopyRule<J> {
    ghost use Rattle.registry_snapshots_core.specs.Copies.{IsSnapOf};

    ghost holds = { λ s _. IsSnapOf J.book J.opening s };

    ghost first = { tt };
}

/// The copy that is found or shown keeps the rule.
pub struct CopyKeepsRule<J> {
    of: PhantomData<J>,
}

impl<J: Naming> Outcome<Snap, ()> for CopyKeepsRule<J> {
    ghost use Rattle.registry_snapshots_core.specs.Copies.{IsSnapOf};

    ghost then = { λ v before after w. IsSnapOf J.book J.opening after };
}
